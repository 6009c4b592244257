//! Values that no text gives.
use portal_base::json_value::Json;
use portal_base::seq::Seq;
use portal_base::text::Text;
use std::test::Fail;

#[test]
fn writes_wide_numbers_and_any_order(rt: HostRuntime) -> Result<(), Fail> {
    let alloc = rt.alloc();
    let mut entries = Vec::new(alloc);
    entries.push((Text::from_str(alloc, "b")?, Json::Whole(i128::MAX)))?;
    entries.push((Text::from_str(alloc, "a")?, Json::Whole(i128::MIN)))?;
    let map = Json::Map(Seq::from(entries));
    let written = map.text(alloc)?;
    assert_eq!(rt;
        written.as_str(),
        "{\"b\":170141183460469231731687303715884105727,\"a\":-170141183460469231731687303715884105728}"
    );
    Ok(())
}
