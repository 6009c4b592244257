//! Locations of stores at which none can be.
use portal_keeper::keeper::Keeper;
use portal_store::fault::StoreFault;
use portal_store::opening::open_store;
use sqlite::Unknown;
use std::test::Fail;

#[test]
fn no_store_is_opened_at_an_unfit_location(rt: HostRuntime) -> Result<(), Fail> {
    for location in [
        "",
        ":memory:",
        "file:portal.db",
        "no-such-folder/portal.db",
        ".",
        "/dev/null",
    ] {
        let fault = open_store(&rt, rt.alloc(), Some(location), Unknown).err();
        assert!(rt; fault == Some(StoreFault::Failed), "at {location}");
    }
    Ok(())
}

#[test]
fn a_store_without_a_location_has_no_rows(rt: HostRuntime) -> Result<(), Fail> {
    let mut store = open_store(&rt, rt.alloc(), None, Unknown)?;
    assert!(rt; store.load(rt.alloc())?.as_slice().is_empty());
    Ok(())
}
