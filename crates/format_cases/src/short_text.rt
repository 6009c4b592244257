//! Bodies in short: `<TEXT*COUNT>` stands for COUNT times the text.
use cases::{Buffer, invalid};
use std::alloc::Global;
use std::io;

/// Writes the text that a part begins with, up to its `>`, and the rest as it is.
fn push_part(full: &mut Buffer, part: &str) -> io::Result<()> {
    let Some((short, rest)) = part.split_once('>') else {
        return Err(invalid());
    };
    let Some((text, count)) = short.rsplit_once('*') else {
        return Err(invalid());
    };
    let Ok(count) = count.parse::<usize>() else {
        return Err(invalid());
    };
    full.push_times(text, count);
    full.push(rest);
    Ok(())
}

/// The text in full.
pub fn in_full(alloc: Global, short: &str) -> io::Result<Buffer> {
    let mut full = Buffer::new(alloc);
    for (index, part) in short.split('<').enumerate() {
        if index == 0 {
            full.push(part);
        } else {
            push_part(&mut full, part)?;
        }
    }
    Ok(full)
}
