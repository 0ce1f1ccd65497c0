//! Texts that are too long to type.
use crate::show;
use std::alloc::{AllocError, Global};
use std::iter;

/// A table of one row, with so many bytes after it.
fn padded(heap: Global, after: usize) -> Result<Vec<u8>, AllocError> {
    let mut text = Vec::from_slice(heap, b"(table 1)\n(task a (run 1) (due 4) (gap 4))\n")?;
    text.extend(iter::repeat_n(b'x', after))?;
    Ok(text)
}

/// The longest text, and one byte more.
pub(crate) fn sizes(rt: &HostRuntime) -> anyhow::Result<()> {
    let heap = rt.alloc();
    let longest = padded(heap, 8_149)?;
    let length = longest.len();
    println!(rt; "{length}")?;
    show(rt, "8192 bytes", longest.as_slice())?;
    let longer = padded(heap, 8_150)?;
    show(rt, "8193 bytes", longer.as_slice())
}

/// A table of so many rows, with this count in its first line.
fn rows(heap: Global, count: u32, rows: u32) -> Result<String, AllocError> {
    let mut text = format!(in heap; "(table {count})\n")?;
    for row in 0..rows {
        let line = format!(in heap; "(task r{row} (run 1) (due 64) (gap 64))\n")?;
        text.push_str(line.as_str())?;
    }
    Ok(text)
}

/// As many rows as a table may have, and one more.
pub(crate) fn counts(rt: &HostRuntime) -> anyhow::Result<()> {
    let heap = rt.alloc();
    let most = rows(heap, 64, 64)?;
    show(rt, "64 rows", most.as_bytes())?;
    let more = rows(heap, 65, 65)?;
    show(rt, "65 rows", more.as_bytes())?;
    let after = rows(heap, 64, 65)?;
    show(rt, "65 rows under a count of 64", after.as_bytes())
}
