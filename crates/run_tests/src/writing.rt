// Sheets made of lines, by way of their bytes.
use sheets::{Line, Sheet};
use std::alloc::Global;
use std::process::Abort;
use std::test::Fail;

pub(crate) fn sheet_of(
    rt: &impl Abort,
    heap: Global,
    n: u8,
    t: u8,
    lines: &[Line],
) -> Result<Sheet, Fail> {
    let count = lines.len();
    assert!(rt; count <= 4096);
    let [high, low] = (count as u16).to_be_bytes();
    let mut bytes = Vec::new(heap);
    bytes.extend_from_slice(&[1, n, t, high, low])?;
    for line in lines {
        bytes.extend_from_slice(&line.write())?;
    }
    Ok(Sheet::read(heap, &bytes)?)
}
