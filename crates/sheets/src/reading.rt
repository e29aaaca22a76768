// Reading a sheet from its bytes.
ghost use Rattle.sheets.specs.Outcome.{ReadAs, LinesAs};

use crate::judging::{is_bad_shape, judge};
use crate::line::Line;
use crate::refusal::Refusal;
use crate::sheet::Sheet;
use std::alloc::Global;

impl Sheet {
    // The sheet in the bytes, or the lowest of what is wrong with them.
    pub fn read(heap: Global, bytes: &[u8]) -> Result<Sheet, Refusal>
        ensures { ReadAs bytes.now result }
    {
        let [1, n, t, high, low, rest @ ..] = bytes else {
            return Err(Refusal::Malformed);
        };
        let count = u16::from_be_bytes([*high, *low]) as usize;
        if rest.len() != 9 * count {
            return Err(Refusal::Malformed);
        }
        let (parts, _) = rest.as_chunks::<9>();
        let lines = lines_of(heap, parts)?;
        if is_bad_shape(*n, *t, count) {
            return Err(Refusal::BadShape);
        }
        judge(*n as u32, &lines)?;
        Ok(Sheet {
            n: *n as usize,
            t: *t as usize,
            lines,
        })
    }
}

// The lines in parts of nine bytes each, or none if one is malformed. A reader's answer is taken apart by `let .. else`: what
// is refused stands beside what is read.
fn lines_of(heap: Global, parts: &[[u8; 9]]) -> Result<Vec<Line>, Refusal>
    ensures { LinesAs parts.now result }
{
    let mut lines = Vec::with_capacity(heap, parts.len())?;
    for nine in parts {
        let Some(line) = Line::read(nine) else {
            return Err(Refusal::Malformed);
        };
        lines.push(line)?;
    }
    Ok(lines)
}
