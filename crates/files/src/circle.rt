// Files of a whole circle: for each member a count and as many words, once or twice.
ghost use Rattle.std.specs.Prelude.{T, IfOk};
ghost use Rattle.field.specs.Field.{all_below};
ghost use Rattle.files.specs.Answers.{Answers};
ghost use Rattle.files.specs.Circles.{each, figures_one, formed, circle_figures};
ghost use Rattle.files.specs.Lists.{lists as lists_of};

use crate::parts::{check_end, cut};
use crate::words::split_words;
use sheets::{Refusal, each_below};
use std::alloc::Global;

// The figures of members 1 to n.
pub fn read_circle_figures(heap: Global, n: usize, bytes: &[u8]) -> Result<Vec<Vec<u32>>, Refusal>
    ensures answer { Answers lists_of (circle_figures n bytes.now) result }
    ensures in_field { IfOk result (λ v. T (all_below (lists_of v))) }
{
    let figures = read_lists(heap, n, bytes)?;
    if !each_below(&figures) {
        return Err(Refusal::OutOfRange);
    }
    Ok(figures)
}

// n lists of words, each after its count, and nothing more.
fn read_lists(heap: Global, n: usize, bytes: &[u8]) -> Result<Vec<Vec<u32>>, Refusal>
    ensures { Answers lists_of (formed (each figures_one n bytes.now)) result }
{
    let mut lists = Vec::new(heap);
    let mut rest = bytes;
    for _ in 0..n {
        let (part, after) = cut(rest)?;
        lists.push(split_words(heap, part)?)?;
        rest = after;
    }
    check_end(rest)?;
    Ok(lists)
}
