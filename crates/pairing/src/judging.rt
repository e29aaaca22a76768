// What is judged before the runs.
ghost use Rattle.pairing.specs.Verdict.{SufficeAs};
ghost use Rattle.sheets.specs.Families.{family};
ghost use Rattle.sheets.specs.Sheets.{circle_of, lines_in};

use crate::lacking::Left;
use sheets::{Refusal, Sheet};
use std::alloc::Global;

// Whether all numbers lie below P and nothing runs out in either run.
pub(crate) fn suffice(
    heap: Global,
    sheet: &Sheet,
    coins: &[&[u32]],
    figures: &[&[u32]],
    other_figures: &[&[u32]],
) -> Result<(), Refusal>
    ensures { SufficeAs (circle_of sheet.now) (lines_in sheet.now) (family coins.now) (family figures.now) (family other_figures.now) result }
{
    Left::new(heap, figures, other_figures, coins)?.take_all(sheet)
}
