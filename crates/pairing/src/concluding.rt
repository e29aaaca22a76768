// What is answered where both runs open the same.
ghost use Rattle.pairing.specs.Answers.{ConcludedAs};
ghost use Rattle.pairing.specs.Differing.{figure_differs};
ghost use Rattle.sheets.specs.Families.{family, of};
ghost use Rattle.sheets.specs.Sheets.{lines_in};
ghost use Rattle.runs.specs.Watching.{watches};

use crate::answer::Pairing;
use crate::differing::first_figure;
use sheets::{Refusal, Sheet};
use std::alloc::Global;

// The first of the watched members' figures that differs, or else the coins.
pub(crate) fn conclude(
    heap: Global,
    sheet: &Sheet,
    watched: &[bool; 15],
    figures: &[&[u32]],
    other_figures: &[&[u32]],
    coins: Vec<Vec<u32>>,
) -> Result<Pairing, Refusal>
    ensures { ConcludedAs (figure_differs (watches watched.now) (lines_in sheet.now) (λ i. 0) (of (family figures.now)) (of (family other_figures.now))) coins result }
{
    let mut figures = Vec::from_slice(heap, figures)?;
    let mut other_figures = Vec::from_slice(heap, other_figures)?;
    match first_figure(sheet, watched, &mut figures, &mut other_figures) {
        Some(found) => Ok(Pairing::FigureDiffers(found.member, found.place)),
        None => Ok(Pairing::Coins(coins)),
    }
}
