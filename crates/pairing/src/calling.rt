// The call that pairs coins.
ghost use Rattle.pairing.specs.Answers.{PairedAs};
ghost use Rattle.sheets.specs.Families.{family};
ghost use Rattle.sheets.specs.Sheets.{circle_of, lines_in};

use crate::answer::Pairing;
use crate::concluding::conclude;
use crate::counting::count_watched;
use crate::differing::first_difference;
use crate::judging::suffice;
use console::member_set;
use coupling::run_both;
use sheets::{Refusal, Sheet};
use std::alloc::Global;

// The coins of a run with other figures that are paired with the coins of a run with figures, so that the watched see
// the same of both; or why there are none. Figures and coins are one list for each member, and who has no list has an
// empty one. The watched are given by their numbers: order and repetition don't matter. The lists are lent one
// by one, since they may hold any words and the run of both takes them so: a struct would be taken apart again.
pub fn pair(
    heap: Global,
    sheet: &Sheet,
    watched: &[u32],
    coins: &[&[u32]],
    figures: &[&[u32]],
    other_figures: &[&[u32]],
) -> Result<Pairing, Refusal>
    ensures { PairedAs (circle_of sheet.now) (lines_in sheet.now) watched.now (family coins.now) (family figures.now) (family other_figures.now) result }
{
    let Some(set) = member_set(sheet.members(), watched) else {
        return Ok(Pairing::NoPairing);
    };
    if count_watched(sheet, &set) > sheet.threshold() {
        return Ok(Pairing::NoPairing);
    }
    suffice(heap, sheet, coins, figures, other_figures)?;
    let both = run_both(heap, sheet, &set, coins, figures, other_figures)?;
    if let Some(place) = first_difference(&both.opened, &both.other_opened) {
        return Ok(Pairing::OpenedDiffers(place));
    }
    conclude(heap, sheet, &set, figures, other_figures, both.coins)
}
