// Both runs of a whole sheet.
ghost use Rattle.coupling.specs.Couples.{Given, CoupledAs, LinesAs};
ghost use Rattle.coupling.specs.Sides.{higher};
ghost use Rattle.sheets.specs.Families.{family, of};
ghost use Rattle.sheets.specs.Numbers.{numbers, lists_in as numbers_in};
ghost use Rattle.sheets.specs.Sheets.{circle_of, lines_in};
ghost use Rattle.runs.specs.Setups.{circle_in};
ghost use Rattle.runs.specs.Watching.{watches};

use crate::appending::{append_each, empty_lists};
use crate::couple::Couple;
use crate::shifter::Shifter;
use runs::{Progress, Setup};
use sheets::{Line, Lists, Refusal, Sheet};
use std::alloc::Global;

// What the sheet opens of figures and of other figures, both run on shares, and the coins of the second run that are
// paired with those of the first for these watched members.
pub fn run_both(
    heap: Global,
    sheet: &Sheet,
    watched: &[bool; 15],
    coins: &[&[u32]],
    figures: &[&[u32]],
    other_figures: &[&[u32]],
) -> Result<Couple, Refusal>
    requires { Given (circle_of sheet.now) (lines_in sheet.now) (of (family coins.now)) (of (family figures.now)) (of (family other_figures.now)) }
    ensures { CoupledAs (circle_of sheet.now) (watches watched.now) (lines_in sheet.now) (of (family coins.now)) (of (family figures.now)) (of (family other_figures.now)) result }
{
    // All are known to lie below P, so that none is looked through.
    let coins = Lists::known(heap, coins)?;
    let figures = Lists::known(heap, figures)?;
    let other_figures = Lists::known(heap, other_figures)?;
    let setup = Setup::new(sheet, &[false; 15]);
    let mask = masks::mask(setup.n, watched);
    let shifter = Shifter { setup, mask };
    run_lines(heap, &shifter, sheet.lines(), coins, figures, other_figures)
}

fn run_lines(
    heap: Global,
    shifter: &Shifter,
    lines: &[Line],
    mut coins: Lists,
    figures: Lists,
    other_figures: Lists,
) -> Result<Couple, Refusal>
    requires { Given (circle_in shifter.now.setup) lines.now (numbers coins) (numbers figures) (numbers other_figures) }
    ensures { LinesAs (circle_in shifter.now.setup) (higher (circle_in shifter.now.setup) shifter.now.mask) lines.now (numbers_in coins.entry) (numbers figures.entry) (numbers other_figures.entry) result }
{
    let mut first = Progress::new(heap, figures, lines.len(), 0)?;
    let mut second = Progress::new(heap, other_figures, lines.len(), 0)?;
    let mut paired = empty_lists(heap, &coins.lists)?;
    for line in lines {
        shifter.do_both(*line, &mut coins, &mut first, &mut second, &mut paired)?;
    }
    append_each(&mut paired, &coins.lists)?;
    Ok(Couple {
        opened: first.opened,
        other_opened: second.opened,
        coins: paired,
    })
}
