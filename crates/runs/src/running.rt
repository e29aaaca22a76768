// Running a sheet for all members.
ghost use Rattle.std.specs.Prelude.{◌≤◌, T, length};
ghost use Rattle.runs.specs.Outcome.{RunAs, AllDoneAs};
ghost use Rattle.runs.specs.Setups.{circle_in};
ghost use Rattle.runs.specs.Watching.{watches};
ghost use Rattle.sheets.specs.Families.{family, of};
ghost use Rattle.sheets.specs.Lines.{good};
ghost use Rattle.sheets.specs.Numbers.{numbers};
ghost use Rattle.sheets.specs.Sheets.{circle_of, lines_in};

use crate::outcome::Outcome;
use crate::progress::Progress;
use crate::setup::Setup;
use sheets::{Line, Lists, Refusal, Sheet, are_all_below};
use std::alloc::Global;

// What the sheet opens of figures and coins, one list for each member, and what the watched see of it. Member i's list
// and flag are at place i - 1, and who has no list has an empty one.
pub fn run(
    heap: Global,
    sheet: &Sheet,
    figures: &[&[u32]],
    coins: &[&[u32]],
    watched: &[bool; 15],
) -> Result<Outcome, Refusal>
    ensures { RunAs (circle_of sheet.now) (watches watched.now) (lines_in sheet.now) (of (family figures.now)) (of (family coins.now)) result }
{
    // Both are looked through before memory is asked for, so that want of it hides no number that is too large.
    if !are_all_below(figures) || !are_all_below(coins) {
        return Err(Refusal::OutOfRange);
    }
    let figures = Lists::known(heap, figures)?;
    let mut coins = Lists::known(heap, coins)?;
    let setup = Setup::new(sheet, watched);
    run_lines(heap, &setup, sheet.lines(), figures, &mut coins)
}

// At most so many words are seen of a line: at a product 15 times 7 coins and 15 times 15 shares.
const MOST_SEEN: usize = 330;

fn run_lines(
    heap: Global,
    setup: &Setup,
    lines: &[Line],
    figures: Lists,
    coins: &mut Lists,
) -> Result<Outcome, Refusal>
    requires { T (good setup.now.n 0 lines.now) × (length lines.now ≤ 4096) }
    ensures { AllDoneAs (circle_in setup.now) (watches setup.now.watched) lines.now (numbers figures.entry) (numbers coins.old) result }
{
    let mut progress = Progress::new(heap, figures, lines.len(), MOST_SEEN * lines.len())?;
    for line in lines {
        progress.do_line(setup, *line, coins)?;
    }
    Ok(Outcome {
        opened: progress.opened,
        seen: progress.seen,
    })
}
