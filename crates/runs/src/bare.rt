// A line of a run for who holds bare words and lends all lists.
ghost use Rattle.std.specs.Prelude.{◌≡◌, ℕ, List, map};
ghost use Rattle.runs.specs.Row.{row_of};
ghost use Rattle.runs.specs.Setups.{circle_in};
ghost use Rattle.runs.specs.Steps.{in_state, Ready, DoneAs};
ghost use Rattle.runs.specs.Watching.{watches};
ghost use Rattle.sheets.specs.Families.{family, of};

use crate::row::Row;
use crate::setup::Setup;
use sheets::{Line, Refusal};

// What `Progress::advance` does, of words that are known to lie below P. It asks for no memory but to push. One `match` for
// both would take a closure that reads a row.
pub fn do_line(
    setup: &Setup,
    line: Line,
    figures: &mut [&[u32]],
    coins: &mut [&[u32]],
    held: &mut Vec<[u32; 15]>,
    opened: &mut Vec<u32>,
    seen: &mut Vec<u32>,
) -> Result<(), Refusal>
    requires { Ready (circle_in setup.now) line held.old.items (of (family figures.old)) (of (family coins.old)) }
    ensures { (values : List (ℕ → ℕ)) → held.old.items ≡ map row_of values → DoneAs (circle_in setup.now) (watches setup.now.watched) line (in_state values (of (family figures.old)) (of (family coins.old))) held.new.items (of (family figures.new)) (of (family coins.new)) opened.old.items opened.new.items seen.old.items seen.new.items result }
{
    let row = match line {
        Line::Input(member) => setup.put_in(member, figures, coins, seen)?,
        Line::Sum(a, b) => Row::new(held[a as usize]).sum(&Row::new(held[b as usize])),
        Line::Times(factor, a) => Row::new(held[a as usize]).multiple(factor),
        Line::Product(a, b) => {
            let (a, b) = (Row::new(held[a as usize]), Row::new(held[b as usize]));
            setup.multiply(&a, &b, coins, seen)?
        }
        Line::Open(a) => return setup.show(&Row::new(held[a as usize]), opened, seen),
    };
    held.push(*row.shares())?;
    Ok(())
}
