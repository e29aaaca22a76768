// What a member deals.
ghost use Rattle.std.specs.Prelude.{◌≡◌, ℕ, ◌<◌, ◌≤◌, T, map, length};
ghost use Rattle.coupling.specs.Sides.{Side};
ghost use Rattle.field.specs.Field.{p};
ghost use Rattle.runs.specs.Run.{State, secret as secret_of};
ghost use Rattle.sheets.specs.Numbers.{numbers};
ghost use Rattle.sheets.specs.Lines.{good_line};

use runs::{Progress, list_of};
use sheets::Line;

// The number that a member deals for a line for which it deals: its next figure, or the product of its two shares.
pub(crate) fn secret(line: Line, run: &Progress, member: u32) -> u32
    requires { ((n : ℕ) × T (good_line n (length run.now.held.items) line)) × (0 < member) × (member ≤ 15) }
    ensures value { (s : State) → Side s run.now.held.items (numbers run.now.figures) → result ≡ secret_of line s member }
    ensures small { result < p }
{
    match line {
        Line::Input(_) => list_of(&run.figures.lists, member)
            .first()
            .copied()
            .unwrap_or(0),
        Line::Product(a, b) => {
            let place = member as usize - 1;
            let (a, b) = (&run.held[a as usize], &run.held[b as usize]);
            field::product(a.shares()[place], b.shares()[place])
        }
        Line::Sum(_, _) | Line::Times(_, _) | Line::Open(_) => 0,
    }
}
