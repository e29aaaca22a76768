// Draws lent as one list for each member.
ghost use Rattle.std.specs.Prelude.{◌≡◌};
ghost use Rattle.coupling.specs.Sides.{LentAs};
ghost use Rattle.sheets.specs.Families.{family};
ghost use Rattle.runs.specs.Setups.{circle_in};

use runs::Setup;
use sheets::Line;

// The t coins of each dealer, and none of the others.
pub(crate) fn lend_draws<'a>(
    setup: &Setup,
    line: Line,
    draws: &'a [[u32; 7]; 15],
) -> [&'a [u32]; 15]
    ensures { LentAs (circle_in setup.now) line draws.now (family result) }
{
    let mut lent: [&'a [u32]; 15] = [&[]; 15];
    for (i, list) in lent.iter_mut().enumerate() {
        let count = line.coins_of(setup.n, setup.t, i as u32 + 1);
        *list = &draws[i][..count];
    }
    lent
}
