// A line at which a member puts in a figure.
ghost use Rattle.std.specs.Prelude.{T};
ghost use Rattle.field.specs.Field.{all_below};
ghost use Rattle.runs.specs.Setups.{circle_in};
ghost use Rattle.runs.specs.Steps.{EnteredAs};
ghost use Rattle.runs.specs.Watching.{watches};
ghost use Rattle.sheets.specs.Families.{family, of};

use crate::row::Row;
use crate::setup::Setup;
use sheets::{Refusal, draw};

impl Setup {
    // The shares of the member's next figure.
    pub(crate) fn put_in(
        &self,
        member: u32,
        figures: &mut [&[u32]],
        coins: &mut [&[u32]],
        seen: &mut Vec<u32>,
    ) -> Result<Row, Refusal>
        requires { T (all_below (family figures.old)) × T (all_below (family coins.old)) }
        ensures entered { EnteredAs (circle_in self.now) (watches self.now.watched) member (of (family figures.old)) (of (family figures.new)) (of (family coins.old)) (of (family coins.new)) seen.old.items seen.new.items result }
        ensures small { T (all_below (family figures.new)) × T (all_below (family coins.new)) }
    {
        let figure = draw(figures, member, 1).ok_or(Refusal::NoFigure)?;
        self.note_own(member, figure, seen)?;
        self.note_coins(member, coins, seen)?;
        self.deal_out(member, figure[0], coins, seen)
    }
}
