// Dealing a number to all members.
ghost use Rattle.std.specs.Prelude.{◌≡◌, ◌<◌, T};
ghost use Rattle.field.specs.Field.{p, all_below};
ghost use Rattle.runs.specs.Setups.{circle_in};
ghost use Rattle.runs.specs.Steps.{DealtOut};
ghost use Rattle.runs.specs.Watching.{watches};
ghost use Rattle.sheets.specs.Families.{family, of};

use crate::row::Row;
use crate::setup::Setup;
use sheets::{Refusal, draw};

impl Setup {
    // The shares of a member's number, under its next t coins.
    pub(crate) fn deal_out(
        &self,
        member: u32,
        secret: u32,
        coins: &mut [&[u32]],
        seen: &mut Vec<u32>,
    ) -> Result<Row, Refusal>
        requires { (secret < p) × T (all_below (family coins.old)) }
        ensures dealt { DealtOut (circle_in self.now) (watches self.now.watched) member secret (of (family coins.old)) (of (family coins.new)) seen.old.items seen.new.items result }
        ensures small { T (all_below (family coins.new)) }
    {
        let drawn = draw(coins, member, self.t).ok_or(Refusal::NoCoins)?;
        let row = Row::deal(secret, drawn);
        self.note_shares(&row, seen)?;
        Ok(row)
    }
}
