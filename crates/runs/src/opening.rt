// A line at which everybody learns a value.
ghost use Rattle.std.specs.Prelude.{◌≡◌, ℕ};
ghost use Rattle.runs.specs.Row.{row_of};
ghost use Rattle.runs.specs.Setups.{circle_in};
ghost use Rattle.runs.specs.Steps.{ShownAs};

use crate::row::Row;
use crate::setup::Setup;
use sheets::Refusal;

impl Setup {
    // Each member shows its share, and the joining of the shares is opened.
    pub(crate) fn show(
        &self,
        row: &Row,
        opened: &mut Vec<u32>,
        seen: &mut Vec<u32>,
    ) -> Result<(), Refusal>
        ensures { (f : ℕ → ℕ) → row.now ≡ row_of f → ShownAs (circle_in self.now) f opened.old.items opened.new.items seen.old.items seen.new.items result }
    {
        seen.extend_from_slice(&row.shares()[..self.n])?;
        let joined = &self.weights[..self.t + self.t + 1];
        opened.push(shares::join(joined, row.shares()))?;
        Ok(())
    }
}
