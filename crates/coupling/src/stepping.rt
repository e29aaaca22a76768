// One line of both runs.
ghost use Rattle.std.specs.Prelude.{◌≡◌, T};
ghost use Rattle.coupling.specs.Growing.{lists as lists_in};
ghost use Rattle.coupling.specs.Sides.{Side, higher};
ghost use Rattle.coupling.specs.Steps.{Steady, BothAs};
ghost use Rattle.runs.specs.Run.{State};
ghost use Rattle.sheets.specs.Numbers.{numbers};
ghost use Rattle.runs.specs.Setups.{circle_in};

use crate::appending::append_each;
use crate::lending::lend_draws;
use crate::shifter::Shifter;
use runs::Progress;
use sheets::{Line, Lists, Refusal};

impl Shifter {
    // Both runs do a line, the second with the paired coins, which are noted.
    pub(crate) fn do_both(
        &self,
        line: Line,
        coins: &mut Lists,
        first: &mut Progress,
        second: &mut Progress,
        paired: &mut Vec<Vec<u32>>,
    ) -> Result<(), Refusal>
        requires { Steady (circle_in self.now.setup) line (numbers coins.old) (numbers first.old.figures) first.old.held.items (numbers second.old.figures) second.old.held.items }
        ensures { (s s' : State) → numbers coins.old ≡ s.coins → Side s first.old.held.items (numbers first.old.figures) → Side s' second.old.held.items (numbers second.old.figures) →
            BothAs (circle_in self.now.setup) (higher (circle_in self.now.setup) self.now.mask) line s s' (numbers coins.new) (numbers first.new.figures) first.new.held.items first.old.opened.items first.new.opened.items (numbers second.new.figures) second.new.held.items second.old.opened.items second.new.opened.items (lists_in paired.old) (lists_in paired.new) result }
    {
        let draws = self.paired_draws(line, coins, first, second);
        let mut lent = lend_draws(&self.setup, line, &draws);
        append_each(paired, &lent)?;
        first.do_line(&self.setup, line, coins)?;
        second.advance(&self.setup, line, &mut lent)
    }
}
