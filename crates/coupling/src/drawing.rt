// The coins that the second run draws for a line.
ghost use Rattle.std.specs.Prelude.{◌≡◌, T};
ghost use Rattle.coupling.specs.Sides.{Side, Drawable, higher, DrawnAs};
ghost use Rattle.field.specs.Field.{all_below};
ghost use Rattle.runs.specs.Run.{State};
ghost use Rattle.sheets.specs.Numbers.{numbers};
ghost use Rattle.runs.specs.Setups.{circle_in};

use crate::secrets::secret;
use crate::shifter::Shifter;
use runs::{Progress, list_of};
use sheets::{Line, Lists};

impl Shifter {
    // Each dealer's next coins in the first run, shifted by the mask times what it deals more in the second. Fifteen
    // members draw at most seven each, so an array holds them and needs no memory of its own.
    pub(crate) fn paired_draws(
        &self,
        line: Line,
        coins: &Lists,
        first: &Progress,
        second: &Progress,
    ) -> [[u32; 7]; 15]
        requires { Drawable (circle_in self.now.setup) line (numbers coins.now) (numbers first.now.figures) first.now.held.items (numbers second.now.figures) second.now.held.items }
        ensures places { (s s' : State) → numbers coins.now ≡ s.coins → Side s first.now.held.items (numbers first.now.figures) → Side s' second.now.held.items (numbers second.now.figures) → DrawnAs (circle_in self.now.setup) (higher (circle_in self.now.setup) self.now.mask) line s s' result }
        ensures small { T (all_below result) }
    {
        let mut draws = [[0; 7]; 15];
        for (i, draw) in draws.iter_mut().enumerate() {
            let member = i as u32 + 1;
            let count = line.coins_of(self.setup.n, self.setup.t, member);
            // Nothing is worked out for who draws nothing.
            if count > 0 {
                let drawn = &list_of(&coins.lists, member)[..count];
                let less = secret(line, first, member);
                let more = secret(line, second, member);
                *draw = masks::shift(field::sum(more, field::negative(less)), &self.mask, drawn);
            }
        }
        draws
    }
}
