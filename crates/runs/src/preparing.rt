// What is done before the first line.
ghost use Rattle.std.specs.Prelude.{◌≡◌};
ghost use Rattle.runs.specs.Setups.{circle_in};
ghost use Rattle.sheets.specs.Sheets.{circle_of};

use crate::setup::Setup;
use sheets::Sheet;

impl Setup {
    // The weights are made once for all lines.
    pub fn new(sheet: &Sheet, watched: &[bool; 15]) -> Setup
        ensures { (circle_in result ≡ circle_of sheet.now) × (result.watched ≡ watched.now) }
    {
        let n = sheet.members();
        let t = sheet.threshold();
        let mut weights = [0; 15];
        shares::fill_weights(&mut weights[..t + t + 1]);
        Setup {
            n,
            t,
            weights,
            watched: *watched,
        }
    }
}
