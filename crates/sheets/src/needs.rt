// What is public of a sheet: its members, its lines, and what each member has to bring.
ghost use Rattle.std.specs.Prelude.{◌≡◌, ◌+◌, ◌*◌, ◌≤◌, length};
ghost use Rattle.sheets.specs.Lines.{figures_needed, coins_needed};
ghost use Rattle.sheets.specs.Sheets.{circle_of, lines_in};

use crate::line::Line;
use crate::sheet::Sheet;

impl Sheet {
    // How many members there are.
    pub fn members(&self) -> usize
        ensures { result ≡ self.now.n }
    {
        self.n
    }

    // How many of them together are to learn nothing.
    pub fn threshold(&self) -> usize
        ensures { result ≡ self.now.t }
    {
        self.t
    }

    pub fn lines(&self) -> &[Line]
        ensures { result.now ≡ lines_in self.now }
    {
        &self.lines
    }

    // How many figures a member gives.
    pub fn figures_needed(&self, member: u32) -> usize
        ensures { result ≡ figures_needed member (lines_in self.now) }
    {
        figures_in(&self.lines, member)
    }

    // How many coins a member draws.
    pub fn coins_needed(&self, member: u32) -> usize
        ensures { result ≡ coins_needed (circle_of self.now) member (lines_in self.now) }
    {
        self.lines
            .iter()
            .map(|line| line.coins_of(self.n, self.t, member))
            .sum()
    }
}

// How many figures a member gives for some lines.
pub fn figures_in(lines: &[Line], member: u32) -> usize
    ensures { result ≡ figures_needed member lines.now }
{
    lines.iter().filter(|line| line.is_given_by(member)).count()
}
