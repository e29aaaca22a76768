// What a sheet means in the plain.
ghost use Rattle.std.specs.Prelude.{◌≡◌, ℕ, ◌<◌, T, [], vec_len};
ghost use Rattle.field.specs.Field.{below};
ghost use Rattle.sheets.specs.Families.{family};
ghost use Rattle.sheets.specs.Lines.{good_line};
ghost use Rattle.sheets.specs.Numbers.{lists_in};
ghost use Rattle.sheets.specs.Outcome.{WorkedAs, ResultAs};
ghost use Rattle.sheets.specs.Sheets.{lines_in};

use crate::line::Line;
use crate::lists::Lists;
use crate::refusal::Refusal;
use crate::sheet::Sheet;
use std::alloc::Global;

// The figures not taken yet, the values made and what is opened so far.
#[derive(Drop)]
struct Plain<'a> {
    figures: Lists<'a>,
    values: Vec<u32>,
    opened: Vec<u32>,
}

impl Plain<'_> {
    // Works one line: what it makes or opens is appended, and its figure is taken.
    fn work(&mut self, line: Line) -> Result<(), Refusal>
        requires { ((n : ℕ) × T (good_line n (vec_len self.old.values) line)) × T (below self.old.values.items) }
        ensures { WorkedAs line (lists_in self.old.figures) (lists_in self.new.figures) self.old.values.items self.new.values.items self.old.opened.items self.new.opened.items result }
    {
        match line {
            Line::Input(member) => {
                let figure = self.figures.draw(member, 1).ok_or(Refusal::NoFigure)?;
                self.values.push(figure[0])?;
            }
            Line::Sum(a, b) => {
                let sum = field::sum(self.values[a as usize], self.values[b as usize]);
                self.values.push(sum)?;
            }
            Line::Times(k, a) => {
                let multiple = field::product(k, self.values[a as usize]);
                self.values.push(multiple)?;
            }
            Line::Product(a, b) => {
                let product = field::product(self.values[a as usize], self.values[b as usize]);
                self.values.push(product)?;
            }
            Line::Open(a) => self.opened.push(self.values[a as usize])?,
        }
        Ok(())
    }
}

impl Sheet {
    // What it opens of each member's figures, in the order of its open lines.
    pub fn result(&self, heap: Global, figures: &[&[u32]]) -> Result<Vec<u32>, Refusal>
        ensures { ResultAs (lines_in self.now) (family figures.now) result }
    {
        let mut plain = Plain {
            figures: Lists::new(heap, figures)?,
            values: Vec::with_capacity(heap, self.lines.len())?,
            opened: Vec::new(heap),
        };
        for line in &self.lines {
            plain.work(*line)?;
        }
        Ok(plain.opened)
    }
}
