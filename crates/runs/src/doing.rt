// A run, line by line.
ghost use Rattle.std.specs.Prelude.{◌≡◌, ℕ, T, List, length, map};
ghost use Rattle.field.specs.Field.{all_below};
ghost use Rattle.runs.specs.Progress.{StartedAs};
ghost use Rattle.runs.specs.Row.{row_of};
ghost use Rattle.runs.specs.Setups.{circle_in};
ghost use Rattle.runs.specs.Steps.{in_state, DoneAs};
ghost use Rattle.runs.specs.Watching.{watches};
ghost use Rattle.sheets.specs.Families.{family, of};
ghost use Rattle.sheets.specs.Lines.{good_line};
ghost use Rattle.sheets.specs.Numbers.{numbers};

use crate::progress::Progress;
use crate::setup::Setup;
use sheets::{Line, Lists, Refusal};
use std::alloc::Global;

impl<'a> Progress<'a> {
    // A run before its first line, with room for what so many lines make and for so many words seen.
    pub fn new(
        heap: Global,
        figures: Lists<'a>,
        lines: usize,
        words: usize,
    ) -> Result<Progress<'a>, Refusal>
        ensures { StartedAs figures.entry result }
    {
        Ok(Progress {
            figures,
            held: Vec::with_capacity(heap, lines)?,
            opened: Vec::with_capacity(heap, lines)?,
            seen: Vec::with_capacity(heap, words)?,
        })
    }

    pub fn do_line(&mut self, setup: &Setup, line: Line, coins: &mut Lists) -> Result<(), Refusal>
        requires { T (good_line setup.now.n (length self.old.held.items) line) }
        ensures { (values : List (ℕ → ℕ)) → self.old.held.items ≡ map row_of values → DoneAs (circle_in setup.now) (watches setup.now.watched) line (in_state values (numbers self.old.figures) (numbers coins.old)) self.new.held.items (numbers self.new.figures) (numbers coins.new) self.old.opened.items self.new.opened.items self.old.seen.items self.new.seen.items result }
    {
        self.advance(setup, line, &mut coins.lists)
    }

    // Does a line under coins that are lent, so that they need no memory of their own.
    pub fn advance(
        &mut self,
        setup: &Setup,
        line: Line,
        coins: &mut [&[u32]],
    ) -> Result<(), Refusal>
        requires { T (good_line setup.now.n (length self.old.held.items) line) × T (all_below (family coins.old)) }
        ensures done { (values : List (ℕ → ℕ)) → self.old.held.items ≡ map row_of values → DoneAs (circle_in setup.now) (watches setup.now.watched) line (in_state values (numbers self.old.figures) (of (family coins.old))) self.new.held.items (numbers self.new.figures) (of (family coins.new)) self.old.opened.items self.new.opened.items self.old.seen.items self.new.seen.items result }
        ensures small { T (all_below (family coins.new)) }
    {
        let row = match line {
            Line::Input(member) => {
                let figures = &mut self.figures;
                setup.put_in(member, &mut figures.lists, coins, &mut self.seen)?
            }
            Line::Sum(a, b) => self.held[a as usize].sum(&self.held[b as usize]),
            Line::Times(factor, a) => self.held[a as usize].multiple(factor),
            Line::Product(a, b) => {
                let (a, b) = (&self.held[a as usize], &self.held[b as usize]);
                setup.multiply(a, b, coins, &mut self.seen)?
            }
            Line::Open(a) => {
                let row = &self.held[a as usize];
                return setup.show(row, &mut self.opened, &mut self.seen);
            }
        };
        self.held.push(row)?;
        Ok(())
    }
}
