// Figures and coins that run out.
ghost use Rattle.pairing.specs.Lacking.{LentAs, NeitherAs, TakenAs, DealersAs, figures_in, other_figures_in, coins_in, runs_out_in_either};
ghost use Rattle.sheets.specs.Families.{family};
ghost use Rattle.sheets.specs.Numbers.{numbers};
ghost use Rattle.sheets.specs.Sheets.{circle_of, lines_in};

use sheets::{Line, Lists, Refusal, Sheet, are_all_below};
use std::alloc::Global;

// What lines have left over of each member's figures in both runs and of its coins.
#[derive(Drop)]
pub(crate) struct Left<'a> {
    figures: Lists<'a>,
    other_figures: Lists<'a>,
    coins: Lists<'a>,
}

impl<'a> Left<'a> {
    // All of the lists, before the first line, if all their numbers lie below P.
    pub(crate) fn new(
        heap: Global,
        figures: &[&'a [u32]],
        other_figures: &[&'a [u32]],
        coins: &[&'a [u32]],
    ) -> Result<Left<'a>, Refusal>
        ensures { LentAs (family figures.now) (family other_figures.now) (family coins.now) result }
    {
        // All are looked through before memory is asked for, so that want of it hides no number that is too large.
        if !are_all_below(figures) || !are_all_below(other_figures) || !are_all_below(coins) {
            return Err(Refusal::OutOfRange);
        }
        Ok(Left {
            figures: Lists::known(heap, figures)?,
            other_figures: Lists::known(heap, other_figures)?,
            coins: Lists::known(heap, coins)?,
        })
    }

    // Takes what all lines take, or tells what is missing at the first at which either run lacks something.
    pub(crate) fn take_all(&mut self, sheet: &Sheet) -> Result<(), Refusal>
        ensures { NeitherAs (runs_out_in_either (circle_of sheet.now) (lines_in sheet.now) (figures_in self.old) (other_figures_in self.old) (coins_in self.old)) result }
    {
        for line in sheet.lines() {
            self.take(sheet, *line)?;
        }
        Ok(())
    }

    // Takes what one line takes.
    fn take(&mut self, sheet: &Sheet, line: Line) -> Result<(), Refusal>
        ensures { TakenAs (circle_of sheet.now) line self.old self.new result }
    {
        match line {
            Line::Input(member) => {
                let t = sheet.threshold();
                self.figures.draw(member, 1).ok_or(Refusal::NoFigure)?;
                self.other_figures.draw(member, 1).ok_or(Refusal::NoFigure)?;
                self.coins.draw(member, t).ok_or(Refusal::NoCoins)?;
                Ok(())
            }
            Line::Product(_, _) => take_of_all(sheet, &mut self.coins),
            Line::Sum(_, _) | Line::Times(_, _) | Line::Open(_) => Ok(()),
        }
    }
}

// Takes the coins under which one member after the other deals.
fn take_of_all(sheet: &Sheet, coins: &mut Lists) -> Result<(), Refusal>
    ensures { DealersAs (circle_of sheet.now) (numbers coins.old) (numbers coins.new) result }
{
    for member in 1..=sheet.members() {
        coins
            .draw(member as u32, sheet.threshold())
            .ok_or(Refusal::NoCoins)?;
    }
    Ok(())
}
