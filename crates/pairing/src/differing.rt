// What differs between two runs.
ghost use Rattle.std.specs.Prelude.{◌≡◌, slice_index};
ghost use Rattle.pairing.specs.Differing.{differ, figure_differs};
ghost use Rattle.sheets.specs.Drawing.{after};
ghost use Rattle.sheets.specs.Families.{family, of};
ghost use Rattle.sheets.specs.Lines.{figures_needed};
ghost use Rattle.sheets.specs.Sheets.{lines_in};
ghost use Rattle.runs.specs.Watching.{watches};

use sheets::{Line, Sheet, draw, figures_in};

// The first place at which two lists differ, as far as both go.
pub(crate) fn first_difference(left: &[u32], right: &[u32]) -> Option<usize>
    ensures { result ≡ differ 0 left.now right.now }
{
    left.iter().zip(right).position(|(one, other)| one != other)
}

// A figure: whose it is, and its place among that member's own.
#[derive(Clone, Copy, Debug, PartialEq, Eq)]
pub(crate) struct Place {
    pub(crate) member: u32,
    pub(crate) place: usize,
}

// The first of the watched members' figures that differs, in the order of the input lines. The lists are used up as
// lines take from them.
pub(crate) fn first_figure(
    sheet: &Sheet,
    watched: &[bool; 15],
    figures: &mut [&[u32]],
    other_figures: &mut [&[u32]],
) -> Option<Place>
    ensures { result ≡ figure_differs (watches watched.now) (lines_in sheet.now) (λ i. 0) (of (family figures.old)) (of (family other_figures.old)) }
{
    let lines = sheet.lines();
    for (k, line) in lines.iter().enumerate() {
        if let Line::Input(member) = *line {
            let figure = next(figures, member);
            let other = next(other_figures, member);
            if watched[member as usize - 1] && figure != other {
                let place = figures_in(&lines[..k], member);
                return Some(Place { member, place });
            }
        }
    }
    None
}

// Takes the next number of a member's list, or gives 0 where there is none.
fn next(lists: &mut [&[u32]], member: u32) -> u32
    ensures value { result ≡ slice_index (of (family lists.old) member) 0 }
    ensures taken { of (family lists.new) ≡ after member 1 (of (family lists.old)) }
{
    draw(lists, member, 1).map_or(0, |drawn| drawn[0])
}
