// How many are watched.
ghost use Rattle.std.specs.Prelude.{◌≡◌};
ghost use Rattle.runs.specs.Seen.{how_many};
ghost use Rattle.runs.specs.Watching.{watches};

use sheets::Sheet;

pub(crate) fn count_watched(sheet: &Sheet, watched: &[bool; 15]) -> usize
    ensures { result ≡ how_many (watches watched.now) sheet.now.n }
{
    let members = &watched[..sheet.members()];
    members.iter().filter(|is_watched| **is_watched).count()
}
