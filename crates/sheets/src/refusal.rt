// Why something is refused. Each cause has a number, and of several the lowest is given.
ghost use Rattle.std.specs.Prelude.{◌≡◌, Some};
ghost use Rattle.sheets.specs.Refusals.{number_of, cause_of, told};
ghost use Rattle.sheets.specs.declared.refusal.Refusal.TheVariants.{NoMemory};

use std::alloc::{AllocError, AllocFailed};
use std::error::Error;
use std::fmt;

#[derive(Clone, Copy, PartialEq, Eq, Debug)]
pub enum Refusal {
    NoMemory = 0,
    Malformed = 1,
    BadShape = 2,
    OutOfRange = 3,
    NotMadeYet = 4,
    WrongAddress = 5,
    OtherSheet = 6,
    WrongLine = 7,
    SecondGreeting = 8,
    SecondShare = 9,
    NoFigure = 10,
    NoCoins = 11,
    TooManyInputs = 12,
}

impl Refusal {
    pub fn number(self) -> u32
        ensures { result ≡ number_of self }
    {
        self as u32
    }

    // What is wrong, in words.
    pub fn cause(self) -> &'static str
        ensures { result.now ≡ cause_of self }
    {
        match self {
            Refusal::NoMemory => "there is not enough memory",
            Refusal::Malformed =>
                "unknown kind, bad length, or a second number that isn't 0 where there is one",
            Refusal::BadShape =>
                "no members or more than 15, 2t + 1 above their number, or no line or more than 4096",
            Refusal::OutOfRange => "a number is too large, or there is no such member",
            Refusal::NotMadeYet => "a line names a value that is not made yet",
            Refusal::WrongAddress => "not from a member, or not to this one",
            Refusal::OtherSheet => "the sheets differ",
            Refusal::WrongLine => "no such line, or one for which this sender sends nothing",
            Refusal::SecondGreeting => "a second first envelope from a member",
            Refusal::SecondShare => "a second share for a line, or one for a line that is done",
            Refusal::NoFigure => "figures are used up",
            Refusal::NoCoins => "coins are used up",
            Refusal::TooManyInputs => "more than 1024 input lines",
        }
    }
}

// Want of memory, so that `?` hands it on. By hand, since clauses read `from_gives`, which no derive states.
impl From<AllocError> for Refusal {
    ghost from_gives = { λ _ r. r ≡ NoMemory };

    fn from(_: AllocError) -> Refusal {
        Refusal::NoMemory
    }
}

impl<T: Drop> From<AllocFailed<T>> for Refusal {
    ghost from_gives = { λ _ r. r ≡ NoMemory };

    fn from(_: AllocFailed<T>) -> Refusal {
        Refusal::NoMemory
    }
}

impl Error for Refusal {}

// By hand, since contracts tell the line, and a derived one states no output.
impl fmt::Display for Refusal {
    ghost output = { λ e. Some (told e) };

    fn fmt<W: fmt::Write>(&self, f: &mut fmt::Formatter<W>) -> fmt::Result {
        let number = self.number();
        let cause = Refusal::cause(*self);
        write!(f, "{number}: {cause}")
    }
}
