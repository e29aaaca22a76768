// A line of a sheet.
ghost use Rattle.std.specs.Prelude.{◌≡◌, ◌<◌, length, if◌then◌else◌, Some, None};
ghost use Rattle.sheets.specs.Lines.{made as made_by, gives, deals_in};
ghost use Rattle.sheets.specs.Reading.{malformed, line_of, out_of_range, undefined as undefined_at, is_input as is_input_line};

// One of the five kinds. Each but `Open` makes the next value; values are numbered from 0.
#[derive(Clone, Copy, PartialEq, Eq, Debug)]
pub enum Line {
    // the next figure of a member
    Input(u32),
    // of two values
    Sum(u32, u32),
    // a fixed number times a value
    Times(u32, u32),
    // of two values
    Product(u32, u32),
    // everybody is to learn a value
    Open(u32),
}

impl Line {
    // The line in nine bytes: a kind and two numbers, of which the second is 0 where the kind has only one. Named as
    // `Sheet::read` is and no TryFrom: the contract cites the format's definitions. So is `write`.
    pub(crate) fn read(bytes: &[u8; 9]) -> Option<Line>
        ensures { result ≡ (if malformed bytes.now then None else Some (line_of bytes.now)) }
    {
        let [kind, a, b, c, d, e, f, g, h] = *bytes;
        let first = u32::from_be_bytes([a, b, c, d]);
        let second = u32::from_be_bytes([e, f, g, h]);
        match kind {
            1 if second == 0 => Some(Line::Input(first)),
            2 => Some(Line::Sum(first, second)),
            3 => Some(Line::Times(first, second)),
            4 => Some(Line::Product(first, second)),
            5 if second == 0 => Some(Line::Open(first)),
            0..=1 | 5..=255 => None,
        }
    }

    // A number is P or above, or names no member among 1 to n.
    pub(crate) fn is_out_of_range(self, n: u32) -> bool
        ensures { result ≡ out_of_range n self }
    {
        match self {
            Line::Input(member) => member == 0 || member > n,
            Line::Sum(a, b) | Line::Times(a, b) | Line::Product(a, b) => a >= field::P
                || b >= field::P,
            Line::Open(a) => a >= field::P,
        }
    }

    // It names a value that is not among the first `made`.
    pub(crate) fn is_undefined(self, made: u32) -> bool
        ensures { result ≡ undefined_at made self }
    {
        match self {
            Line::Input(_) => false,
            Line::Sum(a, b) | Line::Product(a, b) => a >= made || b >= made,
            Line::Times(_, a) | Line::Open(a) => a >= made,
        }
    }

    pub(crate) fn is_input(self) -> bool
        ensures { result ≡ is_input_line self }
    {
        matches!(self, Line::Input(_))
    }

    // How many values there are after it, if there were `made` before.
    pub(crate) fn values_after(self, made: u32) -> u32
        requires { made < 65536 }
        ensures { result ≡ made_by self made }
    {
        match self {
            Line::Open(_) => made,
            Line::Input(_) | Line::Sum(_, _) | Line::Times(_, _) | Line::Product(_, _) => made + 1,
        }
    }

    // A member gives its next figure for it.
    pub(crate) fn is_given_by(self, member: u32) -> bool
        ensures { result ≡ gives self member }
    {
        matches!(self, Line::Input(giver) if giver == member)
    }

    // How many coins a member draws for it, in a circle of n where a dealer draws t.
    pub fn coins_of(self, n: usize, t: usize, member: u32) -> usize
        ensures { result ≡ (if deals_in n self member then t else 0) }
    {
        let deals = match self {
            Line::Input(giver) => giver == member,
            Line::Product(_, _) => 0 < member && member as usize <= n,
            Line::Sum(_, _) | Line::Times(_, _) | Line::Open(_) => false,
        };
        if deals { t } else { 0 }
    }
}
