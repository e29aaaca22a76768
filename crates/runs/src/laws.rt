// The theorems of a sheet done on shares: each function's contract is one.
ghost use Rattle.runs.specs.Laws.{Right, Alike, Fewer, Enough};

// What is opened is what the sheet says, for all coins.
pub fn right_law()
    ensures { Right }
{}

// The coins of two runs that open the same pair off so that the watched see the same.
pub fn alike_law()
    ensures { Alike }
{}

// Fewer watched see no more.
pub fn fewer_law()
    ensures { Fewer }
{}

// Nothing runs out if and only if each member has what its lines take.
pub fn enough_law()
    ensures { Enough }
{}
