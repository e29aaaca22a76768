// What holds of the answers, each a theorem that a function's contract carries.
ghost use Rattle.pairing.specs.Laws.{Judged, Neither};

// Each answer is given if and only if its case holds and none before it.
pub fn judged_law()
    ensures { Judged }
{}

// Nothing is missing in either run if and only if nothing is in both.
pub fn neither_law()
    ensures { Neither }
{}
