// The theorems of sheets' bytes: each function's contract is one.
ghost use Rattle.sheets.specs.Laws.{Judgement, Rewritten, Reread};

// A sheet's bytes are refused for their lowest fault, and only for a fault.
pub fn judgement_law()
    ensures { Judgement }
{}

// What was read is written as it was.
pub fn rewritten_law()
    ensures { Rewritten }
{}

// What was written is read as it was.
pub fn reread_law()
    ensures { Reread }
{}
