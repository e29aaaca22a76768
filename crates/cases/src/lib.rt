// Worked examples: one table of what the definitions give, and the law that every row of it is right.
#![tactic(auto)]

ghost use Rattle.cases.specs.Cases.{Cases};

// Carries the table: in every row the two lists are equal.
pub fn cases_law()
    ensures { Cases }
{}
