// The theorems of sharing: each function's contract is one.
ghost use Rattle.shares.specs.Laws.{Recombine, Shared, Linearity};

// The weights give back the constant.
pub fn recombine_law()
    ensures { Recombine }
{}

// A dealing joins to what was dealt.
pub fn shared_law()
    ensures { Shared }
{}

// Sums and multiples of shares are shares of sums and multiples.
pub fn linearity_law()
    ensures { Linearity }
{}
