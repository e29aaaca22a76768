// What holds of the files: each function's contract is a law.
ghost use Rattle.files.specs.Laws.{CoinWords, PassedOver, FigureAnswers, Undo};

// Each coin comes from exactly two words.
pub fn coin_words_law()
    ensures { CoinWords }
{}

// A word that is passed over may as well not be there.
pub fn passed_over_law()
    ensures { PassedOver }
{}

// When a figure file is refused, and with which number.
pub fn figure_answers_law()
    ensures { FigureAnswers }
{}

// Writing and reading undo each other.
pub fn undo_law()
    ensures { Undo }
{}
