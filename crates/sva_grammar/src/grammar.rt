//! The laws of the grammar.

ghost use Rattle.sva_grammar.specs.Laws.{LinesAreCounted, LinesAreNamed, NumbersAreDecimal, ScriptsAreRead, VectorsAreHexadecimal};

/// What holds of the grammar: a word is a number exactly where it is that number's decimal text, and a vector exactly
/// where it is its eight hexadecimal digits; lines are counted by their ends; each scenario is read from its text; and a
/// line that is read as a step begins with that step's name.
pub fn laws()
    ensures numbers { NumbersAreDecimal }
    ensures vectors { VectorsAreHexadecimal }
    ensures lines { LinesAreCounted }
    ensures scripts { ScriptsAreRead }
    ensures named { LinesAreNamed }
{}
