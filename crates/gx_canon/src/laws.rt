//! Laws over the definitions, each the contract of a function that does nothing.
ghost use Rattle.gx_canon.specs.Laws.{LinesBack, DeclarationsBack, TextBack, RotationsBack, WordsAreWords, Kept};

/// The lines of a printed text are those that were printed.
pub fn lines_back()
    ensures { LinesBack }
{}

/// Each line of a canonical text is without a fault, and declares what it was printed for.
pub fn declarations_back()
    ensures { DeclarationsBack }
{}

/// The lines of a canonical text are those of its declarations.
pub fn text_back()
    ensures { TextBack }
{}

/// The rotation of each placement is declared by its name, and no other is.
pub fn rotations_back()
    ensures { RotationsBack }
{}

/// The words of a line without a fault are words.
pub fn words_are_words()
    ensures { WordsAreWords }
{}

/// What a line declares is in its range and printable.
pub fn kept()
    ensures { Kept }
{}
