//! Laws of the line of letters.

ghost use Rattle.cert_letters.specs.Bounds.{LinesBound};
ghost use Rattle.cert_letters.specs.Lines.{LettersWriteOne, LinesAreTrees, TreesAreLines};
ghost use Rattle.cert_letters.specs.Readings.{LettersCount};
ghost use Rattle.cert_letters.specs.Searched.{SearchesWriteTrees};

/// A line of letters that is read whole writes a tree of as many letters as stated, whose halvings can be and whose leaves pass.
pub fn lines_are_trees()
    ensures { LinesAreTrees }
{}

/// The letters of every such tree are read whole.
pub fn trees_are_lines()
    ensures { TreesAreLines }
{}

/// Letters write one tree of a cell alone, wherever they end.
pub fn letters_write_one()
    ensures { LettersWriteOne }
{}

/// Each letter that isn't refused is one of the stated number, so no more than that are taken.
pub fn letters_count()
    ensures { LettersCount }
{}

/// Where each leaf misses, or doesn't and has a low by its letter of at least the stated one, that low holds over the whole
/// domain, on any surface.
pub fn lines_bound()
    ensures { LinesBound }
{}

/// The letters of a search that ends with a low are those of a tree of the whole domain whose halvings can be and whose leaves have
/// lows of at least that one, on any surface.
pub fn searches_write_trees()
    ensures { SearchesWriteTrees }
{}
