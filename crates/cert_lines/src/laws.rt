//! What holds of all heads.

ghost use Rattle.cert_lines.specs.Laws.{FeedFits, HeadsAreRead, HeadsAreTexts, LinesAreShort, LinesFit, LinesSuit, NumbersFit, WholeHeadsHaveAll};
ghost use Rattle.cert_lines.specs.Places.{PlacesStand};
ghost use Rattle.cert_lines.specs.Indices.{LinesAreFound, PlacesAreFound};

/// Lines are those of a head exactly where they are the texts of what they say, and they say one thing alone.
pub fn heads_are_texts()
    ensures { HeadsAreTexts }
{}

/// Each line of what was read stands at its place of the final shape, and fits it.
pub fn lines_fit()
    ensures { LinesFit }
{}

/// Each number of what was read lies in the range of its place.
pub fn numbers_fit()
    ensures { NumbersFit }
{}

/// A head is read at the front of a text exactly where its lines stand there.
pub fn heads_are_read()
    ensures { HeadsAreRead }
{}

/// The line at an index is that of the list of all lines.
pub fn places_stand()
    ensures { PlacesStand }
{}

/// A line of a head has at most 400 bytes and no newline, and a head at most 37 lines.
pub fn lines_are_short()
    ensures { LinesAreShort }
{}

/// The line at an index is one that the head's numbers call for, and has that index.
pub fn places_are_found()
    ensures { PlacesAreFound }
{}

/// Each line that the head's numbers call for stands at its index.
pub fn lines_are_found()
    ensures { LinesAreFound }
{}

/// Each line that was read suited the lines before it, and what it says of the head's numbers stays.
pub fn lines_suit()
    ensures { LinesSuit }
{}

/// The parts of the feed are at most 2^20 together.
pub fn feed_fits()
    ensures { FeedFits }
{}

/// A whole head has each of its lines.
pub fn whole_heads_have_all()
    ensures { WholeHeadsHaveAll }
{}
