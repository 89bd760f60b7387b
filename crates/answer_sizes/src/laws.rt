//! How large the numbers of an answer are.

ghost use Rattle.answer_sizes.specs.Sizes.{AnswersAreSmall};

/// The upper energy, the low and the gap of a lawful answer are of size below 2^80, for an accepted case, at most four phases and
/// a budget of at most 10,000,000 units.
pub fn answers_are_small()
    ensures { AnswersAreSmall }
{}
