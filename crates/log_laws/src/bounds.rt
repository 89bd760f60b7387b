//! Lower and upper bounds of log sums.

ghost use Rattle.log_laws.specs.Laws.{AnyDenominator, AtLeastAdds, AtLeastScales, AtLeastLowers, AtMostIsOpposite, AtLeastWeighs, AtLeastSums};

/// Any common denominator gives the answer of the least.
pub fn any_denominator()
    ensures { AnyDenominator }
{}

/// Lower bounds add.
pub fn at_least_adds()
    ensures { AtLeastAdds }
{}

/// A lower bound scales by a fraction that is not negative.
pub fn at_least_scales()
    ensures { AtLeastScales }
{}

/// An upper bound is a lower bound of the opposite.
pub fn at_most_is_opposite()
    ensures { AtMostIsOpposite }
{}

/// A lower bound may be lowered.
pub fn at_least_lowers()
    ensures { AtLeastLowers }
{}

/// A weighted sum is at least the weighted sum of the lower bounds.
pub fn at_least_weighs()
    ensures { AtLeastWeighs }
{}

/// A sum over an index is at least the sum of the lower bounds.
pub fn at_least_sums()
    ensures { AtLeastSums }
{}
