//! Single logarithms: by whole powers, by their arguments and factors, and by the logarithm of e.

ghost use Rattle.log_laws.specs.Logarithms.{AtLeastPowers, AtMostPowers, AtLeastPowersOver, AtMostPowersOver, AtLeastTakesLarger, AtLeastMultiplies, AtLeastMerges, LogOfOneAnd};

/// A multiple of one logarithm is at least a whole number by whole powers.
pub fn at_least_powers()
    ensures { AtLeastPowers }
{}

/// A multiple of one logarithm is at most a whole number by whole powers.
pub fn at_most_powers()
    ensures { AtMostPowers }
{}

/// A multiple of one logarithm is at least a fraction by whole powers.
pub fn at_least_powers_over()
    ensures { AtLeastPowersOver }
{}

/// A multiple of one logarithm is at most a fraction by whole powers.
pub fn at_most_powers_over()
    ensures { AtMostPowersOver }
{}

/// A lower bound stays one where an argument under a factor that is not negative becomes larger.
pub fn at_least_takes_larger()
    ensures { AtLeastTakesLarger }
{}

/// The logarithm of a product is the sum of the logarithms.
pub fn at_least_multiplies()
    ensures { AtLeastMultiplies }
{}

/// Two factors of one logarithm merge into their sum, and split again.
pub fn at_least_merges()
    ensures { AtLeastMerges }
{}

/// The logarithm of `1 + d` is at most `d` times that of e, for every fraction d above -1.
///
/// A pair holds the logarithm of e where it bounds those of `(1 + 1/M)^M` and `(1 + 1/M)^(M+1)`; for a negative d its
/// lower end serves, else its upper end.
pub fn log_of_one_and()
    ensures { LogOfOneAnd }
{}
