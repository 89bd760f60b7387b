//! Slope forms that may not be there.

ghost use Rattle.std.specs.Prelude.{◌≡◌};
ghost use Rattle.log_laws.specs.Interval.{ends_of};
ghost use Rattle.log_laws.specs.LogE.{log_e_ends};
ghost use Rattle.slope_form.specs.Forms.{form_if};
ghost use Rattle.tangent_bound.specs.SlopeLows.{plus as plus_of, minus as minus_of, times as times_of, over as over_of, log_of_form};

use log_enclose::Logarithms;
use log_laws::{Iv, Slope};
use slope_form::{add, div, log2, mul, sub};

/// The sum of two forms, where both are there.
pub fn plus(f: Option<Slope>, g: Option<Slope>) -> Option<Slope>
    ensures { form_if result ≡ plus_of (form_if f) (form_if g) }
{
    add(f?, g?)
}

/// The difference of two forms, where both are there.
pub fn minus(f: Option<Slope>, g: Option<Slope>) -> Option<Slope>
    ensures { form_if result ≡ minus_of (form_if f) (form_if g) }
{
    sub(f?, g?)
}

/// The product of two forms, where both are there.
pub fn times(f: Option<Slope>, g: Option<Slope>) -> Option<Slope>
    ensures { form_if result ≡ times_of (form_if f) (form_if g) }
{
    mul(f?, g?)
}

/// The quotient of two forms, where both are there.
pub fn over(f: Option<Slope>, g: Option<Slope>) -> Option<Slope>
    ensures { form_if result ≡ over_of (form_if f) (form_if g) }
{
    div(f?, g?)
}

/// The logarithm of a form, where it is there.
pub fn log_by(logs: Logarithms<'_>, e: Iv, f: Option<Slope>) -> Option<Slope>
    requires { ends_of e ≡ log_e_ends }
    ensures { form_if result ≡ log_of_form (ends_of e) (form_if f) }
{
    log2(logs, f?, e)
}
