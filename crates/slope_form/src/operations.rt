//! Sums, products, quotients and logarithms of slope forms.

ghost use Rattle.std.specs.Prelude.{◌≡◌, Some, IfSome};
ghost use Rattle.log_laws.specs.LogE.{log_e_ends};
ghost use Rattle.slope_form.specs.Laws.{KeepsConstant, KeepsSum, KeepsSlopedSum, KeepsDifference, KeepsSlopedDifference, KeepsProduct, KeepsFractionProduct, KeepsQuotient, KeepsLog};
ghost use Rattle.log_laws.specs.Interval.{ends_of};
ghost use Rattle.slope_form.specs.Forms.{quotient_slope as the_quotient_slope, form_of, form_if, all_if, four_of, form_from, constant_form, sum_form, difference_form, product_form, quotient_form, log_form};
ghost use Rattle.slope_form.specs.Arithmetic.{ends_if, both, sum_of_ends, product_of_ends};

use crate::arithmetic::{difference, logarithm, product, quotient, sum};
use log_enclose::Logarithms;
use log_laws::{Iv, Slope};

/// The form of a number that doesn't change over the cell and lies in `c`, in 2^-40.
pub fn constant(c: Iv) -> Slope
    ensures value { form_of result ≡ constant_form (ends_of c) }
    ensures holds { KeepsConstant (ends_of c) (form_of result) }
{
    let none = Iv { lo: 0, hi: 0 };
    Slope {
        at: c,
        over: c,
        by: [none, none, none, none],
    }
}

/// Four slopes, where all are there.
fn four(
    first: Option<Iv>,
    second: Option<Iv>,
    third: Option<Iv>,
    packing: Option<Iv>,
) -> Option<[Iv; 4]>
    ensures { all_if result ≡ four_of (ends_if first) (ends_if second) (ends_if third) (ends_if packing) }
{
    Some([first?, second?, third?, packing?])
}

/// One entry of a product: the slope `f` over the range `over`, and the value `at` times the slope `g`.
fn product_slope(f: Iv, over: Iv, at: Iv, g: Iv) -> Option<Iv>
    ensures { ends_if result ≡ both sum_of_ends (product_of_ends (ends_of f) (ends_of over)) (product_of_ends (ends_of at) (ends_of g)) }
{
    sum(product(f, over)?, product(at, g)?)
}

/// One entry of a quotient: the slope `f`, less the quotient's value `at` times the slope `g`, over the range `over`.
fn quotient_slope(at: Option<Iv>, f: Iv, g: Iv, over: Iv) -> Option<Iv>
    ensures { ends_if result ≡ the_quotient_slope (ends_if at) (ends_of f) (ends_of g) (ends_of over) }
{
    quotient(difference(f, product(at?, g)?)?, over)
}

/// One entry of a logarithm: the slope `f` times that of the logarithm.
fn log_slope(f: Iv, slope: Option<Iv>) -> Option<Iv>
    ensures { ends_if result ≡ both product_of_ends (Some (ends_of f)) (ends_if slope) }
{
    product(f, slope?)
}

/// The form, where all its parts are there.
fn form(at: Option<Iv>, over: Option<Iv>, by: Option<[Iv; 4]>) -> Option<Slope>
    ensures { form_if result ≡ form_from (ends_if at) (ends_if over) (all_if by) }
{
    Some(Slope {
        at: at?,
        over: over?,
        by: by?,
    })
}

/// The form of a sum, part by part; `None` where one of its ends has size 2^61 or more. It has the value at the centre and the
/// slopes right also where the ranges of `f` and `g` say nothing.
pub fn add(f: Slope, g: Slope) -> Option<Slope>
    ensures value { form_if result ≡ sum_form (form_of f) (form_of g) }
    ensures holds { IfSome result (λ h. KeepsSum (form_of f) (form_of g) (form_of h)) }
    ensures sloped { IfSome result (λ h. KeepsSlopedSum (form_of f) (form_of g) (form_of h)) }
{
    let [f0, f1, f2, f3] = f.by;
    let [g0, g1, g2, g3] = g.by;
    form(
        sum(f.at, g.at),
        sum(f.over, g.over),
        four(sum(f0, g0), sum(f1, g1), sum(f2, g2), sum(f3, g3)),
    )
}

/// The form of a difference, part by part; `None` where one of its ends has size 2^61 or more. It has the value at the centre and
/// the slopes right also where the ranges of `f` and `g` say nothing.
pub fn sub(f: Slope, g: Slope) -> Option<Slope>
    ensures value { form_if result ≡ difference_form (form_of f) (form_of g) }
    ensures holds { IfSome result (λ h. KeepsDifference (form_of f) (form_of g) (form_of h)) }
    ensures sloped { IfSome result (λ h. KeepsSlopedDifference (form_of f) (form_of g) (form_of h)) }
{
    let [f0, f1, f2, f3] = f.by;
    let [g0, g1, g2, g3] = g.by;
    form(
        difference(f.at, g.at),
        difference(f.over, g.over),
        four(
            difference(f0, g0),
            difference(f1, g1),
            difference(f2, g2),
            difference(f3, g3),
        ),
    )
}

/// The form of a product, of which one factor is a fraction everywhere; its slope is that of `f` over the range of `g`, and that
/// of `g` times the value of `f` at the centre. `None` where an end of these products and sums has size 2^61 or more.
pub fn mul(f: Slope, g: Slope) -> Option<Slope>
    ensures value { form_if result ≡ product_form (form_of f) (form_of g) }
    ensures holds { IfSome result (λ h. KeepsProduct (form_of f) (form_of g) (form_of h)) }
    ensures fraction_holds { IfSome result (λ h. KeepsFractionProduct (form_of f) (form_of g) (form_of h)) }
{
    let [f0, f1, f2, f3] = f.by;
    let [g0, g1, g2, g3] = g.by;
    form(
        product(f.at, g.at),
        product(f.over, g.over),
        four(
            product_slope(f0, g.over, f.at, g0),
            product_slope(f1, g.over, f.at, g1),
            product_slope(f2, g.over, f.at, g2),
            product_slope(f3, g.over, f.at, g3),
        ),
    )
}

/// The form of a quotient by a fraction; its slope is that of `f` less the quotient's value at the centre times that of `g`, over
/// the range of `g`. `None` where an end of these results has size 2^61 or more, or where `g` begins below 1, at the centre or
/// over the cell.
pub fn div(f: Slope, g: Slope) -> Option<Slope>
    ensures value { form_if result ≡ quotient_form (form_of f) (form_of g) }
    ensures holds { IfSome result (λ h. KeepsQuotient (form_of f) (form_of g) (form_of h)) }
{
    let [f0, f1, f2, f3] = f.by;
    let [g0, g1, g2, g3] = g.by;
    let at = quotient(f.at, g.at);
    form(
        at,
        quotient(f.over, g.over),
        four(
            quotient_slope(at, f0, g0, g.over),
            quotient_slope(at, f1, g1, g.over),
            quotient_slope(at, f2, g2, g.over),
            quotient_slope(at, f3, g3, g.over),
        ),
    )
}

/// The form of the logarithm to the base 2 of a fraction; its slope is that of `f` times the logarithm `e` of Euler's number over
/// the range of `f`. `None` where `f` begins below 1, at the centre or over the cell, or where an end of a slope has size 2^61
/// or more.
pub fn log2(logs: Logarithms<'_>, f: Slope, e: Iv) -> Option<Slope>
    requires { ends_of e ≡ log_e_ends }
    ensures value { form_if result ≡ log_form (form_of f) (ends_of e) }
    ensures holds { IfSome result (λ h. KeepsLog (form_of f) (form_of h)) }
{
    let [f0, f1, f2, f3] = f.by;
    let slope = quotient(e, f.over);
    form(
        logarithm(logs, f.at),
        logarithm(logs, f.over),
        four(
            log_slope(f0, slope),
            log_slope(f1, slope),
            log_slope(f2, slope),
            log_slope(f3, slope),
        ),
    )
}
