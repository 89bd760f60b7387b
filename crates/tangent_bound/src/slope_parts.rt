//! The parts of slope lows: what depends on the compositions of a cell, and what on its packing fractions.

ghost use Rattle.std.specs.Prelude.{ℕ, ◌≡◌, ◌≤◌, ◌<◌, ◌+◌, ◌/◌, ◌*◌, ◌^◌, List, ℤ, pos, ◌-ℤ◌, Some, None, IfSome, IfNone, IsFalse, map, slice_index};
ghost use Rattle.log_laws.specs.Interval.{ends, ends_of};
ghost use Rattle.case_types.specs.declared.cases.Case.{Case};
ghost use Rattle.case_types.specs.Arithmetic.Numbers.{numbers_of};
ghost use Rattle.case_types.specs.Grid.Cells.{Region, region_of, misses, middle_of};
ghost use Rattle.slope_form.specs.Forms.{form_of, form_if};
ghost use Rattle.tangent_bound.specs.SlopeLows.{slope_low, lambda_form, packing_form as packing_form_of};
ghost use Rattle.tangent_bound.specs.SlopeParts.{IsMixSlope, IsPackingSlope, has_each as has_each_of, LacksMix, LacksPacking, mix_forms_of, packing_forms_of};

use crate::cell_fractions::fractions_of;
use crate::forms::{log_by, minus, over, plus, times};
use crate::fractions::Fractions;
use crate::mix_forms::NOTHING;
use crate::slope_attractions::attraction_form;
use crate::slope_means::{covolume_form, mixing_form};
use crate::slope_planes::plane_form;
use case_types::{Cell, MixSlope, PackingSlope, Plane};
use log_enclose::{Logarithms, log2e};
use log_laws::{Iv, Slope};
use pr_params::Params;
use slope_form::constant;

/// 1 in 2^-40.
const UNIT: Iv = Iv {
    lo: 1 << 40,
    hi: 1 << 40,
};

/// The root of 2 in 2^-40, at least and at most.
const ROOT_TWO: Iv = Iv {
    lo: 1_554_944_255_987,
    hi: 1_554_944_255_988,
};

/// What slope lows over a cell have of its compositions and of the plane, where they have it.
pub fn mix_slope(
    params: &Params,
    logs: Logarithms<'_>,
    plane: &Plane,
    cell: &Cell,
) -> Option<MixSlope>
    requires { IsFalse (misses params.now.case.n (region_of cell.now)) }
    ensures some { IfSome result (λ m. (r : Region) → r.lo ≡ cell.now.lo → r.hi ≡ cell.now.hi → IsMixSlope (numbers_of params.now.case) plane.now.lam r m) }
    ensures none { IfNone result ((r : Region) → r.lo ≡ cell.now.lo → r.hi ≡ cell.now.hi → slope_low (numbers_of params.now.case) plane.now.lam r ≡ None) }
{
    let x = fractions_of(params.case.n, cell);
    if !has_each(params.case.n, &x) {
        return None;
    }
    let mixing = mixing_form(params, logs, &x)?;
    let lifted = covolume_form(params, &x, 16);
    let plain = covolume_form(params, &x, 16 + params.raised_by());
    mix_of(
        mixing,
        log_by(logs, log2e(), lifted),
        over(attraction_form(params, &x), lifted),
        times(Some(constant(log2e())), plain),
        plane_form(params, plane, &x),
        [step(cell, 0), step(cell, 1), step(cell, 2)],
    )
}

/// Whether the middle has something of each of `n` components. Else their mixing terms have no form.
fn has_each(n: u8, x: &Fractions) -> bool
    requires { n ≤ 4 }
    ensures { result ≡ has_each_of n x.now.middle }
{
    for i in 0..n {
        if x.middle_of(i) == 0 {
            return false;
        }
    }
    true
}

/// The part, where all its forms are there.
fn mix_of(
    mixing: Slope,
    log_covolume: Option<Slope>,
    ratio: Option<Slope>,
    push: Option<Slope>,
    plane: Option<Slope>,
    steps: [Iv; 3],
) -> Option<MixSlope>
    ensures some { IfSome result (λ m. mix_forms_of m ≡ record { mixing = Some (form_of mixing); log_covolume = form_if log_covolume; ratio = form_if ratio; push = form_if push; plane = form_if plane }) }
    ensures steps { IfSome result (λ m. m.steps ≡ steps) }
    ensures none { IfNone result (LacksMix (record { mixing = Some (form_of mixing); log_covolume = form_if log_covolume; ratio = form_if ratio; push = form_if push; plane = form_if plane })) }
{
    Some(MixSlope {
        mixing,
        log_covolume: log_covolume?,
        ratio: ratio?,
        push: push?,
        plane: plane?,
        steps,
    })
}

/// From the middle of a free fraction to both ends, in 2^-40.
fn step(cell: &Cell, edge: u8) -> Iv
    requires { edge < 3 }
    ensures { ends_of result ≡ ends
        (pos (slice_index cell.now.lo edge * 2 ^ 20) -ℤ pos (middle_of (region_of cell.now) edge * 2 ^ 20))
        (pos (slice_index cell.now.hi edge * 2 ^ 20) -ℤ pos (middle_of (region_of cell.now) edge * 2 ^ 20)) }
{
    let lo = cell.lo[edge as usize] as u64;
    let hi = cell.hi[edge as usize] as u64;
    around(lo << 20, ((lo + hi) / 2) << 20, hi << 20)
}

/// From a middle to both ends.
fn around(lo: u64, middle: u64, hi: u64) -> Iv
    requires low { lo ≤ middle }
    requires high { middle ≤ hi }
    requires inside { hi ≤ 2 ^ 40 }
    ensures { ends_of result ≡ ends (pos lo -ℤ pos middle) (pos hi -ℤ pos middle) }
{
    Iv {
        lo: lo as i128 - middle as i128,
        hi: hi as i128 - middle as i128,
    }
}

/// What slope lows have of the packing fractions from one to another, where they have it.
pub fn packing_slope(logs: Logarithms<'_>, from: u64, to: u64) -> Option<PackingSlope>
    requires room { from < to }
    requires inside { to ≤ 2 ^ 40 }
    ensures some { IfSome result (λ s. (c : Case) → IsPackingSlope (numbers_of c) from to s) }
    ensures none { IfNone result ((c : Case) (lam : List ℤ) (r : Region) → r.ylo ≡ from → r.yhi ≡ to → slope_low (numbers_of c) lam r ≡ None) }
{
    let y = packing_form(from, to);
    let log_packing = log_by(logs, log2e(), Some(y))?;
    let log_rest = log_by(logs, log2e(), minus(Some(constant(UNIT)), Some(y)))?;
    packing_of(
        y,
        log_packing,
        log_rest,
        lambda(logs, y),
        around(from, (from + to) / 2, to),
    )
}

/// The part, where all its forms are there.
fn packing_of(
    packing: Slope,
    log_packing: Slope,
    log_rest: Slope,
    lambda: Option<Slope>,
    step: Iv,
) -> Option<PackingSlope>
    ensures some { IfSome result (λ s. packing_forms_of s ≡ record { packing = form_of packing; log_packing = Some (form_of log_packing); log_rest = Some (form_of log_rest); lambda = form_if lambda }) }
    ensures step { IfSome result (λ s. s.step ≡ step) }
    ensures none { IfNone result (form_if lambda ≡ None) }
{
    Some(PackingSlope {
        packing,
        log_packing,
        log_rest,
        lambda: lambda?,
        step,
    })
}

/// The packing fraction, from one to another.
fn packing_form(from: u64, to: u64) -> Slope
    requires room { from < to }
    requires inside { to ≤ 2 ^ 40 }
    ensures { form_of result ≡ packing_form_of from to }
{
    let middle = (from + to) / 2;
    Slope {
        at: range(middle, middle),
        over: range(from, to),
        by: [NOTHING, NOTHING, NOTHING, UNIT],
    }
}

/// The packing fractions from one to another.
fn range(from: u64, to: u64) -> Iv
    requires ordered { from ≤ to }
    requires inside { to ≤ 2 ^ 40 }
    ensures { ends_of result ≡ ends (pos from) (pos to) }
{
    Iv {
        lo: from as i128,
        hi: to as i128,
    }
}

/// The logarithm of `1 + (1 + s) y` over `1 - (s - 1) y`, for the root s of 2.
fn lambda(logs: Logarithms<'_>, y: Slope) -> Option<Slope>
    ensures { (c : Case) → form_if result ≡ lambda_form (numbers_of c) (Some (form_of y)) }
{
    let y = Some(y);
    let one = Some(constant(UNIT));
    let root = Some(constant(ROOT_TWO));
    let above = plus(one, times(plus(one, root), y));
    let below = minus(one, times(minus(root, one), y));
    minus(log_by(logs, log2e(), above), log_by(logs, log2e(), below))
}
