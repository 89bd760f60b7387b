//! The slope low of a cell.

ghost use Rattle.std.specs.Prelude.{ℕ, ◌≡◌, ◌≤◌, ◌^◌, List, ℤ, IfSome, IsFalse, unsigned_abs};
ghost use Rattle.case_types.specs.declared.cases.Case.{Case};
ghost use Rattle.case_types.specs.Arithmetic.Numbers.{numbers_of, enclosures_of};
ghost use Rattle.case_types.specs.Arithmetic.Bounds.{potential};
ghost use Rattle.case_types.specs.Energy.Divisions.{State, IsState, energy_of};
ghost use Rattle.case_types.specs.Energy.Instances.{Instance, IsInstance};
ghost use Rattle.case_types.specs.Energy.Weighing.{IsAbovePlane};
ghost use Rattle.case_types.specs.Grid.Cells.{Region, region_of, misses, IsWithin};
ghost use Rattle.slope_form.specs.Forms.{form_of, form_if};
ghost use Rattle.tangent_bound.specs.SlopeLows.{slope_low, lift_form as lift_form_of, half_root_form as half_root_form_of, cell_form as cell_form_of};
ghost use Rattle.tangent_bound.specs.SlopeParts.{IsMixSlope, IsPackingSlope, mix_forms_of, packing_forms_of};

use crate::forms::{minus, over, plus, times};
use crate::slope_parts::{mix_slope, packing_slope};
use case_types::{Cell, MixSlope, PackingSlope, Plane};
use log_enclose::Logarithms;
use log_laws::{Iv, Slope};
use pr_params::Params;
use slope_form::{constant, low};

/// 1 over twice the root of 2 in 2^-40, at least and at most.
const HALF_ROOT: Iv = Iv {
    lo: 388_736_063_996,
    hi: 388_736_063_997,
};

/// Over the cell the energy lies above the plane by at least this, in 2^-40 bit, where slopes give such a number.
pub fn low_slope(params: &Params, plane: &Plane, cell: &Cell) -> Option<i128>
    requires { IsFalse (misses params.now.case.n (region_of cell.now)) }
    ensures value { result ≡ slope_low (numbers_of params.now.case) plane.now.lam (region_of cell.now) }
    ensures above { (roots : Instance) (f : State) →
        IsInstance params.now.case (enclosures_of params.now.case) roots →
        IsWithin params.now.case.n (region_of cell.now) f →
        IsState params.now.case.n f →
        IfSome result (λ low. IsAbovePlane params.now.case.n (energy_of params.now.case roots) (potential plane.now.lam) low f) }
    ensures small { IfSome result (λ z. unsigned_abs z ≤ 2 ^ 107) }
{
    let logs = Logarithms::Anew;
    let packing = packing_slope(logs, cell.ylo, cell.yhi)?;
    let mix = mix_slope(params, logs, plane, cell)?;
    slope_of_parts(params, &mix, &packing)
}

/// Over the cell the energy lies above the plane by at least this, in 2^-40 bit, from the parts of its compositions and its
/// packing fractions.
pub fn slope_of_parts(params: &Params, mix: &MixSlope, packing: &PackingSlope) -> Option<i128>
    ensures value { (lam : List ℤ) (r : Region) →
        IsMixSlope (numbers_of params.now.case) lam r mix.now →
        IsPackingSlope (numbers_of params.now.case) r.ylo r.yhi packing.now →
        result ≡ slope_low (numbers_of params.now.case) lam r }
    ensures small { IfSome result (λ z. unsigned_abs z ≤ 2 ^ 107) }
{
    let [first, second, third] = mix.steps;
    let form = cell_form(params, mix, packing)?;
    Some(low(form, [first, second, third, packing.step]))
}

/// The energy less the plane.
fn cell_form(params: &Params, mix: &MixSlope, packing: &PackingSlope) -> Option<Slope>
    ensures { form_if result ≡ cell_form_of (numbers_of params.now.case) (mix_forms_of mix.now) (packing_forms_of packing.now) }
{
    let mixed = plus(Some(mix.mixing), Some(packing.log_packing));
    let lifted = minus(mixed, Some(mix.log_covolume));
    let ideal = minus(
        plus(lifted, Some(lift_form(params))),
        Some(packing.log_rest),
    );
    let pull = times(
        times(Some(mix.ratio), Some(packing.lambda)),
        Some(half_root_form()),
    );
    let push = over(Some(mix.push), Some(packing.packing));
    minus(plus(minus(ideal, pull), push), Some(mix.plane))
}

/// How many bits the co-volumes are raised by, in 2^-40.
fn lift_form(params: &Params) -> Slope
    ensures { form_of result ≡ lift_form_of (numbers_of params.now.case) }
{
    let lift = (params.raised_by() as i128) << 40;
    constant(Iv { lo: lift, hi: lift })
}

/// 1 over twice the root of 2.
fn half_root_form() -> Slope
    ensures { (c : Case) → form_of result ≡ half_root_form_of (numbers_of c) }
{
    constant(HALF_ROOT)
}
