//! At which packing fraction a grid composition settles.

ghost use Rattle.std.specs.Prelude.{ℕ, ◌≡◌, ◌≤◌, ◌<◌, ◌^◌, slice_index};
ghost use Rattle.candidate_split.specs.TwoPhases.{IsComposition};

use crate::settling::settled;
use case_types::SLOTS;
use pr_params::Params;

/// The packing fraction, in 2^-40, at which a phase of this composition, in 2^-20, settles.
pub fn packing_at(params: &Params, comp: &[u32; SLOTS]) -> u64
    requires { IsComposition params.now.case.n comp.now }
    ensures some { 1 ≤ result }
    ensures inside { result < 2 ^ 40 }
{
    settled(params, in_parts(comp)).packing
}

/// The fractions as parts.
fn in_parts(comp: &[u32; SLOTS]) -> [u128; SLOTS]
    ensures { (i : ℕ) → i < 4 → slice_index result i ≡ slice_index comp.now i }
{
    [
        comp[0] as u128,
        comp[1] as u128,
        comp[2] as u128,
        comp[3] as u128,
    ]
}
