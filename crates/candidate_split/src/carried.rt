//! Splits that carry a given phase.

ghost use Rattle.std.specs.Prelude.{◌≤◌, ◌<◌, ◌^◌, IsTrue};
ghost use Rattle.candidate_split.specs.Candidates.{IsCarried};
ghost use Rattle.candidate_split.specs.TwoPhases.{IsComposition, fits_feed};

use crate::settling::settled;
use crate::shares::share_within;
use crate::two_phases::{WHOLE, liquid_of, shared};
use case_types::{SLOTS, Split};
use pr_params::Params;

/// Half the densest packing, in 2^-40.
const HALF: u64 = 1 << 39;

/// The split in which a phase of this composition, in 2^-20, and packing fraction, in 2^-40, has as much of the feed as it can, at
/// most the share `most`, in 2^-20. The rest settles.
pub fn carried(params: &Params, most: u32, comp: &[u32; SLOTS], packing: u64) -> Split
    requires some { 1 ≤ most }
    requires most { most ≤ 2 ^ 20 }
    requires composition { IsComposition params.now.case.n comp.now }
    requires packed { 1 ≤ packing }
    requires not_full { packing < 2 ^ 40 }
    ensures { IsCarried params.now.case most comp.now packing result }
{
    let share = share_within(&params.case, most, comp);
    let rest = rest_packing(params, share, comp);
    shared(&params.case, share, comp, packing, rest)
}

/// The packing fraction at which the rest of the feed settles beside a phase that has a share of it.
fn rest_packing(params: &Params, share: u32, comp: &[u32; SLOTS]) -> u64
    requires share { share ≤ 2 ^ 20 }
    requires composition { IsComposition params.now.case.n comp.now }
    requires fits { IsTrue (fits_feed params.now.case share comp.now) }
    ensures some { 1 ≤ result }
    ensures inside { result < 2 ^ 40 }
{
    if share == WHOLE {
        return HALF;
    }
    settled(params, liquid_of(&params.case, share, comp, HALF).parts).packing
}
