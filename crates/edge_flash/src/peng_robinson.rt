//! Phase boundaries by Peng and Robinson's equation.

ghost use Rattle.std.specs.Prelude.{◌≤◌, IfOk};
ghost use Rattle.case_types.specs.Arithmetic.Numbers.{numbers_of};
ghost use Rattle.fibre_bound.specs.Laws.{GrainIsInside};
ghost use Rattle.pr_surface.specs.PengRobinson.{surface_of};
ghost use Rattle.edge_flash.specs.Ends.{SaysAt, SayKinds};
ghost use Rattle.edge_flash.specs.PengRobinson.{IsPrWalk};
ghost use Rattle.edge_flash.specs.Places.{boundary, Bisected, EnclosesIfBracket};

use crate::fibres::{OnePhase, Walked};
use crate::flash_places::edge_by;
use case_types::{Case, EdgeAnswer, Memory, ParamFault, Units};
use case_words::EdgeWords;
use cubic_roots::packings;
use energy_surface::Flash;
use fibre_bound::{feed_box, one_phase};
use log_enclose::{LogStore, Logarithms};
use pr_params::{Params, params};
use pr_surface::PengRobinson;

/// Looks for a phase boundary of the feed between two pressures or two temperatures, by Peng and Robinson's equation for the states of
/// one phase and by any flash.
///
/// At a place the flash runs first and then, where it closes, the walk over the states of one phase, each with the whole budget of the
/// job. The feed is divided where every state of one phase lies at least 2^-20 bit above the split of the flash. Elsewhere it is
/// liquid from a packing fraction of 0.2531 on, and else vapour.
///
/// A bracket has two ends, one divided and the other whole, in the given range and at most the width apart. Both are of their kinds
/// for every choice of the roots and of log2 e within the printed pairs. There is no edge where one of the given ends isn't divided and
/// the other of the wanted kind. The search stops where the flash or the walk stays open, and is refused where the parameters break
/// a range.
pub fn edge<F: Flash>(flash: &mut F, case: &Case, job: &EdgeWords) -> Result<EdgeAnswer, Memory>
    ensures bisected { IfOk result (Bisected (SaysAt F.surface IsPrWalk case.now job.now) (boundary job.now.side job.now.lo job.now.hi job.now.width)) }
    ensures encloses { IfOk result (EnclosesIfBracket (boundary job.now.side job.now.lo job.now.hi job.now.width)) }
    ensures kinds { IfOk result (SayKinds case.now job.now) }
{
    edge_by(flash, &PrPhases {}, case, job)
}

/// The walk over the states of one phase by Peng and Robinson's equation.
#[derive(Clone, Copy)]
struct PrPhases {}

impl OnePhase for PrPhases {
    ghost use Rattle.fibre_bound.proofs.Exports.{fibres_hold};
    ghost use Rattle.pr_params.proofs.Exports.{count_of};
    ghost use Rattle.pr_surface.proofs.Exports.{numbers_bound};

    ghost is_walk = { IsPrWalk };

    ghost walks_hold = { λ c tol budget units f accepted walk.
        fibres_hold (λ c. surface_of (numbers_of c)) numbers_bound count_of c walk.packings tol budget units f accepted walk.inside walk.fibre };

    fn walk(&self, case: &Case, tol: u32, budget: u32) -> Result<Walked, ParamFault> {
        let params = params(case)?;
        Ok(walked(&params, tol, budget))
    }
}

/// The walk with these parameters. It begins at the packing fractions that balance the pressure.
fn walked(params: &Params, tol: u32, budget: u32) -> Walked
    requires tol_high { tol ≤ 1048576 }
    requires budget_high { budget ≤ 10000000 }
    ensures walk { IsPrWalk params.now.case tol budget result.units result.fibre }
    ensures grain { GrainIsInside result.fibre.end }
{
    let store = LogStore::new();
    let logs = Logarithms::Kept(&store);
    let surface = PengRobinson { params, logs };
    let first = packings(params, &feed_box(&params.case));
    let mut units = Units::new(budget);
    let fibre = one_phase(&surface, &params.case, &first, tol, &mut units);
    Walked {
        fibre,
        units: units.spent,
    }
}
