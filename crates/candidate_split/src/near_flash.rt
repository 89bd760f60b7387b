//! The near flash: successive substitution of all trial phases together.

ghost use Rattle.std.specs.Prelude.{◌≤◌, length};

use crate::amounts::{feed_shares, share_out};
use crate::coefficients::Coefficients;
use crate::starts::starts;
use crate::trials::{TRIALS, Trial};
use crate::weights::Weights;
use arrayvec::ArrayVec;
use case_types::SLOTS;
use pr_params::Params;

/// How many turns there are.
const TURNS: usize = 60;

/// How many turns of the amounts there are in each.
const AMOUNT_TURNS: usize = 32;

/// The trial phases after all turns.
pub fn near_flash(params: &Params) -> ArrayVec<Trial, TRIALS>
    ensures { 1 ≤ length result.items }
{
    let feed = feed_shares(&params.case);
    let mut trials = starts(params);
    for _turn in 0..TURNS {
        turn(params, &feed, trials.as_mut_slice());
    }
    trials
}

/// One turn: the fugacity coefficients, the amounts and parts with these, and the packing fractions.
fn turn(params: &Params, feed: &[u32; SLOTS], trials: &mut [Trial])
    requires some { 1 ≤ length trials.old }
    requires few { length trials.old ≤ 7 }
{
    renew(params, trials);
    weigh(params.case.n, trials);
    for _turn in 0..AMOUNT_TURNS {
        share_out(params.case.n, feed, trials);
    }
    settle(params, trials);
}

/// Half a step of the fugacity coefficients of each phase.
fn renew(params: &Params, trials: &mut [Trial]) {
    for trial in trials {
        trial.renew(params);
    }
}

/// The weights of each phase, from the fugacity coefficients of all.
fn weigh(n: u8, trials: &mut [Trial])
    requires { 1 ≤ length trials.old }
{
    let least = least_of(trials);
    for trial in trials {
        trial.weights = Weights::against(n, &least, &trial.coefficients);
    }
}

/// The least fugacity coefficients that the components have in a phase.
fn least_of(trials: &[Trial]) -> Coefficients
    requires { 1 ≤ length trials.now }
{
    let mut least = trials[0].coefficients;
    for trial in trials {
        least = least.lesser(&trial.coefficients);
    }
    least
}

/// The packing fraction of each phase that its parts ask for.
fn settle(params: &Params, trials: &mut [Trial]) {
    for trial in trials {
        trial.settle(params);
    }
}
