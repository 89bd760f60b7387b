//! Trial phases of the near flash.

ghost use Rattle.std.specs.Prelude.{◌≡◌, ◌≤◌, ◌<◌, ◌^◌, slice_index};
ghost use Rattle.log_laws.specs.Sums.{sum_below};

use crate::coefficients::Coefficients;
use crate::settling::settled;
use crate::weights::Weights;
use case_types::{Phase, SLOTS};
use pr_params::Params;

/// The most trial phases: the feed, a gas, a dense phase, and one near each component alone.
pub const TRIALS: usize = 7;

/// The least amount of a trial phase, 2^-20 in 2^-30: it is kept, so that the phase can come back.
pub const LEAST: u64 = 1 << 10;

/// The greatest amount of a trial phase, in 2^-30: the whole feed.
pub const MOST: u64 = 1 << 30;

/// A trial phase of the near flash. The parts of its live components are at least 1.
#[derive(Clone, Copy)]
pub struct Trial {
    pub phase: Phase,
    pub coefficients: Coefficients,
    pub weights: Weights,
    /// How much of the feed the phase has, in 2^-30.
    pub amount: u64,
    pub ghost some: { 1 ≤ slice_index phase.parts 0 },
    pub ghost few: { sum_below 4 (slice_index phase.parts) ≤ 2 ^ 35 },
    pub ghost packed: { 1 ≤ phase.packing },
    pub ghost not_full: { phase.packing < 2 ^ 40 },
    pub ghost kept: { 2 ^ 10 ≤ amount },
    pub ghost not_above: { amount ≤ 2 ^ 30 },
}

impl Default for Trial {
    /// The least amount of the first component alone.
    fn default() -> Trial {
        Trial {
            phase: Phase {
                parts: [1, 0, 0, 0],
                packing: 1,
            },
            coefficients: Coefficients::default(),
            weights: Weights::default(),
            amount: LEAST,
        }
    }
}

impl Trial {
    /// A phase at the start of the near flash: all begin with the same amount.
    pub fn start(params: &Params, parts: [u128; SLOTS]) -> Trial
        requires some { 1 ≤ slice_index parts 0 }
        requires few { sum_below 4 (slice_index parts) ≤ 2 ^ 35 }
    {
        let phase = settled(params, parts);
        Trial {
            phase,
            coefficients: Coefficients::of(params, &phase),
            weights: Weights::default(),
            amount: MOST / TRIALS as u64,
        }
    }

    /// Takes half a step toward the fugacity coefficients of the phase as it is. Half steps keep strongly attracting mixtures
    /// from swinging.
    pub fn renew(&mut self, params: &Params)
        ensures phase { self.new.phase ≡ self.old.phase }
        ensures amount { self.new.amount ≡ self.old.amount }
    {
        let own = Coefficients::of(params, &self.phase);
        self.coefficients = self.coefficients.mean(&own);
    }

    /// Brings the phase to the packing fraction that its parts ask for.
    pub fn settle(&mut self, params: &Params)
        ensures parts { self.new.phase.parts ≡ self.old.phase.parts }
        ensures amount { self.new.amount ≡ self.old.amount }
    {
        self.phase = settled(params, self.phase.parts);
    }
}
