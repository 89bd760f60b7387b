//! An energy surface whose columns can be told by hand.

ghost use Rattle.std.specs.Prelude.{◌≡◌, ◌≤◌};
ghost use Rattle.candidate_split.specs.Levels.{level};

use case_types::{BoxX, Cell, MixLow, MixSlope, MixUp, PackingLogs, PackingSlope, Plane};
use energy_surface::Surface;

/// The energy is the packing fraction, in 2^-40 bit. It has no slope lows.
#[derive(Clone, Copy)]
pub struct Level {
    pub count: u8,
    pub ghost one: { 1 ≤ count },
    pub ghost four: { count ≤ 4 },
}

impl Surface for Level {
    ghost use Rattle.std.specs.Prelude.{◌≡◌};
    ghost use Rattle.candidate_split.specs.Levels.{level};

    ghost bounds = { λ s. level s.count };

    ghost is_mix_low = { λ s x m. Unit {0} };

    ghost is_mix_up = { λ s x m. Unit {0} };

    ghost are_logs = { λ s y l. l.packing ≡ y };

    ghost is_mix_slope = { λ s lam lo hi m. Unit {0} };

    ghost is_packing_slope = { λ s yl yh p. Unit {0} };

    fn count(&self) -> u8 {
        self.count
    }

    fn mix_low(&self, _x: &BoxX) -> MixLow {
        MixLow {
            mixing: 0,
            covolume: 1 << 49,
            log_covolume: 0,
            ratio: 0,
            flat: 0,
            steep: 1,
            volume_flat: 0,
        }
    }

    fn mix_up(&self, _x: &BoxX) -> MixUp {
        MixUp {
            mixing: 0,
            covolume: 0,
            log_covolume: 0,
            ratio: 0,
        }
    }

    fn logs(&self, y: u64) -> PackingLogs {
        PackingLogs {
            packing: y,
            packing_low: 0,
            packing_high: 0,
            rest_low: 0,
            rest_high: 0,
            lambda_low: 0,
            lambda_high: 0,
        }
    }

    fn low(&self, _mix: &MixLow, from: &PackingLogs, _to: &PackingLogs) -> i128 {
        from.packing as i128
    }

    fn up(&self, _mix: &MixUp, logs: &PackingLogs) -> i128 {
        logs.packing as i128
    }

    fn mix_slope(&self, _plane: &Plane, _cell: &Cell) -> Option<MixSlope> {
        None
    }

    fn packing_slope(
        &self,
        _from: &PackingLogs,
        _middle: &PackingLogs,
        _to: &PackingLogs,
    ) -> Option<PackingSlope> {
        None
    }

    fn slope(&self, _mix: &MixSlope, _packing: &PackingSlope) -> Option<i128> {
        None
    }
}
