//! An energy surface whose searches can be worked out by hand.

ghost use Rattle.std.specs.Prelude.{◌≡◌, ◌≤◌, ◌<◌, ◌*◌, ◌^◌, pos, neg_ℤ, ◌+ℤ◌, ◌-ℤ◌, unsigned_abs, slice_index_or};
ghost use Rattle.box_search.specs.Bowls.{nearest as nearest_of, farthest as farthest_of, loose_low as low_of};

use case_types::{BoxX, Cell, MixLow, MixSlope, MixUp, PackingLogs, PackingSlope, Plane};
use energy_surface::Surface;
use log_laws::{Iv, Slope};

/// The energy is 2^-40 bit for each 2^-40 that the first fraction, and the packing fraction, lie away from a bottom. Its lows
/// are loose by so many widths of the ranges, and by a slack. From a packing fraction on it has slope lows, which say that no
/// energy is below 0.
#[derive(Clone, Copy)]
pub struct Bowl {
    pub count: u8,
    pub bottom: u64,
    pub widths: u8,
    pub slack: u8,
    pub sloped: u64,
    pub ghost one: { 1 ≤ count },
    pub ghost four: { count ≤ 4 },
    pub ghost inside: { bottom ≤ 2 ^ 40 },
}

impl Surface for Bowl {
    ghost use Rattle.std.specs.Prelude.{◌≡◌, ◌≤◌, ◌<◌, ◌^◌, pos, unsigned_abs, slice_index, slice_index_or};
    ghost use Rattle.box_search.specs.Bowls.{bowl, farthest, loose_low};

    ghost bounds = { λ s. bowl s.count s.bottom s.widths s.slack s.sloped };

    ghost is_mix_low = { λ s x m. m.mixing ≡ loose_low s.bottom s.widths (slice_index x.lo 0) (slice_index x.hi 0) };

    ghost is_mix_up = { λ s x m. m.mixing ≡ pos (farthest s.bottom (slice_index x.lo 0) (slice_index x.hi 0)) };

    ghost are_logs = { λ s y l. l.packing ≡ y };

    ghost is_mix_slope = { λ s lam lo hi m. (m.plane.at.lo ≡ slice_index_or lam 0 (pos 0)) × (unsigned_abs (slice_index_or lam 0 (pos 0)) < 2 ^ 60) };

    ghost is_packing_slope = { λ s yl yh p. s.sloped ≤ yl };

    fn count(&self) -> u8 {
        self.count
    }

    fn mix_low(&self, x: &BoxX) -> MixLow {
        MixLow {
            mixing: loose_low(self.bottom, self.widths, x.a[0], x.b[0]),
            covolume: 1 << 49,
            log_covolume: 0,
            ratio: 0,
            flat: 0,
            steep: 1,
            volume_flat: 0,
        }
    }

    fn mix_up(&self, x: &BoxX) -> MixUp {
        MixUp {
            mixing: farthest(self.bottom, x.a[0], x.b[0]) as i128,
            covolume: 0,
            log_covolume: 0,
            ratio: 0,
        }
    }

    fn logs(&self, y: u64) -> PackingLogs {
        PackingLogs {
            packing: y,
            packing_low: 0,
            packing_high: 0,
            rest_low: 0,
            rest_high: 0,
            lambda_low: 0,
            lambda_high: 0,
        }
    }

    fn low(&self, mix: &MixLow, from: &PackingLogs, to: &PackingLogs) -> i128 {
        let packings = loose_low(self.bottom, self.widths, from.packing, to.packing);
        lessened(mix.mixing, packings, self.slack)
    }

    fn up(&self, mix: &MixUp, logs: &PackingLogs) -> i128 {
        mix.mixing + farthest(self.bottom, logs.packing, logs.packing) as i128
    }

    fn mix_slope(&self, plane: &Plane, _cell: &Cell) -> Option<MixSlope> {
        let first = first_of(plane);
        if first.unsigned_abs() < 1 << 60 {
            Some(MixSlope {
                mixing: level(0),
                log_covolume: level(0),
                ratio: level(0),
                push: level(0),
                plane: level(first),
                steps: [Iv { lo: 0, hi: 0 }; 3],
            })
        } else {
            None
        }
    }

    fn packing_slope(
        &self,
        from: &PackingLogs,
        _middle: &PackingLogs,
        _to: &PackingLogs,
    ) -> Option<PackingSlope> {
        if self.sloped <= from.packing {
            Some(PackingSlope {
                packing: level(0),
                log_packing: level(0),
                log_rest: level(0),
                lambda: level(0),
                step: Iv { lo: 0, hi: 0 },
            })
        } else {
            None
        }
    }

    fn slope(&self, mix: &MixSlope, _packing: &PackingSlope) -> Option<i128> {
        Some(opposite(&mix.plane.at))
    }
}

/// The potential of the first component.
fn first_of(plane: &Plane) -> i128
    ensures value { result ≡ slice_index_or plane.now.lam 0 (pos 0) }
    ensures small { unsigned_abs result < 2 ^ 80 }
{
    plane.lam[0]
}

/// The form of a function that is the same everywhere.
fn level(at: i128) -> Slope
    requires { unsigned_abs at < 2 ^ 60 }
    ensures { result.at.lo ≡ at }
{
    let value = Iv { lo: at, hi: at };
    Slope {
        at: value,
        over: value,
        by: [Iv { lo: 0, hi: 0 }; 4],
    }
}

/// The lower end with the other sign.
fn opposite(x: &Iv) -> i128
    ensures value { result ≡ neg_ℤ x.now.lo }
    ensures small { unsigned_abs result ≤ 2 ^ 107 }
{
    -x.lo
}

/// How far the numbers from `lo` to `hi` are from the bottom, at least, less so many widths of the range.
fn loose_low(bottom: u64, widths: u8, lo: u64, hi: u64) -> i128
    requires bottom { bottom ≤ 2 ^ 40 }
    requires ordered { lo ≤ hi }
    requires inside { hi ≤ 2 ^ 40 }
    ensures value { result ≡ low_of bottom widths lo hi }
    ensures small { unsigned_abs result ≤ 2 ^ 49 }
{
    let nearest = lo.saturating_sub(bottom) + bottom.saturating_sub(hi);
    nearest as i128 - (widths as u64 * (hi - lo)) as i128
}

/// The sum of both less the slack.
fn lessened(fraction: i128, packings: i128, slack: u8) -> i128
    requires fraction { unsigned_abs fraction ≤ 2 ^ 50 }
    requires packings { unsigned_abs packings ≤ 2 ^ 49 }
    ensures value { result ≡ (fraction +ℤ packings) -ℤ pos slack }
    ensures small { unsigned_abs result ≤ 2 ^ 51 }
{
    fraction + packings - slack as i128
}

/// How far they are from it at most.
fn farthest(bottom: u64, lo: u64, hi: u64) -> u64
    requires bottom { bottom ≤ 2 ^ 40 }
    requires inside { hi ≤ 2 ^ 40 }
    ensures value { result ≡ farthest_of bottom lo hi }
    ensures small { result ≤ 2 ^ 41 }
{
    bottom.saturating_sub(lo) + hi.saturating_sub(bottom)
}
