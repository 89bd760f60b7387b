//! Searches of an energy surface whose answers were worked out by hand.

ghost use Rattle.std.specs.Prelude.{◌≤◌, ◌^◌};

use super::*;
use crate::bowls::Bowl;
use crate::sloped_trials::SLOPED_TRIALS;
use crate::trials::{HALF, NOWHERE, TRIALS, Trial};
use case_types::{
    BoxX, Cell, Column, Letters, MixLow, MixSlope, MixUp, PackingLogs, PackingSlope, Plane, Units,
};
use energy_surface::Surface;
use std::cell::Cell as Counter;
use std::process::Abort;
use std::test::Fail;

#[test]
fn searches_a_bowl(rt: HostRuntime) -> Result<(), Fail> {
    for trial in TRIALS {
        let mut letters = Letters::new(rt.alloc());
        letters.reserve(400)?;
        tried(&rt, &trial, letters);
    }
    Ok(())
}

#[test]
fn searches_with_slope_lows(rt: HostRuntime) -> Result<(), Fail> {
    for trial in SLOPED_TRIALS {
        let mut letters = Letters::new(rt.alloc());
        letters.reserve(400)?;
        tried(&rt, &trial, letters);
    }
    Ok(())
}

/// Stops where a search doesn't give the answer, the units and the letters of its trial.
fn tried(rt: &impl Abort, trial: &Trial, mut letters: Letters)
    requires { 400 ≤ letters.spare }
{
    assert!(rt; trial.delta >= 1);
    assert!(rt; trial.delta <= 1 << 39);
    assert!(rt; trial.budget <= 100);
    let potential = trial.potential as i128;
    let plane = Plane {
        lam: [potential; 4],
    };
    let mut units = Units::new(trial.budget);
    let found = search(&trial.bowl, &plane, trial.delta, &mut letters, &mut units);
    assert_eq!(rt; found, trial.found);
    assert_eq!(rt; units.spent, trial.units);
    assert_eq!(rt; letters.len(), trial.letters.len());
    for i in 0..trial.letters.len() {
        assert!(rt; i < letters.len());
        assert_eq!(rt; *letters.get(i), trial.letters[i], "letter {i}");
    }
}

#[test]
fn has_a_column(rt: HostRuntime) -> Result<(), Fail> {
    let bowl = Bowl {
        count: 2,
        bottom: HALF,
        widths: 0,
        slack: 0,
        sloped: NOWHERE,
    };
    let column = column_at(&bowl, [1 << 18, 3 << 18, 0, 0], 1 << 37);
    assert_eq!(rt;
        column,
        Some(Column {
            comp: [1 << 18, 3 << 18, 0, 0],
            packing: 1 << 37,
            up: 5 << 37,
            cost: 5 << 27
        })
    );
    Ok(())
}

/// A bowl that counts the parts that are made of it.
#[derive(Clone, Copy)]
struct Counted<'a> {
    bowl: Bowl,
    lows: &'a Counter<u32>,
    ups: &'a Counter<u32>,
    logs: &'a Counter<u32>,
    mix_slopes: &'a Counter<u32>,
    packing_slopes: &'a Counter<u32>,
}

impl Surface for Counted<'_> {
    ghost use Rattle.std.specs.Prelude.{◌≡◌, ◌≤◌, ◌<◌, ◌^◌, pos, unsigned_abs, slice_index, slice_index_or};
    ghost use Rattle.box_search.specs.Bowls.{bowl, farthest, loose_low};

    ghost bounds = { λ s. bowl s.bowl.count s.bowl.bottom s.bowl.widths s.bowl.slack s.bowl.sloped };

    ghost is_mix_low = { λ s x m. m.mixing ≡ loose_low s.bowl.bottom s.bowl.widths (slice_index x.lo 0) (slice_index x.hi 0) };

    ghost is_mix_up = { λ s x m. m.mixing ≡ pos (farthest s.bowl.bottom (slice_index x.lo 0) (slice_index x.hi 0)) };

    ghost are_logs = { λ s y l. l.packing ≡ y };

    ghost is_mix_slope = { λ s lam lo hi m. (m.plane.at.lo ≡ slice_index_or lam 0 (pos 0)) × (unsigned_abs (slice_index_or lam 0 (pos 0)) < 2 ^ 60) };

    ghost is_packing_slope = { λ s yl yh p. s.bowl.sloped ≤ yl };

    fn count(&self) -> u8 {
        self.bowl.count()
    }

    fn mix_low(&self, x: &BoxX) -> MixLow {
        count_one(self.lows);
        self.bowl.mix_low(x)
    }

    fn mix_up(&self, x: &BoxX) -> MixUp {
        count_one(self.ups);
        self.bowl.mix_up(x)
    }

    fn logs(&self, y: u64) -> PackingLogs {
        count_one(self.logs);
        self.bowl.logs(y)
    }

    fn low(&self, mix: &MixLow, from: &PackingLogs, to: &PackingLogs) -> i128 {
        self.bowl.low(mix, from, to)
    }

    fn up(&self, mix: &MixUp, logs: &PackingLogs) -> i128 {
        self.bowl.up(mix, logs)
    }

    fn mix_slope(&self, plane: &Plane, cell: &Cell) -> Option<MixSlope> {
        count_one(self.mix_slopes);
        self.bowl.mix_slope(plane, cell)
    }

    fn packing_slope(
        &self,
        from: &PackingLogs,
        middle: &PackingLogs,
        to: &PackingLogs,
    ) -> Option<PackingSlope> {
        count_one(self.packing_slopes);
        self.bowl.packing_slope(from, middle, to)
    }

    fn slope(&self, mix: &MixSlope, packing: &PackingSlope) -> Option<i128> {
        self.bowl.slope(mix, packing)
    }
}

fn count_one(counter: &Counter<u32>) {
    counter.set(counter.get().wrapping_add(1));
}

/// How many parts a search of a bowl makes with a tolerance of 4: of boxes, of middle compositions, logarithms, and parts of
/// slope lows over packing fractions and over compositions.
fn parts_made(
    rt: &HostRuntime,
    bowl: Bowl,
    potential: i64,
) -> Result<(u32, u32, u32, u32, u32), Fail> {
    let (lows, ups, logs) = (Counter::new(0), Counter::new(0), Counter::new(0));
    let (packing_slopes, mix_slopes) = (Counter::new(0), Counter::new(0));
    let surface = Counted {
        bowl,
        lows: &lows,
        ups: &ups,
        logs: &logs,
        mix_slopes: &mix_slopes,
        packing_slopes: &packing_slopes,
    };
    let potential = potential as i128;
    let plane = Plane {
        lam: [potential; 4],
    };
    let mut letters = Letters::new(rt.alloc());
    letters.reserve(400)?;
    search(&surface, &plane, 4, &mut letters, &mut Units::new(100));
    Ok((
        lows.get(),
        ups.get(),
        logs.get(),
        packing_slopes.get(),
        mix_slopes.get(),
    ))
}

/// A bowl with a slack of 8.
fn slack_bowl(count: u8, bottom: u64, sloped: u64) -> Bowl
    requires one { 1 ≤ count }
    requires four { count ≤ 4 }
    requires inside { bottom ≤ 2 ^ 40 }
{
    Bowl {
        count,
        bottom,
        widths: 0,
        slack: 8,
        sloped,
    }
}

/// Of one component: one box and one composition; logarithms at both ends, at each cut, and in the middle of the last cell and
/// of three that are left. Of two: a box for each half along the fraction, of which there are 20 pairs, and a composition for
/// one of them; parts of slope lows over packing fractions are asked for in vain at each cell, and those over compositions are
/// made for the boxes that the plain low doesn't clear.
#[test]
fn makes_each_part_once(rt: HostRuntime) -> Result<(), Fail> {
    let one = slack_bowl(1, HALF, NOWHERE);
    assert_eq!(rt; parts_made(&rt, one, 1 << 39)?, (1, 1, 46, 44, 1));
    let two = slack_bowl(2, HALF, NOWHERE);
    assert_eq!(rt; parts_made(&rt, two, 0)?, (41, 21, 27, 46, 22));
    Ok(())
}

/// A half along the packing has the compositions' part of slope lows from its cell, and a half along a fraction has that of
/// the packing fractions. No middle is made for a cell that its slope low clears.
#[test]
fn makes_each_slope_once(rt: HostRuntime) -> Result<(), Fail> {
    assert_eq!(rt;
        parts_made(&rt, slack_bowl(2, HALF, 0), 4)?,
        (1, 0, 3, 1, 1)
    );
    assert_eq!(rt;
        parts_made(&rt, slack_bowl(2, HALF - 1, 0), 5)?,
        (41, 21, 27, 25, 22)
    );
    Ok(())
}
