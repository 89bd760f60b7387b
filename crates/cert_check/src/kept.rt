//! What is kept of the last leaf.

ghost use Rattle.std.specs.Prelude.{◌≡◌, ◌≤◌, ◌^◌, None};
ghost use Rattle.box_search.specs.Parts.{meanings, AreLogsAt};
ghost use Rattle.cert_check.specs.Kept.{IsKept, Turns};

use box_search::BoxParts;
use case_types::{Cell, MixSlope, PackingLogs};
use energy_surface::Surface;

/// What is kept of the last leaf: the parts of lows that belong to its compositions, and the logarithms at the ends of its packing
/// fractions. The next leaf is often the other half of the same cell, and shares the one or the other.
#[derive(Clone, Copy)]
pub struct Kept {
    /// The ends of its free fractions.
    pub lo: [u32; 3],
    pub hi: [u32; 3],
    /// What its plain low has of its compositions, where it was made.
    pub over: Option<BoxParts>,
    /// What its slope low has of them, where it was made.
    pub slope: Option<MixSlope>,
    /// The logarithms at the ends of its packing fractions.
    pub from: Option<PackingLogs>,
    pub to: Option<PackingLogs>,
}

impl Kept {
    /// Of no leaf.
    pub fn nothing() -> Kept
        ensures over { result.over ≡ None }
        ensures slope { result.slope ≡ None }
        ensures from { result.from ≡ None }
        ensures to { result.to ≡ None }
    {
        Kept {
            lo: [0; 3],
            hi: [0; 3],
            over: None,
            slope: None,
            from: None,
            to: None,
        }
    }

    /// Turns to the compositions of a cell: what is kept of other ones is given up.
    pub fn turn_to(&mut self, cell: &Cell)
        ensures { Turns cell.now.lo cell.now.hi self.old self.new }
    {
        if self.lo != cell.lo || self.hi != cell.hi {
            self.lo = cell.lo;
            self.hi = cell.hi;
            self.over = None;
            self.slope = None;
        }
    }

    /// The logarithms at a packing fraction, in 2^-40.
    pub fn logs_at<S: Surface>(&self, surface: &S, y: u64) -> PackingLogs
        requires inside { y ≤ 2 ^ 40 }
        requires kept { (lam : _) × IsKept (meanings (S.bounds surface.now).count (S.is_mix_low surface.now) (S.is_mix_up surface.now) (S.are_logs surface.now) (S.is_mix_slope surface.now) (S.is_packing_slope surface.now)) lam self.now }
        ensures { AreLogsAt (meanings (S.bounds surface.now).count (S.is_mix_low surface.now) (S.is_mix_up surface.now) (S.are_logs surface.now) (S.is_mix_slope surface.now) (S.is_packing_slope surface.now)) y result }
    {
        if let Some(logs) = self.to
            && logs.packing == y
        {
            return logs;
        }
        match self.from {
            Some(logs) => {
                if logs.packing == y {
                    logs
                } else {
                    surface.logs(y)
                }
            }
            None => surface.logs(y),
        }
    }
}
