//! The parameters of a case as an energy surface.

ghost use Rattle.case_types.specs.Arithmetic.Numbers.{numbers_of};
ghost use Rattle.helmholtz_density.specs.Parts.{IsMixUp};
ghost use Rattle.pr_params.specs.Packings.{ArePackingLogs};
ghost use Rattle.pr_surface.specs.PengRobinson.{surface_of};
ghost use Rattle.tangent_bound.specs.Parts.{IsMixLow};
ghost use Rattle.tangent_bound.specs.SlopeParts.{IsMixSlope, IsPackingSlope};
ghost use Rattle.case_types.specs.Grid.Cells.{Region};
ghost use Rattle.std.specs.Prelude.{◌≡◌};

use case_types::{BoxX, Cell, MixLow, MixSlope, MixUp, PackingLogs, PackingSlope, Plane};
use energy_surface::Surface;
use helmholtz_density::{mix_up, up_of_parts};
use log_enclose::Logarithms;
use pr_params::{Params, packing_logs};
use tangent_bound::{low_of_parts, mix_low, mix_slope, packing_slope, slope_of_parts};

/// The energy surface that the parameters make, and where its logarithms come from.
#[derive(Clone, Copy)]
pub struct PengRobinson<'a, 'b> {
    pub params: &'a Params,
    pub logs: Logarithms<'b>,
}

impl Surface for PengRobinson<'_, '_> {
    ghost bounds = { λ s. surface_of (numbers_of s.params.now.case) };

    ghost is_mix_low = { λ s x m. IsMixLow (numbers_of s.params.now.case) x m };

    ghost is_mix_up = { λ s x m. IsMixUp (numbers_of s.params.now.case) x m };

    ghost are_logs = { λ s y l. ArePackingLogs (numbers_of s.params.now.case) y l };

    ghost is_mix_slope = { λ s lam lo hi m. (r : Region) → r.lo ≡ lo → r.hi ≡ hi → IsMixSlope (numbers_of s.params.now.case) lam r m };

    ghost is_packing_slope = { λ s yl yh p. IsPackingSlope (numbers_of s.params.now.case) yl yh p };

    fn count(&self) -> u8 {
        self.params.case.n
    }

    fn mix_low(&self, x: &BoxX) -> MixLow {
        mix_low(self.params, self.logs, x)
    }

    fn mix_up(&self, x: &BoxX) -> MixUp {
        mix_up(self.params, self.logs, x)
    }

    fn logs(&self, y: u64) -> PackingLogs {
        packing_logs(self.logs, y)
    }

    fn low(&self, mix: &MixLow, from: &PackingLogs, to: &PackingLogs) -> i128 {
        low_of_parts(self.params, mix, from, to)
    }

    fn up(&self, mix: &MixUp, logs: &PackingLogs) -> i128 {
        up_of_parts(self.params, mix, logs)
    }

    fn mix_slope(&self, plane: &Plane, cell: &Cell) -> Option<MixSlope> {
        mix_slope(self.params, self.logs, plane, cell)
    }

    fn packing_slope(
        &self,
        from: &PackingLogs,
        _middle: &PackingLogs,
        to: &PackingLogs,
    ) -> Option<PackingSlope> {
        packing_slope(self.logs, from.packing, to.packing)
    }

    fn slope(&self, mix: &MixSlope, packing: &PackingSlope) -> Option<i128> {
        slope_of_parts(self.params, mix, packing)
    }
}
