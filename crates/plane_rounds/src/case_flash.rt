//! The flash of any case by Peng and Robinson's equation.

ghost use Rattle.case_types.specs.Arithmetic.Numbers.{numbers_of};
ghost use Rattle.pr_surface.specs.PengRobinson.{surface_of};

use crate::flash::flash_tp;
use case_types::{Answer, Case, FlashFault};
use energy_surface::Flash;
use pr_params::params;
use std::alloc::Global;

/// The flash of any case by Peng and Robinson's equation.
#[derive(Clone, Copy)]
pub struct PrFlash {
    /// The lists of work take their memory from it.
    pub alloc: Global,
}

impl Flash for PrFlash {
    ghost use Rattle.pr_surface.proofs.Exports.{numbers_bound};

    ghost surface = { λ c. surface_of (numbers_of c) };

    ghost bounds = { numbers_bound };

    fn flash(&mut self, case: &Case, tol: u32, budget: u32) -> Result<Answer, FlashFault> {
        let params = params(case).map_err(FlashFault::Param)?;
        flash_tp(self.alloc, &params, tol, budget).map_err(FlashFault::Memory)
    }
}
