//! The parameters of the Peng-Robinson equation in whole numbers, each between a lower and an upper end.
//!
//! The constants are those of Peng and Robinson 1976, with the gas constant cancelled; [`kappa`] is by the edition of the
//! case. Roots are known by their whole neighbours, so every parameter is a pair of ends at a stated scale. `lift` is how
//! many bits all reduced co-volumes can be raised by, so that small ones keep their digits.
#![tactic(auto)]

mod alphas;
mod attraction_means;
mod attractions;
mod bases;
mod bounds;
mod by_component;
mod by_pair;
mod constants;
mod covolume_means;
mod covolumes;
mod lambdas;
mod lifted;
mod lifting;
mod making;
mod naturals;
mod numbers;
mod packings;
mod pulls;
mod ranges;
mod readers;
mod terms;
mod thermal;

pub use alphas::kappa;
pub use constants::{LOG_E_HI, LOG_E_LO};
pub use lambdas::{lam_hi, lam_lo, lambda_ends};
pub use making::params;
pub use numbers::Params;
pub use packings::packing_logs;
pub use pulls::{attraction_term_high, attraction_term_low};
pub use ranges::{attraction_range, b_range, g_hi, g_lo};
pub use readers::{attraction_of, covolume_of};
pub use terms::energy_of_terms;
pub use thermal::rt;
