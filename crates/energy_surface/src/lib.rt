//! Energy surfaces, known by their bounds alone: what a search of one leaves, what makes an answer lawful, what lows promise, and
//! what each flash promises.
#![tactic(auto)]

mod flashes;
mod found;
mod laws;
mod surfaces;

pub use flashes::Flash;
pub use found::Found;
pub use laws::{
    closed_is_near, columns_are_kept, lows_certify, planes_fall, some_round, spent_has_worked,
    units_are_work, uppers_certify, weak_duality,
};
pub use surfaces::Surface;
