//! The flash of a Peng-Robinson mixture, and what it promises.
#![tactic(auto)]

mod case_flash;
mod flash;
mod guesses;
#[cfg(test)]
mod samples;
#[cfg(test)]
mod tests;

pub use case_flash::PrFlash;
pub use flash::flash_tp;
