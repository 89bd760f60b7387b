//! Tests of the parameters against numbers that an independent program computed: of components alone and of mixtures.
//!
//! They stand apart from `pr_params`, so that no crate above it waits for them and for the cases that they begin with.
#![tactic(auto)]

#[cfg(test)]
mod components;
#[cfg(test)]
mod mixtures;
#[cfg(test)]
mod sample_numbers;
#[cfg(test)]
mod samples;
