//! The numbers of a lawful answer are small.
#![tactic(auto)]

mod laws;

pub use laws::answers_are_small;
