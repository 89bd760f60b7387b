//! Cases and planes that the tests of the crates above begin with. The program itself has no use for them.
#![tactic(auto)]

mod cases;
mod mixtures;
mod planes;

pub use cases::{NAMELESS, equal_parts};
pub use mixtures::{ethane_to_benzene, like_components, methane_to_nitrogen};
pub use planes::plane_of;
