//! Pairs of distinct variables that a use of an assertion needs, and clashes.
#![tactic(auto)]

mod clashes;
mod crossings;
mod missing;
mod shared;
mod values;

pub use clashes::clash;
pub use crossings::needed;
pub use missing::lacking;
