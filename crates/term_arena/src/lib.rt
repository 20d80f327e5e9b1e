//! The store of shared terms.
#![tactic(auto)]

mod arena;
mod cycles;
mod sizes;
mod terms;
mod walk;

pub use arena::{Arena, Mark};
pub use term_model::{Id, Shape};
