//! The steps of a bound worksheet, taken one after the other into one store of shared terms.
#![tactic(auto)]

mod adding;
mod begun;
mod candidate;
mod chain;
mod copies;
mod formulas;
mod joining;
mod judged;
mod judging;
mod laws;
mod orders;
mod placed;
mod reader;
mod reading;
mod standing;
mod trying;
mod works;

pub use chain::{Chain, ChainTrees};
pub use chain_laws::{VariableNode, WorkNode};
pub use judged::{Accepted, Judged};
pub use laws::constants_are_counted;
pub use placed::are_placed;
pub use reading::TreeFault;
pub use solve_model::Verdict;
