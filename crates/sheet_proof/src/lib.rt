//! The proof of a finished worksheet, as it is written.
#![tactic(auto)]

mod steps;
mod text;

pub use text::{ProofFault, written_proof};
