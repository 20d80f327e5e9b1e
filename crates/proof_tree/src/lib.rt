//! Proofs as graphs in which equal proofs are one node, and what is written of them.
#![tactic(auto)]

mod builder;
mod building;
mod coding;
mod floats;
mod graph;
mod labels;
mod order;

pub use building::{ProofStep, build};
pub use coding::code;
pub use graph::{ProofGraph, ProofNode};
pub use labels::{NormalFault, normal};
