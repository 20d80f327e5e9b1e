//! Proofs: the proof code and its faults, the stack machine that decides whether a proof is accepted, and proofs as
//! trees of labels. It has definitions and the types that they speak of, and no code of its own.
#![tactic(auto)]

mod code;
mod theorem;

pub use code::{Code, Step, What};
pub use theorem::Theorem;
