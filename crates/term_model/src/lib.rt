//! The definitions of the store of shared terms: terms, bindings, solutions, and the tokens of texts; and the types that
//! they speak of.
#![tactic(auto)]

mod shape;

pub use shape::{Id, Shape};
