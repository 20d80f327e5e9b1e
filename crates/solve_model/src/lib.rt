//! What a worksheet asks of its formulas: what its tokens say over a database, its faults there, which steps fit their
//! references, and the most general formulas under which they do. It has definitions and the types that they speak of,
//! and no code of its own.
#![tactic(auto)]

mod bound;
mod verdict;

pub use bound::{Bound, BoundStep};
pub use verdict::Verdict;
