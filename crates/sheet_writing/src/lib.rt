//! The worksheet that is written, with the tokens of its formulas, and what keeps it from being written.
#![tactic(auto)]

mod ambiguous;
mod size;
mod tokens;
mod writing;

pub use ambiguous::ambiguous_step;
pub use size::written_size;
pub use writing::written_sheet;
