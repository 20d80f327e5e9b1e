//! Proofs of a database as worksheets.
#![tactic(auto)]

mod export;
mod hyps;
mod machine;
mod places;
mod sheet;
mod steps;
mod substitution;

pub use export::export_sheet;
