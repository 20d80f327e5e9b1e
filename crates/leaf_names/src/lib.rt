//! The names of the fresh leaves of a worksheet: work variables that it does not have, each the least number that is free.
#![tactic(auto)]

mod free;
mod given;
mod laws;
mod leaves;
mod read;
mod renamed;
mod table;

pub use laws::{names_are_naming, numbers_suffice};
pub use table::Names;
