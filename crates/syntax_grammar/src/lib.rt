//! The productions of a database, without the chains that close a cycle.
#![tactic(auto)]

mod checks;
mod grammar;
mod index;
mod joins;
mod table;

pub use checks::{are_rows, slot_place};
pub use grammar::{Grammar, keep_rows};
pub use index::first_sym;
pub use mm_model::{Item, Production};
