//! The names of the new work variables of a worksheet that is written.
#![tactic(auto)]

mod naming;
mod renaming;

pub use naming::name_items;
