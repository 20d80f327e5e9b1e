//! The references of the steps of a worksheet that have none.
#![tactic(auto)]

mod applying;
mod searching;

pub use applying::search_items;
