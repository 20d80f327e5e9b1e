//! Inputs made from a number: the database and the worksheets with which the program tries itself.
#![tactic(auto)]

mod blocks;
mod lines;
mod pieces;
mod texts;

pub use texts::{database, sheet};
