//! The worksheet language: what a worksheet's text says, its first fault, and the text that a worksheet is written as.
//! It has definitions and the types that they speak of, and no code of its own.
#![tactic(auto)]

mod sheet;

pub use sheet::{Given, PairLine, Sheet, SheetItem, SheetStep};
