//! An opened database: its statements, its productions, and the trees of its usable assertions.
#![tactic(auto)]

mod assertions;
mod database;
mod faults;
mod formulas;
mod heads;
mod laws;
mod productions;
mod variables;

pub use assertions::Parsed;
pub use database::{Database, open_database, open_frames, read_frames};
pub use faults::{DbFault, db_fault_line};
pub use laws::kept_are_usable;
