//! The names of work variables, and the numbers that are free for new ones.
#![tactic(auto)]

mod free;
mod names;
mod numbers;

pub use free::{least_free, least_unused};
pub use names::{read_name, spelling};
pub use numbers::read_number;
