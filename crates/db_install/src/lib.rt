//! Putting a theorem into the text of a database: where it goes, and the text with it.
#![tactic(auto)]

mod block;
mod place;
mod text;

pub use place::place_byte;
pub use text::{InstallFault, install};
