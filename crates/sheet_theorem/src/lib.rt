//! The theorem of a written worksheet, as it is put into a database.
#![tactic(auto)]

mod outer;
mod parts;
mod place;
mod theorem;

pub use place::outcomes_have_places;
pub use theorem::new_theorem;
