//! Fills the steps of a written worksheet that list no places and have no reference.
#![tactic(auto)]

mod filling;
mod laws;
mod places;
mod seeking;
mod written;

pub use filling::{fill_sheet, filled_text};
pub use laws::filling_is_the_answer;
pub use written::WrittenFormulas;
