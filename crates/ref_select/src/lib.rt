//! The assertions of a database that fit a step of a written worksheet.
#![tactic(auto)]

mod asked;
mod laws;
mod selecting;
mod texts;
mod written;

pub use laws::selection_is_the_answer;
pub use selecting::select_step;
pub use texts::labels_text;
pub use written::{Selection, WrittenSheet};
