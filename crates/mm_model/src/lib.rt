//! The definitions of the database language, and the types that they speak of. Its code tells only what a label is.
#![tactic(auto)]

mod frames;
mod labels;
mod rows;

pub use frames::{Active, Frame, Hyp};
pub use labels::{are_label_bytes, is_label};
pub use rows::{Item, Leaf, Production};
