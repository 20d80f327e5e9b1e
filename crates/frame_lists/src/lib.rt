//! What is active at a place of a database, and the frames of its assertions (Metamath book, sections 4.2.7 and 4.2.8),
//! from its statements by number.
#![tactic(auto)]

mod active;
mod blocks;
mod constants;
mod entry;
mod frames;
mod hypotheses;
mod listed;
mod mandatory;
mod pairs;
mod scope;
mod sorted;
mod stack;
mod together;

pub use active::active_at;
pub use blocks::place_after;
pub use constants::{constant_places, float_codes};
pub use entry::{Entry, EntryKind, StatementKind};
pub use frames::frames_by_label;
pub use listed::Listed;
pub use mm_model::{Active, Frame, Hyp};
pub use stack::Stack;
