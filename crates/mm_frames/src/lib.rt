//! Reading the statements of a Metamath database (Metamath book, section 4.2): symbols, labels and frames by number,
//! or the first fault with its byte.
#![tactic(auto)]

mod fault;
mod frames;
mod keywords;
mod reader;
mod reading;
mod scopes;
mod step;
mod words;

pub use fault::ReadFault;
pub use frame_lists::{Active, Entry, EntryKind, Frame, Hyp, StatementKind};
pub use frames::Frames;
pub use reading::read;
