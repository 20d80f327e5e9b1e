//! Reads the requests of an editor session from lines of JSON, and edits the text of a sheet.
#![tactic(auto)]

mod edit;
mod members;
mod operation;
mod request;

pub use edit::{EditStop, edited};
pub use request::read_request;
