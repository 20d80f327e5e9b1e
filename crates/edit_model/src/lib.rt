//! The editor session: what the lines of its input ask for, the replies to them, and what the program writes. It has
//! definitions and the types that they speak of, and no code of its own.
#![tactic(auto)]

mod request;

pub use request::{Action, Request};
