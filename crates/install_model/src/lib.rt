//! What the text of a database is with the theorem of a finished worksheet in it. It has definitions and the type that they
//! speak of, and no code of its own.
#![tactic(auto)]

mod install;

pub use install::NewTheorem;
