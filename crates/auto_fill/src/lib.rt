//! The reference of a step that lists no places: the first assertion and the first earlier steps that serve it.
#![tactic(auto)]

mod filling;
mod labelling;
mod sought;
mod walking;

pub use filling::fill_ref;
