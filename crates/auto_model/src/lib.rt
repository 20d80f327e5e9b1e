//! Steps of a written worksheet that list no places, filled with the first assertion and the first earlier steps that serve. It
//! has definitions and the type that they speak of, and no code of its own.
#![tactic(auto)]

mod auto;

pub use auto::Auto;
