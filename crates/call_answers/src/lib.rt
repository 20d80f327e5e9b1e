//! What a call of the program answers: the words of the command line, what `verify` says of a proof, the trial of the
//! program by itself, and the answer by cases. It has definitions and the types that they speak of, and no code of its own.
#![tactic(auto)]

mod ending;

pub use ending::Ending;
