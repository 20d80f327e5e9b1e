//! The proof code: compressed proofs as texts (Metamath book, appendix B). A text is `(`, labels, `)` and letters; it is
//! read as a list of steps, and a list of steps has one text that is written.
#![tactic(auto)]

mod brackets;
mod decoding;
mod fault;
mod labels;
mod laws;
mod steps;
mod writer;

pub use decoding::decode;
pub use fault::CodeFault;
pub use laws::decode_undoes_encode;
pub use proof_model::{Code, Step, What};
pub use writer::{encode, letters};
