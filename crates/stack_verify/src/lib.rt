//! The stack machine that decides whether a proof proves its theorem (Metamath book, section 4.1.4), and the theorems and
//! proofs of a database.
#![tactic(auto)]

mod accepting;
mod coding;
mod entries;
mod fault;
mod formula;
mod found;
mod known;
mod normal;
mod pairs;
mod run;
mod stack;
mod taken;
mod theorems;
mod words;

pub use accepting::verify;
pub use coding::proof_code;
pub use fault::ProofFault;
pub use proof_model::Theorem;
pub use theorems::theorem_of;
