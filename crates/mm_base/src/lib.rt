//! What every crate of the worksheet assistant speaks of: symbols and labels, lists, trees, the limits, and what
//! reaches outside, as files by their names and receivers of bytes.
#![tactic(auto)]

mod buffer;
mod calls;
mod errors;
mod host;
mod kinds;
mod limits;
mod list;
mod memory_sink;
mod memory_store;
mod outside;
mod rows;
mod same;
mod status;
mod symbols;
mod tree;

pub use errors::{Failed, Memory, ReadStop, ReplaceStop};
pub use host::{HostSink, HostStore};
pub use kinds::Kinds;
pub use limits::{
    MOST_DATABASE_BYTES, MOST_FORMULA_TOKENS, MOST_ORDERED_PLACES, MOST_PROOF_LABELS,
    MOST_SHEET_BYTES, MOST_TRIAL_BLOCKS, MOST_WORK_SIZE, MOST_WORK_VARIABLE,
};
pub use list::{Bytes, List, Name};
pub use memory_sink::MemSink;
pub use memory_store::MemStore;
pub use outside::{Sink, Store};
pub use rows::Rows;
pub use same::is_same;
pub use status::Status;
pub use symbols::{Label, Pair, Sym, Typecode};
pub use tree::Tree;
