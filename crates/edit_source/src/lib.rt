//! What the editor session reads from: a giver of bytes, over a stream of the system and in memory.
#![tactic(auto)]

mod host;
mod memory;
mod outside;

pub use host::HostSource;
pub use memory::MemSource;
pub use outside::Source;
