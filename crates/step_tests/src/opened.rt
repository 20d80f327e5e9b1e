//! A database in memory, and what is shown over it.

use crate::chains::{Op, chain_holds, doublings_hold};
use crate::graphs::{Told, is_spelled, is_told};
use mm_base::{Kinds, List, MOST_DATABASE_BYTES, Memory};
use mm_database::{Database, open_database};
use std::alloc::Global;

/// What is shown over a database.
#[derive(Clone, Copy)]
pub(crate) enum Show {
    /// Of a worksheet, what comes of these operations on its chain.
    Chain(&'static [u8], &'static [Op]),
    /// The chain of a formula and so many steps, each of which doubles the one before.
    Doublings(u32),
    /// The labels of the normal proof with so many doublings.
    Labels(u32, Told),
    /// The compressed proof with so many doublings.
    Spelled(u32, &'static [u8]),
}

fn kinds(alloc: Global) -> Result<Kinds, Memory> {
    let provable = List::copy_of(alloc, b"|-")?;
    let logic = List::copy_of(alloc, b"wff")?;
    Ok(Kinds { provable, logic })
}

fn is_shown(alloc: Global, db: &Database, kinds: &Kinds, show: Show) -> bool {
    match show {
        Show::Chain(text, ops) => chain_holds(alloc, db, kinds, text, ops),
        Show::Doublings(count) => doublings_hold(alloc, db, kinds, count),
        Show::Labels(count, told) => is_told(alloc, db, count, told),
        Show::Spelled(count, text) => is_spelled(alloc, db, count, text),
    }
}

fn holds_with(alloc: Global, text: &[u8], kinds: &Kinds, show: Show) -> bool {
    if text.len() as u64 > MOST_DATABASE_BYTES {
        return false;
    }
    match open_database(alloc, text, kinds) {
        Ok(db) => is_shown(alloc, &db, kinds, show),
        Err(_) => false,
    }
}

/// Whether it is shown over the database of this text.
pub(crate) fn holds(alloc: Global, text: &[u8], show: Show) -> bool {
    match kinds(alloc) {
        Ok(kinds) => holds_with(alloc, text, &kinds, show),
        Err(_) => false,
    }
}
