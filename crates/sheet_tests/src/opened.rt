//! A database in memory, and what is shown over it.

use crate::binding::{
    Row, heavy_sheets_are_refused, long_formulas_are_refused, one_is_bound, rows_hold,
};
use crate::searching::{Searched, searches_hold};
use crate::selecting::selections_hold;
use mm_base::{Kinds, List, MOST_DATABASE_BYTES, Memory};
use mm_database::{Database, open_database};
use std::alloc::Global;

/// What is shown over a database.
#[derive(Clone, Copy)]
pub(crate) enum Show {
    Rows(&'static [Row]),
    LongFormulas,
    Bound,
    WorkSize,
    Searches(&'static [Searched]),
    Selections,
}

fn kinds(alloc: Global) -> Result<Kinds, Memory> {
    let provable = List::copy_of(alloc, b"|-")?;
    let logic = List::copy_of(alloc, b"wff")?;
    Ok(Kinds { provable, logic })
}

fn is_shown(alloc: Global, db: &Database, kinds: &Kinds, show: Show) -> bool {
    match show {
        Show::Rows(rows) => rows_hold(alloc, db, kinds, rows),
        Show::LongFormulas => long_formulas_are_refused(alloc, db, kinds),
        Show::Bound => one_is_bound(alloc, db, kinds),
        Show::WorkSize => heavy_sheets_are_refused(alloc, db, kinds),
        Show::Searches(rows) => searches_hold(alloc, db, rows),
        Show::Selections => selections_hold(alloc, db, kinds),
    }
}

fn holds_with(alloc: Global, text: &[u8], kinds: &Kinds, show: Show) -> bool {
    if text.len() as u64 > MOST_DATABASE_BYTES {
        return false;
    }
    match open_database(alloc, text, kinds) {
        Ok(db) => is_shown(alloc, &db, kinds, show),
        Err(_) => false,
    }
}

/// Whether it is shown over the database of this text.
pub(crate) fn holds(alloc: Global, text: &[u8], show: Show) -> bool {
    match kinds(alloc) {
        Ok(kinds) => holds_with(alloc, text, &kinds, show),
        Err(_) => false,
    }
}
