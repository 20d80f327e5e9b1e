ghost use Rattle.std.specs.Prelude.{ℕ, List as ListOf, IfOk, IfErr};
ghost use Rattle.mm_database.specs.Books.{database_of};
ghost use Rattle.mm_database.specs.Opened.{IsOpened};
ghost use Rattle.sheet_unify.specs.Answered.{IsOutcome, IsFaultOf, SaysSheet};
ghost use Rattle.sheet_unify.specs.Made.{HasText, IsSaid, HasTexts, ForTexts};

use crate::drafting::written_items;
use crate::ending::outcome_of;
use crate::faults::UnifyFault;
use crate::outcome::Outcome;
use mm_base::MOST_SHEET_BYTES;
use mm_database::Database;
use sheet_bind::bind_sheet;
use sheet_read::read_sheet;
use sheet_text::Sheet;
use solve_model::Bound;
use std::alloc::Global;
use written_model::Options;

/// What comes of a worksheet that is bound over its database.
fn unify_bound(
    alloc: Global,
    db: &Database,
    sheet: &Sheet,
    bound: &Bound,
    options: &Options,
) -> Result<Outcome, UnifyFault>
    requires texts { HasTexts options.now.kinds db.now sheet.now bound.now }
    ensures outcome { ForTexts options.now.kinds db.now sheet.now bound.now (λ d text. IfOk result (IsOutcome d text options.now)) }
    ensures fault { ForTexts options.now.kinds db.now sheet.now bound.now (λ d text. IfErr result (IsFaultOf d text options.now)) }
{
    match written_items(alloc, db, sheet, bound, options) {
        Ok(items) => outcome_of(alloc, db, sheet, bound, options, items),
        Err(fault) => Err(fault),
    }
}

/// Unifies a worksheet that was read over the database that was opened with the kinds of the options. It takes a pass over the
/// statements of the database, and beyond that time that depends on the worksheet, on the assertions that it names and on
/// those that a search looks at.
///
/// # Errors
/// The first fault against the database, and then the first of what is to be written, in this order: a formula that is too
/// long, one that has two trees, the work size, the labels of a normal proof, the bytes; and `Memory` where memory runs out.
pub fn unify_read(
    alloc: Global,
    db: &Database,
    sheet: &Sheet,
    options: &Options,
) -> Result<Outcome, UnifyFault>
    requires opened { HasText options.now.kinds db.now }
    requires said { IsSaid sheet.now }
    ensures outcome { (database text : ListOf ℕ) → IsOpened options.now.kinds database db.now → SaysSheet text sheet.now
        → IfOk result (IsOutcome (database_of options.now.kinds database db.now.rows db.now.parsed) text options.now) }
    ensures fault { (database text : ListOf ℕ) → IsOpened options.now.kinds database db.now → SaysSheet text sheet.now
        → IfErr result (IsFaultOf (database_of options.now.kinds database db.now.rows db.now.parsed) text options.now) }
{
    match bind_sheet(alloc, db, &options.kinds, sheet) {
        Ok(bound) => unify_bound(alloc, db, sheet, &bound, options),
        Err(fault) => Err(UnifyFault::from(fault)),
    }
}

/// Reads the text of a worksheet, and unifies it over the database that was opened with the kinds of the options.
///
/// # Errors
/// `TooBig` where the text has more than 2^24 bytes; then the first fault of the text; then those of `unify_read`.
pub fn unify_sheet(
    alloc: Global,
    db: &Database,
    text: &[u8],
    options: &Options,
) -> Result<Outcome, UnifyFault>
    requires opened { HasText options.now.kinds db.now }
    ensures outcome { (database : ListOf ℕ) → IsOpened options.now.kinds database db.now
        → IfOk result (IsOutcome (database_of options.now.kinds database db.now.rows db.now.parsed) text.now options.now) }
    ensures fault { (database : ListOf ℕ) → IsOpened options.now.kinds database db.now
        → IfErr result (IsFaultOf (database_of options.now.kinds database db.now.rows db.now.parsed) text.now options.now) }
{
    if text.len() as u64 > MOST_SHEET_BYTES {
        return Err(UnifyFault::TooBig);
    }
    match read_sheet(alloc, text) {
        Ok(sheet) => unify_read(alloc, db, &sheet, options),
        Err(fault) => Err(UnifyFault::from(fault)),
    }
}
