//! Unifying a worksheet with its steps filled.

ghost use Rattle.std.specs.Prelude.{◌≡◌, ℕ, List, None, IfOk};
ghost use Rattle.mm_database.specs.Books.{database_of};
ghost use Rattle.mm_database.specs.Opened.{IsOpened};
ghost use Rattle.mm_frames.specs.Contents.{contents_of};
ghost use Rattle.mm_model.specs.Statements.{database_fault};
ghost use Rattle.mmp_run.specs.Filled.{IsFilled};
ghost use Rattle.mmp_run.specs.Refused.{IsTextEnding};
ghost use Rattle.sheet_filling.specs.Filling.{IsFilledText};
ghost use Rattle.sheet_unify.specs.Answered.{IsWritten, SaysSheet};
ghost use Rattle.sheet_unify.specs.Made.{HasText, IsSaid};
ghost use Rattle.written_model.specs.Written.{Writing, Answers, wrote};

use crate::unify::{end_fault, end_outcome};
use call_answers::Ending;
use headline_laws::answer_is_filled;
use mm_base::{Bytes, Memory, Status};
use mm_database::{Database, open_frames};
use mm_frames::Frames;
use sheet_filling::{WrittenFormulas, filled_text, filling_is_the_answer};
use sheet_text::Sheet;
use sheet_unify::{Outcome, unify_read, unify_sheet};
use std::alloc::Global;
use written_model::Options;

// The text of what came of a worksheet with its steps filled.
fn text_of(
    alloc: Global,
    db: &Database,
    outcome: Outcome,
    options: &Options,
) -> Result<Bytes, Memory>
    ensures { (text : List ℕ) (w : Writing) → IsOpened options.now.kinds text db.now
        → IsWritten (database_of options.now.kinds text db.now.rows db.now.parsed) options.now w outcome
        → IfOk result (IsFilledText (database_of options.now.kinds text db.now.rows db.now.parsed) options.now w) }
{
    let Outcome {
        place,
        sheet,
        given,
        trees,
        ..
    } = outcome;
    let written = WrittenFormulas {
        place,
        mode: options.dv,
        given: &given,
        trees: trees.as_slice(),
    };
    filled_text(alloc, db, &written, sheet)
}

// Unifies the text of a worksheet with its steps filled.
fn end_text(
    alloc: Global,
    db: &Database,
    filled: &[u8],
    options: &Options,
) -> Result<Ending, Memory>
    requires { HasText options.now.kinds db.now }
    ensures answer { (text sheet_text : List ℕ) (w : Writing) → IsOpened options.now.kinds text db.now
        → Answers (database_of options.now.kinds text db.now.rows db.now.parsed) sheet_text options.now (wrote w)
        → IsFilledText (database_of options.now.kinds text db.now.rows db.now.parsed) options.now w filled.now
        → IfOk result (IsFilled options.now text sheet_text) }
    ensures ending { IfOk result IsTextEnding }
{
    answer_is_filled();
    filling_is_the_answer();
    match unify_sheet(alloc, db, filled, options) {
        Ok(outcome) => end_outcome(alloc, db, outcome),
        Err(fault) => end_fault(alloc, Status::Sheet, fault),
    }
}

// Fills the steps of what came of a worksheet, and unifies what it becomes.
fn end_written(
    alloc: Global,
    db: &Database,
    outcome: Outcome,
    options: &Options,
) -> Result<Ending, Memory>
    requires { HasText options.now.kinds db.now }
    ensures answer { (text sheet_text : List ℕ) (w : Writing) → IsOpened options.now.kinds text db.now
        → Answers (database_of options.now.kinds text db.now.rows db.now.parsed) sheet_text options.now (wrote w)
        → IsWritten (database_of options.now.kinds text db.now.rows db.now.parsed) options.now w outcome
        → IfOk result (IsFilled options.now text sheet_text) }
    ensures ending { IfOk result IsTextEnding }
{
    let filled = text_of(alloc, db, outcome, options)?;
    end_text(alloc, db, filled.as_slice(), options)
}

// Unifies a worksheet over an opened database, fills its steps, and unifies what it becomes.
fn end_opened(
    alloc: Global,
    db: &Database,
    sheet: &Sheet,
    options: &Options,
) -> Result<Ending, Memory>
    requires opened { HasText options.now.kinds db.now }
    requires said { IsSaid sheet.now }
    ensures answer { (text sheet_text : List ℕ) → IsOpened options.now.kinds text db.now → SaysSheet sheet_text sheet.now
        → IfOk result (IsFilled options.now text sheet_text) }
    ensures ending { IfOk result IsTextEnding }
{
    answer_is_filled();
    match unify_read(alloc, db, sheet, options) {
        Ok(outcome) => end_written(alloc, db, outcome, options),
        Err(fault) => end_fault(alloc, Status::Sheet, fault),
    }
}

/// Opens the database of a text without a fault, from the statements that it has, and unifies a worksheet over it with its
/// steps filled.
pub fn end_auto(
    alloc: Global,
    text: &[u8],
    frames: Frames,
    sheet: &Sheet,
    options: &Options,
) -> Result<Ending, Memory>
    requires contents { frames ≡ contents_of text.now }
    requires no_fault { database_fault text.now ≡ None }
    requires said { IsSaid sheet.now }
    ensures answer { (sheet_text : List ℕ) → SaysSheet sheet_text sheet.now → IfOk result (IsFilled options.now text.now sheet_text) }
    ensures ending { IfOk result IsTextEnding }
{
    match open_frames(alloc, text, frames, &options.kinds) {
        Ok(database) => end_opened(alloc, &database, sheet, options),
        Err(_) => Err(Memory),
    }
}
