//! Unifying a worksheet over an opened database.

ghost use Rattle.std.specs.Prelude.{◌≡◌, ℕ, List, None, IfOk, IfSome, IsSome};
ghost use Rattle.std.specs.List.{flat_map};
ghost use Rattle.call_answers.specs.Endings.{Shows, status_of as status_of_end};
ghost use Rattle.mm_base.specs.declared.kinds.Kinds.{Kinds};
ghost use Rattle.mm_database.specs.Books.{database_of};
ghost use Rattle.mm_database.specs.Opened.{IsOpened};
ghost use Rattle.mm_frames.specs.Contents.{contents_of};
ghost use Rattle.mm_model.specs.Statements.{database_fault};
ghost use Rattle.mmp_run.specs.Refusals.{refusal};
ghost use Rattle.mmp_run.specs.Refused.{IsTextEnding, IsUnified};
ghost use Rattle.fault_lines.specs.FaultLines.{refusal_line};
ghost use Rattle.sheet_text.specs.Layout.{ended};
ghost use Rattle.sheet_unify.specs.Answered.{IsWritten, SaysSheet, refusal_of};
ghost use Rattle.sheet_unify.specs.Made.{HasText, IsSaid};
ghost use Rattle.written_model.specs.declared.options.Options.{Options};
ghost use Rattle.written_model.specs.Report.{report_lines};
ghost use Rattle.written_model.specs.Written.{Writing};

use crate::sheet::refuse_sheet;
use call_answers::Ending;
use headline_laws::answer_is_unified;
use mm_base::{Bytes, List, Memory, Status};
use mm_database::{Database, open_frames};
use mm_frames::Frames;
use sheet_text::Sheet;
use sheet_unify::{Outcome, UnifyFault, report_lines, unify_read};
use std::alloc::Global;
use written_model::Options;

// The lines of the report, each ended by a line feed.
fn report_text(alloc: Global, lines: &[Bytes]) -> Result<Vec<u8>, Memory>
    ensures { IfOk result (λ text. text.items ≡ flat_map ended lines.now) }
{
    let mut text = Vec::new(alloc);
    for line in lines {
        text.extend_from_slice(line.as_slice())?;
        text.push(b'\n')?;
    }
    Ok(text)
}

/// The status of a written worksheet.
pub fn status_of(finished: bool) -> Status
    ensures { result ≡ status_of_end finished }
{
    if finished {
        Status::Finished
    } else {
        Status::Unfinished
    }
}

/// The report on an outcome over this database, as it goes to the log.
pub fn report_log(alloc: Global, db: &Database, outcome: &Outcome) -> Result<Bytes, Memory>
    ensures { (kinds : Kinds) (text : List ℕ) → IsOpened kinds text db.now
        → IfOk result (λ log. log ≡ flat_map ended (report_lines (database_of kinds text db.now.rows db.now.parsed) outcome.now.report outcome.now.finished)) }
{
    let lines = report_lines(alloc, db, &outcome.report, outcome.finished)?;
    let text = report_text(alloc, lines.as_slice())?;
    Ok(List::from_vec(text))
}

/// The ending that writes an outcome over this database.
pub fn end_outcome(alloc: Global, db: &Database, outcome: Outcome) -> Result<Ending, Memory>
    ensures written { (options : Options) (text : List ℕ) (w : Writing) → IsOpened options.kinds text db.now
        → IsWritten (database_of options.kinds text db.now.rows db.now.parsed) options w outcome
        → IfOk result (Shows (database_of options.kinds text db.now.rows db.now.parsed) options w) }
    ensures ending { IfOk result IsTextEnding }
{
    Ok(Ending {
        log: report_log(alloc, db, &outcome)?,
        out: outcome.text,
        status: status_of(outcome.finished),
    })
}

/// The ending with this status that tells why a worksheet is not written, unless memory ran out.
pub fn end_fault(alloc: Global, status: Status, fault: UnifyFault) -> Result<Ending, Memory>
    ensures told { IfOk result (λ end. IsSome (refusal_of fault)) }
    ensures line { IfOk result (λ end. IfSome (refusal_of fault) (λ r. end ≡ refusal status (refusal_line r))) }
{
    match fault {
        UnifyFault::Memory => Err(Memory),
        _ => refuse_sheet(alloc, status, &fault),
    }
}

// Unifies a worksheet over an opened database.
fn end_opened(
    alloc: Global,
    database: &Database,
    sheet: &Sheet,
    options: &Options,
) -> Result<Ending, Memory>
    requires opened { HasText options.now.kinds database.now }
    requires said { IsSaid sheet.now }
    ensures answer { (text sheet_text : List ℕ) → IsOpened options.now.kinds text database.now → SaysSheet sheet_text sheet.now
        → IfOk result (IsUnified options.now text sheet_text) }
    ensures ending { IfOk result IsTextEnding }
{
    answer_is_unified();
    match unify_read(alloc, database, sheet, options) {
        Ok(outcome) => end_outcome(alloc, database, outcome),
        Err(fault) => end_fault(alloc, Status::Sheet, fault),
    }
}

/// Opens the database of a text without a fault, from the statements that it has, and unifies a worksheet over it.
pub fn end_sheet(
    alloc: Global,
    text: &[u8],
    frames: Frames,
    sheet: &Sheet,
    options: &Options,
) -> Result<Ending, Memory>
    requires contents { frames ≡ contents_of text.now }
    requires no_fault { database_fault text.now ≡ None }
    requires said { IsSaid sheet.now }
    ensures answer { (sheet_text : List ℕ) → SaysSheet sheet_text sheet.now → IfOk result (IsUnified options.now text.now sheet_text) }
    ensures ending { IfOk result IsTextEnding }
{
    match open_frames(alloc, text, frames, &options.kinds) {
        Ok(database) => end_opened(alloc, &database, sheet, options),
        Err(_) => Err(Memory),
    }
}
