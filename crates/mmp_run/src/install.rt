//! Putting the theorem of a worksheet into the text of its database.

ghost use Rattle.std.specs.Prelude.{◌≡◌, ◌<◌, ◌≤◌, ℕ, List, None, Some, IfOk, IfSome, IsSome, length};
ghost use Rattle.call_answers.specs.PutsIn.{ShowsReport, ShowsText};
ghost use Rattle.install_model.specs.InstallAnswers.{theorem_there_line, database_too_large_line};
ghost use Rattle.install_model.specs.Installed.{installed_text};
ghost use Rattle.mm_base.specs.Limits.{most_database_bytes};
ghost use Rattle.mm_database.specs.Books.{database_of};
ghost use Rattle.mm_database.specs.Opened.{IsOpened};
ghost use Rattle.mm_frames.specs.Contents.{contents_of};
ghost use Rattle.mm_model.specs.Statements.{database_fault};
ghost use Rattle.mmp_run.specs.Installed.{IsInstalled, TellsInstall, TellsText};
ghost use Rattle.mmp_run.specs.Refusals.{refusal};
ghost use Rattle.mmp_run.specs.Refused.{IsTextEnding};
ghost use Rattle.sheet_theorem.specs.Outcomes.{IsOutcomeOver};
ghost use Rattle.sheet_unify.specs.Answered.{IsWritten, SaysSheet};
ghost use Rattle.sheet_unify.specs.Made.{HasText, IsSaid};
ghost use Rattle.written_model.specs.declared.options.Options.{Options};
ghost use Rattle.written_model.specs.Written.{Writing};

use crate::endings::refuse;
use crate::unify::{end_fault, report_log};
use call_answers::Ending;
use db_install::{InstallFault, install};
use kept_laws::installing_keeps_all;
use mm_base::{Bytes, List, Memory, Status};
use mm_database::{Database, open_frames};
use mm_frames::Frames;
use sheet_text::Sheet;
use sheet_theorem::{new_theorem, outcomes_have_places};
use sheet_unify::{Outcome, unify_read};
use std::alloc::Global;
use written_model::Options;

// The ending that tells that the theorem is one of the database.
fn refuse_theorem(alloc: Global) -> Result<Ending, Memory>
    ensures { IfOk result (λ end. end ≡ refusal Status.Sheet theorem_there_line) }
{
    refuse(
        alloc,
        Status::Sheet,
        "sheet error 80 TheoremThere at line 1",
    )
}

// The ending that tells that the text with the theorem is too large.
fn refuse_text(alloc: Global, bytes: u64) -> Result<Ending, Memory>
    ensures { IfOk result (λ end. end ≡ refusal Status.Sheet (database_too_large_line bytes)) }
{
    let Ok(text) = format!(in alloc; "sheet error 81 DatabaseTooLarge bytes {bytes}") else {
        return Err(Memory);
    };
    refuse(alloc, Status::Sheet, text.as_str())
}

// The ending that tells that a worksheet is not finished.
fn end_unfinished(alloc: Global, db: &Database, outcome: &Outcome) -> Result<Ending, Memory>
    ensures written { (options : Options) (text : List ℕ) (w : Writing) → IsOpened options.kinds text db.now
        → IsWritten (database_of options.kinds text db.now.rows db.now.parsed) options w outcome.now
        → IfOk result (ShowsReport (database_of options.kinds text db.now.rows db.now.parsed) options w) }
    ensures ending { IfOk result IsTextEnding }
{
    Ok(Ending {
        out: List::from_vec(Vec::new(alloc)),
        log: report_log(alloc, db, outcome)?,
        status: Status::Unfinished,
    })
}

// The ending that writes the text with the theorem of a worksheet.
fn end_text(alloc: Global, db: &Database, outcome: &Outcome, text: Bytes) -> Result<Ending, Memory>
    ensures written { (options : Options) (database : List ℕ) (w : Writing) → IsOpened options.kinds database db.now
        → IsWritten (database_of options.kinds database db.now.rows db.now.parsed) options w outcome.now
        → IfOk result (ShowsText (database_of options.kinds database db.now.rows db.now.parsed) options w text) }
    ensures ending { IfOk result IsTextEnding }
{
    Ok(Ending {
        log: report_log(alloc, db, outcome)?,
        out: text,
        status: Status::Finished,
    })
}

// Puts the theorem of a finished worksheet into the text of the database, where the whole is not too large.
fn end_finished(
    alloc: Global,
    db: &Database,
    text: &[u8],
    outcome: &Outcome,
) -> Result<Ending, Memory>
    requires of_text { db.now.contents ≡ contents_of text.now }
    requires over { IsOutcomeOver db.now outcome.now }
    ensures written { (options : Options) (w : Writing) → IsOpened options.kinds text.now db.now
        → IsWritten (database_of options.kinds text.now db.now.rows db.now.parsed) options w outcome.now
        → IfOk result (TellsText (database_of options.kinds text.now db.now.rows db.now.parsed) options w text.now) }
    ensures ending { IfOk result IsTextEnding }
{
    outcomes_have_places();
    let theorem = new_theorem(alloc, db, outcome)?;
    match install(alloc, text, db.frames(), outcome.place, &theorem) {
        Ok(whole) => end_text(alloc, db, outcome, whole),
        Err(InstallFault::TooLarge(bytes)) => refuse_text(alloc, bytes),
        Err(InstallFault::Memory) => Err(Memory),
    }
}

// The ending for what came of a worksheet.
fn end_written(
    alloc: Global,
    db: &Database,
    text: &[u8],
    outcome: &Outcome,
) -> Result<Ending, Memory>
    requires of_text { db.now.contents ≡ contents_of text.now }
    requires over { IsOutcomeOver db.now outcome.now }
    ensures written { (options : Options) (w : Writing) → IsOpened options.kinds text.now db.now
        → IsWritten (database_of options.kinds text.now db.now.rows db.now.parsed) options w outcome.now
        → IfOk result (TellsInstall (database_of options.kinds text.now db.now.rows db.now.parsed) options w text.now) }
    ensures ending { IfOk result IsTextEnding }
{
    if outcome.existing {
        return refuse_theorem(alloc);
    }
    if !outcome.finished {
        return end_unfinished(alloc, db, outcome);
    }
    end_finished(alloc, db, text, outcome)
}

// Puts the theorem of a worksheet into the text that the database was opened from.
fn end_opened(
    alloc: Global,
    db: &Database,
    text: &[u8],
    sheet: &Sheet,
    options: &Options,
) -> Result<Ending, Memory>
    requires opened { IsOpened options.now.kinds text.now db.now }
    requires said { IsSaid sheet.now }
    ensures answer { (sheet_text : List ℕ) → SaysSheet sheet_text sheet.now → IfOk result (IsInstalled options.now text.now sheet_text) }
    ensures ending { IfOk result IsTextEnding }
{
    installing_keeps_all();
    match unify_read(alloc, db, sheet, options) {
        Ok(outcome) => end_written(alloc, db, text, &outcome),
        Err(fault) => end_fault(alloc, Status::Sheet, fault),
    }
}

/// Opens the database of a text without a fault, from the statements that it has, and puts the theorem of a worksheet into it.
pub fn end_put_in(
    alloc: Global,
    text: &[u8],
    frames: Frames,
    sheet: &Sheet,
    options: &Options,
) -> Result<Ending, Memory>
    requires contents { frames ≡ contents_of text.now }
    requires no_fault { database_fault text.now ≡ None }
    requires said { IsSaid sheet.now }
    ensures answer { (sheet_text : List ℕ) → SaysSheet sheet_text sheet.now → IfOk result (IsInstalled options.now text.now sheet_text) }
    ensures ending { IfOk result IsTextEnding }
{
    match open_frames(alloc, text, frames, &options.kinds) {
        Ok(database) => end_opened(alloc, &database, text, sheet, options),
        Err(_) => Err(Memory),
    }
}
