//! Telling which assertions fit a step of a worksheet.

ghost use Rattle.std.specs.Prelude.{◌≡◌, ℕ, List, None, IfOk};
ghost use Rattle.call_answers.specs.Asks.{Asks, GivesSelection, ShowsLabels};
ghost use Rattle.mm_base.specs.declared.kinds.Kinds.{Kinds};
ghost use Rattle.mm_database.specs.Books.{database_of};
ghost use Rattle.mm_database.specs.Opened.{IsOpened};
ghost use Rattle.mm_frames.specs.Contents.{contents_of};
ghost use Rattle.mm_model.specs.Book.{Database as DatabaseOf};
ghost use Rattle.mm_model.specs.Statements.{database_fault};
ghost use Rattle.mmp_run.specs.Asked.{IsAsked};
ghost use Rattle.mmp_run.specs.Refusals.{refusal};
ghost use Rattle.mmp_run.specs.Refused.{IsTextEnding};
ghost use Rattle.ref_select.specs.Selecting.{IsOfWriting, answer_of};
ghost use Rattle.select_model.specs.Selected.{no_such_step_line, step_open_line};
ghost use Rattle.sheet_unify.specs.Answered.{IsWritten, SaysSheet};
ghost use Rattle.sheet_unify.specs.Made.{HasText, IsSaid};
ghost use Rattle.written_model.specs.Written.{Writing, Answers, wrote};

use crate::endings::refuse;
use crate::unify::end_fault;
use call_answers::Ending;
use mm_base::{Label, List, Memory, Status};
use mm_database::{Database, open_frames};
use mm_frames::Frames;
use ref_select::{Selection, WrittenSheet, labels_text, select_step, selection_is_the_answer};
use sheet_text::Sheet;
use sheet_unify::{Outcome, unify_read};
use std::alloc::Global;
use written_model::{DvMode, Options};

// The ending that tells that no step has this name.
fn refuse_name(alloc: Global, step: &str) -> Result<Ending, Memory>
    ensures { IfOk result (λ end. end ≡ refusal Status.Sheet (no_such_step_line step.now)) }
{
    let Ok(text) = format!(in alloc; "sheet error 82 NoSuchStep step {step}") else {
        return Err(Memory);
    };
    refuse(alloc, Status::Sheet, text.as_str())
}

// The ending that tells that the step of this name is open.
fn refuse_open(alloc: Global, step: &str) -> Result<Ending, Memory>
    ensures { IfOk result (λ end. end ≡ refusal Status.Sheet (step_open_line step.now)) }
{
    let Ok(text) = format!(in alloc; "sheet error 83 StepOpen step {step}") else {
        return Err(Memory);
    };
    refuse(alloc, Status::Sheet, text.as_str())
}

// The ending that lists labels of the database.
fn end_labels(alloc: Global, db: &Database, labels: &[Label]) -> Result<Ending, Memory>
    ensures shows { (kinds : Kinds) (text : List ℕ) → IsOpened kinds text db.now
        → IfOk result (ShowsLabels (database_of kinds text db.now.rows db.now.parsed) labels.now) }
    ensures ending { IfOk result IsTextEnding }
{
    Ok(Ending {
        out: labels_text(alloc, db, labels)?,
        log: List::from_vec(Vec::new(alloc)),
        status: Status::Finished,
    })
}

// The ending for what is answered of the step of this name.
fn end_selection(
    alloc: Global,
    db: &Database,
    selection: &Selection,
    step: &str,
) -> Result<Ending, Memory>
    ensures gives { (kinds : Kinds) (text : List ℕ) → IsOpened kinds text db.now
        → IfOk result (GivesSelection (database_of kinds text db.now.rows db.now.parsed) step.now (answer_of selection.now)) }
    ensures ending { IfOk result IsTextEnding }
{
    match selection {
        Selection::NoSuchStep => refuse_name(alloc, step),
        Selection::StepOpen => refuse_open(alloc, step),
        Selection::Fits(labels) => end_labels(alloc, db, labels.as_slice()),
    }
}

// The worksheet as it is written, of what came of one.
fn written_sheet<'o>(outcome: &'o Outcome, mode: DvMode) -> WrittenSheet<'o, 'o, 'o>
    ensures { (db : DatabaseOf) (options : Options) (w : Writing) → mode ≡ options.dv → IsWritten db options w outcome.now → IsOfWriting db options w result }
{
    WrittenSheet {
        place: outcome.place,
        mode,
        given: &outcome.given,
        items: outcome.sheet.items.as_slice(),
        trees: outcome.trees.as_slice(),
    }
}

// The ending for the step of this name in what came of a worksheet.
fn end_written(
    alloc: Global,
    db: &Database,
    outcome: &Outcome,
    options: &Options,
    step: &str,
) -> Result<Ending, Memory>
    ensures asks { (text sheet_text : List ℕ) (w : Writing) → IsOpened options.now.kinds text db.now
        → Answers (database_of options.now.kinds text db.now.rows db.now.parsed) sheet_text options.now (wrote w)
        → IsWritten (database_of options.now.kinds text db.now.rows db.now.parsed) options.now w outcome.now
        → IfOk result (Asks (database_of options.now.kinds text db.now.rows db.now.parsed) options.now sheet_text step.now) }
    ensures ending { IfOk result IsTextEnding }
{
    selection_is_the_answer();
    let written = written_sheet(outcome, options.dv);
    let selection = select_step(alloc, db, &written, step.as_bytes())?;
    end_selection(alloc, db, &selection, step)
}

// Unifies a worksheet over an opened database, and tells which assertions fit its step of this name.
fn end_opened(
    alloc: Global,
    db: &Database,
    sheet: &Sheet,
    options: &Options,
    step: &str,
) -> Result<Ending, Memory>
    requires opened { HasText options.now.kinds db.now }
    requires said { IsSaid sheet.now }
    ensures answer { (text sheet_text : List ℕ) → IsOpened options.now.kinds text db.now → SaysSheet sheet_text sheet.now
        → IfOk result (IsAsked options.now text sheet_text step.now) }
    ensures ending { IfOk result IsTextEnding }
{
    match unify_read(alloc, db, sheet, options) {
        Ok(outcome) => end_written(alloc, db, &outcome, options, step),
        Err(fault) => end_fault(alloc, Status::Sheet, fault),
    }
}

/// Opens the database of a text without a fault, from the statements that it has, and tells which assertions fit the step of
/// a name in a worksheet over it.
pub fn end_step(
    alloc: Global,
    text: &[u8],
    frames: Frames,
    sheet: &Sheet,
    options: &Options,
    step: &str,
) -> Result<Ending, Memory>
    requires contents { frames ≡ contents_of text.now }
    requires no_fault { database_fault text.now ≡ None }
    requires said { IsSaid sheet.now }
    ensures answer { (sheet_text : List ℕ) → SaysSheet sheet_text sheet.now → IfOk result (IsAsked options.now text.now sheet_text step.now) }
    ensures ending { IfOk result IsTextEnding }
{
    match open_frames(alloc, text, frames, &options.kinds) {
        Ok(database) => end_opened(alloc, &database, sheet, options, step),
        Err(_) => Err(Memory),
    }
}
