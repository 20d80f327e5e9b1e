//! Printing an accepted proof as a finished worksheet.

ghost use Rattle.std.specs.Prelude.{◌≡◌, ℕ, List, None, Some, IfOk, IfSome, slice_index_or, []};
ghost use Rattle.call_answers.specs.Exports.{ShowsFinished, no_worksheet_line};
ghost use Rattle.export_model.specs.Exported.{export_text};
ghost use Rattle.mm_database.specs.Books.{database_of};
ghost use Rattle.mm_database.specs.Opened.{IsOpened};
ghost use Rattle.mm_frames.specs.Contents.{contents_of};
ghost use Rattle.mm_model.specs.declared.frames.Frame.{Frame};
ghost use Rattle.mm_model.specs.Frames.{frame_of};
ghost use Rattle.mm_model.specs.Statements.{database_fault, statements};
ghost use Rattle.mmp_run.specs.Exported.{IsExported};
ghost use Rattle.mmp_run.specs.Refusals.{refusal};
ghost use Rattle.mmp_run.specs.Refused.{IsTextEnding};
ghost use Rattle.mmp_run.specs.Verdicts.{IsAcceptedProof};
ghost use Rattle.proof_export.specs.Proofs.{HasProof};
ghost use Rattle.proof_model.specs.DatabaseProofs.{theorem_of_frame};
ghost use Rattle.sheet_unify.specs.Answered.{IsWritten};
ghost use Rattle.written_model.specs.declared.options.Options.{Options};
ghost use Rattle.written_model.specs.Written.{Writing};

use crate::endings::refuse;
use crate::unify::{end_fault, end_outcome};
use crate::verify::{Proof, Verdict, end_refusal, judge};
use call_answers::Ending;
use headline_laws::answer_is_exported;
use mm_base::{Bytes, Kinds, Memory, Status};
use mm_database::{Database, open_frames};
use mm_frames::Frames;
use proof_export::export_sheet;
use sheet_print::layout;
use sheet_unify::{Outcome, unify_sheet};
use std::alloc::Global;
use written_model::Options;

// The worksheet of a theorem of the database and of its proof.
fn worksheet(alloc: Global, db: &Database, kinds: &Kinds, proof: &Proof) -> Result<Bytes, Memory>
    requires { HasProof kinds.now db.now proof.now.label proof.now.code }
    ensures { (text : List ℕ) (f : Frame) → IsOpened kinds.now text db.now → frame_of (statements text) proof.now.label ≡ Some f → IfOk result (λ sheet. sheet
        ≡ export_text (database_of kinds.now text db.now.rows db.now.parsed) (theorem_of_frame (statements text) f) (slice_index_or db.now.contents.labels proof.now.label.0 []) proof.now.code) }
{
    let sheet = export_sheet(alloc, db, kinds, proof.label, &proof.code)?;
    layout(alloc, &sheet, None)
}

// The ending that says that the proof of a theorem gives no finished worksheet.
fn refuse_worksheet(alloc: Global, name: &str) -> Result<Ending, Memory>
    ensures { IfOk result (λ end. end ≡ refusal Status.Proof (no_worksheet_line name.now)) }
{
    let Ok(text) = format!(in alloc; "no worksheet {name}") else {
        return Err(Memory);
    };
    refuse(alloc, Status::Proof, text.as_str())
}

// The ending for what came of the worksheet of a theorem: it is written where it is finished.
fn end_worksheet(
    alloc: Global,
    db: &Database,
    name: &str,
    outcome: Outcome,
) -> Result<Ending, Memory>
    ensures written { (options : Options) (text : List ℕ) (w : Writing) → IsOpened options.kinds text db.now
        → IsWritten (database_of options.kinds text db.now.rows db.now.parsed) options w outcome
        → IfOk result (ShowsFinished (database_of options.kinds text db.now.rows db.now.parsed) options name.now w w.finished) }
    ensures ending { IfOk result IsTextEnding }
{
    if outcome.finished {
        end_outcome(alloc, db, outcome)
    } else {
        refuse_worksheet(alloc, name)
    }
}

// Exports an accepted proof of a theorem over the opened database.
fn end_opened(
    alloc: Global,
    db: &Database,
    options: &Options,
    name: &str,
    proof: &Proof,
) -> Result<Ending, Memory>
    requires { HasProof options.now.kinds db.now proof.now.label proof.now.code }
    ensures answer { (text : List ℕ) → IsOpened options.now.kinds text db.now → IsAcceptedProof text name.now proof.now.label proof.now.code
        → IfOk result (IsExported options.now text name.now) }
    ensures ending { IfOk result IsTextEnding }
{
    answer_is_exported();
    let text = worksheet(alloc, db, &options.kinds, proof)?;
    match unify_sheet(alloc, db, text.as_slice(), options) {
        Ok(outcome) => end_worksheet(alloc, db, name, outcome),
        Err(fault) => end_fault(alloc, Status::Proof, fault),
    }
}

// Opens the database, and exports an accepted proof of a theorem.
fn end_accepted(
    alloc: Global,
    text: &[u8],
    frames: Frames,
    options: &Options,
    name: &str,
    proof: &Proof,
) -> Result<Ending, Memory>
    requires contents { frames ≡ contents_of text.now }
    requires no_fault { database_fault text.now ≡ None }
    requires accepted { IsAcceptedProof text.now name.now proof.now.label proof.now.code }
    ensures answer { IfOk result (IsExported options.now text.now name.now) }
    ensures ending { IfOk result IsTextEnding }
{
    match open_frames(alloc, text, frames, &options.kinds) {
        Ok(db) => end_opened(alloc, &db, options, name, proof),
        Err(_) => Err(Memory),
    }
}

/// Exports the proof of a theorem of a database without a fault, from the statements that it has.
pub fn end_proof(
    alloc: Global,
    text: &[u8],
    frames: Frames,
    options: &Options,
    name: &str,
) -> Result<Ending, Memory>
    requires contents { frames ≡ contents_of text.now }
    requires no_fault { database_fault text.now ≡ None }
    ensures answer { IfOk result (IsExported options.now text.now name.now) }
    ensures ending { IfOk result IsTextEnding }
{
    match judge(alloc, text, &frames, name.as_bytes())? {
        Verdict::Accepted(proof) => end_accepted(alloc, text, frames, options, name, &proof),
        Verdict::Refused(refusal) => end_refusal(alloc, name, refusal),
    }
}
