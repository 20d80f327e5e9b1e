ghost use Rattle.std.specs.Prelude.{◌≡◌, true, IfOk, IfErr};
ghost use Rattle.std.specs.Option.{option_copied};
ghost use Rattle.sheet_proof.specs.Provable.{IsProvable};
ghost use Rattle.sheet_unify.specs.Answered.{IsOutcome, IsFaultOf};
ghost use Rattle.sheet_unify.specs.Ended.{AreChecked, ForBooks, IsEndFault, ForMadeOf, IsLaidOut, IsLargeFault, IsPrintedIn, IsPrintedWith, IsProof, IsProofFault, IsReported, IsSizeFault, IsSmall, IsStepFault, IsTextFault, outcome_from};
ghost use Rattle.sheet_unify.specs.Made.{HasTexts, ForTexts, IsDraft, IsDraftSound};
ghost use Rattle.step_naming.specs.Named.{AreWrittenShort};
ghost use Rattle.written_model.specs.Written.{written_sheet as sheet_of_writing};
ghost use Rattle.written_model.specs.WrittenSteps.{steps_in};
ghost use Rattle.written_steps.specs.Drafts.{AreSound, items_in};

use crate::faults::UnifyFault;
use crate::keeping::kept_of;
use crate::kept::Kept;
use crate::outcome::Outcome;
use crate::printed::Printed;
use answer_laws::answer_is_fixed;
use mm_base::{Bytes, List, MOST_SHEET_BYTES, MOST_WORK_SIZE, Memory};
use mm_database::Database;
use sheet_bind::sheet_theorem;
use sheet_print::{layout, layout_len};
use sheet_proof::written_proof;
use sheet_text::Sheet;
use sheet_writing::{ambiguous_step, written_sheet, written_size};
use solve_model::Bound;
use std::alloc::Global;
use step_report::{is_finished, report_of, written_pairs};
use written_model::{Options, ReportLine};
use written_steps::DraftItem;

/// The fault of the work size of what is to be written.
fn check_size(db: &Database, place: u32, items: &[DraftItem]) -> Result<(), UnifyFault>
    ensures small { IfOk result (λ _. IsSmall db.now place items.now) }
    ensures fault { IfErr result (IsSizeFault db.now place items.now) }
{
    let size = written_size(db, place, items);
    if size > MOST_WORK_SIZE {
        return Err(UnifyFault::TooMuchWritten(size));
    }
    Ok(())
}

/// The first fault of what is to be written, of those that its steps alone have.
fn check_items(
    alloc: Global,
    db: &Database,
    place: u32,
    items: &[DraftItem],
) -> Result<(), UnifyFault>
    requires { AreWrittenShort db.now (steps_in (items_in db.now items.now)) }
    ensures checked { IfOk result (λ _. AreChecked db.now place items.now) }
    ensures fault { IfErr result (IsStepFault db.now place items.now) }
{
    match ambiguous_step(alloc, db, place, items) {
        Err(_) => Err(UnifyFault::Memory),
        Ok(found) => match found {
            Some(name) => Err(UnifyFault::WrittenTwoTrees(name)),
            None => check_size(db, place, items),
        },
    }
}

/// The proof of a worksheet that is finished, as it is written, with these steps.
fn finished_proof(
    alloc: Global,
    db: &Database,
    options: &Options,
    written: &Sheet,
    items: List<DraftItem>,
) -> Result<Bytes, UnifyFault>
    requires sound { AreSound db.now items }
    requires provable { IsProvable db.now (steps_in (items_in db.now items)) }
    ensures proof { IfOk result (λ p. ForBooks db.now options.now (λ d. IsProof d options.now written.now (steps_in (items_in db.now items)) true (Some p))) }
    ensures fault { IfErr result (IsProofFault db.now options.now written.now (steps_in (items_in db.now items)) true) }
{
    match sheet_theorem(alloc, db, &options.kinds, written) {
        Err(_) => Err(UnifyFault::Memory),
        Ok(theorem) => match written_proof(alloc, db, options.style, &theorem, items) {
            Ok(proof) => Ok(proof),
            Err(fault) => Err(UnifyFault::from(fault)),
        },
    }
}

/// The proof of a finished worksheet; none of another.
fn proof_of(
    alloc: Global,
    db: &Database,
    options: &Options,
    written: &Sheet,
    items: List<DraftItem>,
    finished: bool,
) -> Result<Option<Bytes>, UnifyFault>
    requires sound { AreSound db.now items }
    requires provable { finished ≡ true → IsProvable db.now (steps_in (items_in db.now items)) }
    ensures proof { IfOk result (λ p. ForBooks db.now options.now (λ d. IsProof d options.now written.now (steps_in (items_in db.now items)) finished p)) }
    ensures fault { IfErr result (IsProofFault db.now options.now written.now (steps_in (items_in db.now items)) finished) }
{
    if !finished {
        return Ok(None);
    }
    match finished_proof(alloc, db, options, written, items) {
        Ok(proof) => Ok(Some(proof)),
        Err(fault) => Err(fault),
    }
}

fn bytes_of(text: &Option<Bytes>) -> Option<&[u8]>
    ensures { option_copied result ≡ text.now }
{
    match text {
        None => None,
        Some(text) => Some(text.as_slice()),
    }
}

/// The text of a worksheet with its proof.
fn laid_out(alloc: Global, written: &Sheet, proof: Option<&[u8]>) -> Result<Bytes, UnifyFault>
    ensures text { IfOk result (IsLaidOut written.now (option_copied proof.entry)) }
    ensures fault { IfErr result (IsLargeFault written.now (option_copied proof.entry)) }
{
    let length = layout_len(written, proof);
    if length > MOST_SHEET_BYTES {
        return Err(UnifyFault::TooLarge(length));
    }
    match layout(alloc, written, proof) {
        Ok(text) => Ok(text),
        Err(_) => Err(UnifyFault::Memory),
    }
}

/// The worksheet that is written, without its proof.
fn sheet_of(
    alloc: Global,
    db: &Database,
    sheet: &Sheet,
    bound: &Bound,
    options: &Options,
    items: &[DraftItem],
) -> Result<Sheet, Memory>
    requires { AreSound db.now items.now }
    ensures { IfOk result (λ s. ForMadeOf db.now options.now sheet.now bound.now items.now (λ d w. s ≡ sheet_of_writing d options.now w)) }
{
    let pairs = written_pairs(alloc, db, options.dv, &bound.pairs, items)?;
    let provable = options.kinds.provable.as_slice();
    written_sheet(alloc, db, provable, sheet, items, pairs.as_slice())
}

/// A written worksheet with its proof and its text.
fn with_text(alloc: Global, sheet: Sheet, proof: Option<Bytes>) -> Result<Printed, UnifyFault>
    ensures text { IfOk result (IsPrintedWith sheet proof) }
    ensures fault { IfErr result (IsLargeFault sheet proof) }
{
    match laid_out(alloc, &sheet, bytes_of(&proof)) {
        Ok(text) => Ok(Printed { sheet, proof, text }),
        Err(fault) => Err(fault),
    }
}

/// A written worksheet with these steps as it is printed, with its proof where it is finished.
fn printed(
    alloc: Global,
    db: &Database,
    options: &Options,
    written: Sheet,
    items: List<DraftItem>,
    finished: bool,
) -> Result<Printed, UnifyFault>
    requires sound { AreSound db.now items }
    requires provable { finished ≡ true → IsProvable db.now (steps_in (items_in db.now items)) }
    ensures printed { IfOk result (λ p. ForBooks db.now options.now (λ d. IsPrintedIn d options.now written (steps_in (items_in db.now items)) finished p)) }
    ensures fault { IfErr result (IsEndFault db.now options.now written (steps_in (items_in db.now items)) finished) }
{
    match proof_of(alloc, db, options, &written, items, finished) {
        Ok(proof) => with_text(alloc, written, proof),
        Err(fault) => Err(fault),
    }
}

/// The report on the written steps, and whether the worksheet is finished.
fn report_on(
    alloc: Global,
    db: &Database,
    bound: &Bound,
    options: &Options,
    items: &[DraftItem],
) -> Result<(List<ReportLine>, bool), Memory>
    requires { AreSound db.now items.now }
    ensures { IfOk result (λ r. IsReported db.now options.now bound.now items.now r.0 r.1) }
{
    let report = report_of(alloc, db, options.dv, &bound.pairs, items)?;
    let finished = is_finished(alloc, db, items, &report)?;
    Ok((report, finished))
}

fn outcome_from(
    bound: &Bound,
    printed: Printed,
    kept: Kept,
    report: List<ReportLine>,
    finished: bool,
) -> Outcome
    ensures { result ≡ outcome_from bound.now printed kept report finished }
{
    let Printed { sheet, proof, text } = printed;
    let Kept { given, trees } = kept;
    Outcome {
        place: bound.place,
        existing: bound.existing,
        sheet,
        proof,
        text,
        report,
        given,
        trees,
        finished,
    }
}

/// What comes of a worksheet that becomes these steps, where these have no fault.
fn outcome_with(
    alloc: Global,
    db: &Database,
    sheet: &Sheet,
    bound: &Bound,
    options: &Options,
    items: List<DraftItem>,
) -> Result<Outcome, UnifyFault>
    requires texts { HasTexts options.now.kinds db.now sheet.now bound.now }
    requires sound { IsDraftSound db.now items }
    requires drafted { ForTexts options.now.kinds db.now sheet.now bound.now (λ d text. IsDraft d db.now text options.now sheet.now bound.now items) }
    requires checked { AreChecked db.now bound.now.place items }
    ensures outcome { ForTexts options.now.kinds db.now sheet.now bound.now (λ d text. IfOk result (IsOutcome d text options.now)) }
    ensures fault { ForTexts options.now.kinds db.now sheet.now bound.now (λ d text. IfErr result (IsFaultOf d text options.now)) }
{
    answer_is_fixed();
    let steps = items.as_slice();
    match report_on(alloc, db, bound, options, steps) {
        Err(_) => Err(UnifyFault::Memory),
        Ok((report, finished)) => match sheet_of(alloc, db, sheet, bound, options, steps) {
            Err(_) => Err(UnifyFault::Memory),
            Ok(written) => match kept_of(alloc, bound, steps) {
                Err(_) => Err(UnifyFault::Memory),
                Ok(kept) => match printed(alloc, db, options, written, items, finished) {
                    Ok(printed) => Ok(outcome_from(bound, printed, kept, report, finished)),
                    Err(fault) => Err(fault),
                },
            },
        },
    }
}

/// What comes of a worksheet that becomes these steps. It takes the time to parse their formulas and to write the proof, and
/// one pass over the statements of the database where it is finished.
///
/// # Errors
/// The first fault of what is to be written, in this order: a formula that has two trees, the work size, the labels of a
/// normal proof, the bytes; and `Memory` where memory runs out.
pub fn outcome_of(
    alloc: Global,
    db: &Database,
    sheet: &Sheet,
    bound: &Bound,
    options: &Options,
    items: List<DraftItem>,
) -> Result<Outcome, UnifyFault>
    requires texts { HasTexts options.now.kinds db.now sheet.now bound.now }
    requires sound { IsDraftSound db.now items }
    requires drafted { ForTexts options.now.kinds db.now sheet.now bound.now (λ d text. IsDraft d db.now text options.now sheet.now bound.now items) }
    ensures outcome { ForTexts options.now.kinds db.now sheet.now bound.now (λ d text. IfOk result (IsOutcome d text options.now)) }
    ensures fault { ForTexts options.now.kinds db.now sheet.now bound.now (λ d text. IfErr result (IsFaultOf d text options.now)) }
{
    match check_items(alloc, db, bound.place, items.as_slice()) {
        Ok(_) => outcome_with(alloc, db, sheet, bound, options, items),
        Err(fault) => Err(fault),
    }
}
