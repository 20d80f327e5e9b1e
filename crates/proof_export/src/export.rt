//! The worksheet of a proof.

ghost use Rattle.std.specs.Prelude.{◌≡◌, ◌≤◌, ℕ, List, Some, ◌++◌, [], length, map, slice_index_or, OnOk, IfOk, Ok};
ghost use Rattle.mm_model.specs.declared.frames.Frame.{Frame};
ghost use Rattle.mm_model.specs.Frames.{frame_of};
ghost use Rattle.mm_model.specs.Statements.{statements};
ghost use Rattle.mm_model.specs.Productions.{essentials};
ghost use Rattle.proof_model.specs.DatabaseProofs.{theorem_of_frame};
ghost use Rattle.proof_model.specs.Machine.{Formula, start, use_label, use_step, use_what};
ghost use Rattle.mm_database.specs.Books.{database_of};
ghost use Rattle.mm_database.specs.Opened.{IsOpened};
ghost use Rattle.written_model.specs.Written.{frames_of};
ghost use Rattle.export_model.specs.Exported.{Push, export_sheet, export_steps, hyp_steps, is_provable, push_of, push_of_frame, push_of_label, push_steps, pushes};
ghost use Rattle.proof_export.specs.Books.{book_in};
ghost use Rattle.proof_export.specs.Leads.{Goes, HasFormulas, items_of};
ghost use Rattle.proof_export.specs.Machines.{applied_to, state};
ghost use Rattle.proof_export.specs.Places.{AreHyps};
ghost use Rattle.proof_export.specs.Proofs.{HasProof, Passes, Runs};

use crate::hyps::{frame_named, hyp_place, hyp_places};
use crate::machine::Machine;
use crate::sheet::pair_lines;
use crate::steps::Steps;
use indexmap::IndexMap;
use mm_base::{Kinds, Label, List, Memory, Name, Sym};
use mm_database::Database;
use mm_frames::{Frame, Frames, Hyp};
use proof_model::{Code, Step, What};
use sheet_text::{Sheet, SheetItem};
use stack_verify::{Theorem, theorem_of};
use std::alloc::Global;
use written_steps::{label_name, symbol_name};

/// Whether a formula begins with the provable typecode.
fn is_provable(frames: &Frames, kinds: &Kinds, formula: &[Sym]) -> bool
    ensures { result ≡ is_provable (book_in frames.now kinds.now.provable) formula.now }
{
    match formula.first() {
        None => false,
        Some(symbol) => symbol_name(frames, *symbol) == kinds.provable.as_slice(),
    }
}

/// An assertion takes its entries and gives its formula. Whether the last step was made of it.
fn apply(
    frames: &Frames,
    kinds: &Kinds,
    theorem: &Theorem,
    machine: &mut Machine,
    steps: &mut Steps,
    name: &[u8],
    frame: &Frame,
) -> Result<bool, Memory>
    requires { length frame.now.hyps ≤ length (state machine.old).stack }
    ensures state { OnOk result (state machine.new ≡ applied_to frame.now (state machine.old)) }
    ensures goes { IfOk result (λ last. (rest : List Push) → Goes last (book_in frames.now kinds.now.provable) theorem.now.formula steps.old
        (push_of_frame (book_in frames.now kinds.now.provable) name.now (state machine.old).stack (state machine.new).stack (Some frame.now) ++ rest) steps.new rest) }
{
    if !is_provable(frames, kinds, frame.formula.as_slice()) {
        machine.apply(frame)?;
        return Ok(false);
    }
    let hyps = frame.hyps.as_slice();
    let places = steps.places(hyps, machine.top(hyps.len()))?;
    machine.apply(frame)?;
    steps.put_push(
        frames,
        theorem.formula.as_slice(),
        name,
        places,
        machine.newest(),
    )
}

/// Takes what a label names.
fn use_label(
    frames: &Frames,
    kinds: &Kinds,
    theorem: &Theorem,
    places: &IndexMap<Vec<u8>, usize>,
    machine: &mut Machine,
    steps: &mut Steps,
    name: &[u8],
) -> Result<bool, Memory>
    requires hyps { AreHyps theorem.now.hyps places.now.entries }
    requires passes { Passes (use_label (frames_of (book_in frames.now kinds.now.provable)) theorem.now name.now (state machine.old)) }
    ensures state { OnOk result (use_label (frames_of (book_in frames.now kinds.now.provable)) theorem.now name.now (state machine.old) ≡ Ok (state machine.new)) }
    ensures goes { IfOk result (λ last. (rest : List Push) → Goes last (book_in frames.now kinds.now.provable) theorem.now.formula steps.old
        (push_of_label (book_in frames.now kinds.now.provable) theorem.now name.now (state machine.old).stack (state machine.new).stack ++ rest) steps.new rest) }
{
    match hyp_place(places, name) {
        Some(number) => {
            machine.push(theorem.hyps.as_slice()[number].formula.as_slice())?;
            Ok(false)
        }
        None => match frame_named(frames, name) {
            None => unreachable!(),
            Some(frame) => apply(frames, kinds, theorem, machine, steps, name, frame),
        },
    }
}

/// The name of a number; the empty one past the last.
fn name_at(names: &[Name], number: u32) -> &[u8]
    ensures { result.now ≡ slice_index_or names.now number [] }
{
    match names.get(number as usize) {
        None => b"",
        Some(name) => name.as_slice(),
    }
}

/// Takes what a step names. Whether the last step of the worksheet was made of it.
fn use_what(
    frames: &Frames,
    kinds: &Kinds,
    theorem: &Theorem,
    places: &IndexMap<Vec<u8>, usize>,
    labels: &[Name],
    machine: &mut Machine,
    steps: &mut Steps,
    what: What,
) -> Result<bool, Memory>
    requires hyps { AreHyps theorem.now.hyps places.now.entries }
    requires passes { Passes (use_what (frames_of (book_in frames.now kinds.now.provable)) theorem.now labels.now what (state machine.old)) }
    ensures state { OnOk result (use_what (frames_of (book_in frames.now kinds.now.provable)) theorem.now labels.now what (state machine.old) ≡ Ok (state machine.new)) }
    ensures goes { IfOk result (λ last. (rest : List Push) → Goes last (book_in frames.now kinds.now.provable) theorem.now.formula steps.old
        (push_of (book_in frames.now kinds.now.provable) theorem.now labels.now what (state machine.old).stack (state machine.new).stack ++ rest) steps.new rest) }
{
    match what {
        What::Hyp(k) => {
            let name = name_at(theorem.mandatory.as_slice(), k);
            use_label(frames, kinds, theorem, places, machine, steps, name)
        }
        What::Listed(k) => {
            let name = name_at(labels, k);
            use_label(frames, kinds, theorem, places, machine, steps, name)
        }
        What::Again(k) => {
            machine.push_kept(k)?;
            Ok(false)
        }
        What::Unknown => unreachable!(),
    }
}

/// Takes one step. Whether the last step of the worksheet was made of it.
fn use_step(
    frames: &Frames,
    kinds: &Kinds,
    theorem: &Theorem,
    places: &IndexMap<Vec<u8>, usize>,
    labels: &[Name],
    machine: &mut Machine,
    steps: &mut Steps,
    step: Step,
) -> Result<bool, Memory>
    requires hyps { AreHyps theorem.now.hyps places.now.entries }
    requires passes { Passes (use_step (frames_of (book_in frames.now kinds.now.provable)) theorem.now labels.now step (state machine.old)) }
    ensures state { OnOk result (use_step (frames_of (book_in frames.now kinds.now.provable)) theorem.now labels.now step (state machine.old) ≡ Ok (state machine.new)) }
    ensures goes { IfOk result (λ last. (rest : List Push) → Goes last (book_in frames.now kinds.now.provable) theorem.now.formula steps.old
        (push_of (book_in frames.now kinds.now.provable) theorem.now labels.now step.what (state machine.old).stack (state machine.new).stack ++ rest) steps.new rest) }
{
    let last = use_what(
        frames, kinds, theorem, places, labels, machine, steps, step.what,
    )?;
    machine.keep_top(step.marked)?;
    Ok(last)
}

/// The steps of a proof behind those of the theorem's `$e`.
fn put_proof(
    alloc: Global,
    frames: &Frames,
    kinds: &Kinds,
    theorem: &Theorem,
    code: &Code,
    steps: &mut Steps,
) -> Result<(), Memory>
    requires { Runs (frames_of (book_in frames.now kinds.now.provable)) theorem.now code.now.labels code.now.steps start }
    ensures { OnOk result ((fs : List Formula) → HasFormulas steps.old fs → steps.new.items.items ≡ steps.old.items.items
        ++ items_of (push_steps (book_in frames.now kinds.now.provable) theorem.now.formula fs (pushes (book_in frames.now kinds.now.provable) theorem.now code.now))) }
{
    let places = hyp_places(alloc, theorem.hyps.as_slice())?;
    let labels = code.labels.as_slice();
    let mut machine = Machine::new(alloc);
    for step in code.steps.as_slice() {
        let last = use_step(
            frames,
            kinds,
            theorem,
            &places,
            labels,
            &mut machine,
            steps,
            *step,
        )?;
        if last {
            return Ok(());
        }
    }
    let none = List::from_vec(Vec::new(alloc));
    steps.put_qed(frames, none, None, theorem.formula.as_slice())
}

/// The steps of the theorem's `$e`.
fn put_hyps(frames: &Frames, hyps: &[Hyp], steps: &mut Steps) -> Result<(), Memory>
    requires { HasFormulas steps.old [] }
    ensures formulas { OnOk result (HasFormulas steps.new (map (λ h. h.formula) (essentials hyps.now))) }
    ensures items { OnOk result (steps.new.items.items ≡ items_of (hyp_steps (book_in frames.now []) 0 (essentials hyps.now))) }
{
    for hyp in hyps {
        if !hyp.floating {
            steps.put_hyp(frames, hyp)?;
        }
    }
    Ok(())
}

fn export_items(
    alloc: Global,
    frames: &Frames,
    kinds: &Kinds,
    theorem: &Theorem,
    code: &Code,
) -> Result<List<SheetItem>, Memory>
    requires { Runs (frames_of (book_in frames.now kinds.now.provable)) theorem.now code.now.labels code.now.steps start }
    ensures { IfOk result (λ items. items ≡ items_of (export_steps (book_in frames.now kinds.now.provable) theorem.now code.now)) }
{
    let mut steps = Steps::new(alloc);
    put_hyps(frames, theorem.hyps.as_slice(), &mut steps)?;
    put_proof(alloc, frames, kinds, theorem, code, &mut steps)?;
    Ok(steps.into_items())
}

/// The worksheet of a theorem of the database and of its proof, which is accepted: its `$e`, then each formula that an
/// assertion of the provable typecode gives, at its first place, up to the theorem's own, and the pairs that are active
/// there. It takes one pass over the statements before the theorem, and time and memory in proportion to the symbols of
/// the entries that the steps of the proof make.
///
/// # Errors
/// `Memory`: there is no room for it. More than 2^32 steps count as want of memory.
pub fn export_sheet(
    alloc: Global,
    db: &Database,
    kinds: &Kinds,
    label: Label,
    code: &Code,
) -> Result<Sheet, Memory>
    requires { HasProof kinds.now db.now label code.now }
    ensures { (text : List ℕ) (f : Frame) → IsOpened kinds.now text db.now → frame_of (statements text) label ≡ Some f → IfOk result (λ sheet. sheet
        ≡ export_sheet (database_of kinds.now text db.now.rows db.now.parsed) (theorem_of_frame (statements text) f) (slice_index_or db.now.contents.labels label.0 []) code.now) }
{
    let frames = db.frames();
    let theorem = theorem_of(alloc, frames, label)?;
    Ok(Sheet {
        line: 0,
        theorem: List::copy_of(alloc, label_name(frames, label))?,
        loc: None,
        items: export_items(alloc, frames, kinds, &theorem, code)?,
        pairs: pair_lines(alloc, frames, theorem.pairs.as_slice())?,
    })
}
