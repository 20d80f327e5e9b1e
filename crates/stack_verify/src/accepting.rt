//! Whether a proof is accepted.

ghost use Rattle.std.specs.Prelude.{◌≡◌, ℕ, List, IfOk, IfErr, OnOk};
ghost use Rattle.std.specs.Option.{option_copied};
ghost use Rattle.mm_model.specs.Statements.{statements};
ghost use Rattle.mm_frames.specs.Contents.{contents_of};
ghost use Rattle.proof_model.specs.DatabaseProofs.{frames_of_database};
ghost use Rattle.proof_model.specs.Machine.{Accepts, proof_fault};
ghost use Rattle.stack_verify.specs.Faults.{IsFault};
ghost use Rattle.stack_verify.specs.Lookups.{AreFound, IsFound, IsIndexOf};

use crate::fault::ProofFault;
use crate::found::{HypLabels, found_of};
use crate::run::{Found, run};
use mm_base::{Memory, Name};
use mm_frames::{Frame, Frames};
use proof_model::{Code, Theorem};
use std::alloc::Global;

/// The frame of an assertion, by its name.
fn frame_named<'f>(frames: &'f Frames, name: &[u8]) -> Option<&'f Frame>
    ensures { (text : List ℕ) → frames.now ≡ contents_of text → option_copied result ≡ frames_of_database (statements text) name.now }
{
    match frames.label(name) {
        None => None,
        Some(label) => frames.frame(label),
    }
}

fn find_label<'f>(
    frames: &'f Frames,
    theorem: &Theorem,
    index: &HypLabels,
    label: &[u8],
) -> Found<'f>
    requires { IsIndexOf theorem.now.hyps index.now }
    ensures { (text : List ℕ) → frames.now ≡ contents_of text → IsFound (frames_of_database (statements text)) theorem.now label.now result }
{
    found_of(theorem, index.place(label), frame_named(frames, label))
}

/// What the labels name.
fn find_labels<'f>(
    alloc: Global,
    frames: &'f Frames,
    theorem: &Theorem,
    index: &HypLabels,
    labels: &[Name],
) -> Result<Vec<Found<'f>>, Memory>
    requires { IsIndexOf theorem.now.hyps index.now }
    ensures { (text : List ℕ) → frames.now ≡ contents_of text → IfOk result (λ table. AreFound (frames_of_database (statements text)) theorem.now labels.now table.items) }
{
    let mut table = Vec::new(alloc);
    for label in labels {
        table.push(find_label(frames, theorem, index, label.as_slice()))?;
    }
    Ok(table)
}

/// Whether a proof is accepted for a theorem, or its first fault. It takes one look-up for each label of the code, and
/// then time in proportion to the symbols of the entries that the steps make, which are kept in one list; more than
/// 2^31 hypotheses or steps count as want of memory. A number that no label has stands for the empty label, which no
/// database has.
pub fn verify(
    alloc: Global,
    frames: &Frames,
    theorem: &Theorem,
    code: &Code,
) -> Result<(), ProofFault>
    ensures accepted { (text : List ℕ) → frames.now ≡ contents_of text → OnOk result (Accepts (frames_of_database (statements text)) theorem.now code.now) }

    // The fault is the first one, with what is told of it, unless memory runs out.
    ensures first_fault { (text : List ℕ) → frames.now ≡ contents_of text → IfErr result (λ e. IsFault e (proof_fault (frames_of_database (statements text)) theorem.now code.now)) }
{
    let hyps = theorem.hyps.as_slice();
    let steps = code.steps.as_slice();
    if hyps.len() > LIMIT || steps.len() > LIMIT {
        return Err(ProofFault::Memory);
    }
    let index = HypLabels::of(alloc, hyps)?;
    let mandatory = find_labels(alloc, frames, theorem, &index, theorem.mandatory.as_slice())?;
    let labels = find_labels(alloc, frames, theorem, &index, code.labels.as_slice())?;
    let absent = find_label(frames, theorem, &index, &[]);
    run(
        alloc,
        theorem,
        absent,
        mandatory.as_slice(),
        labels.as_slice(),
        steps,
    )
}

/// The most hypotheses and the most steps.
const LIMIT: usize = 1 << 31;
