//! The theorems of a database.

ghost use Rattle.std.specs.Prelude.{◌≡◌, ℕ, List, None, Some, IfOk};
ghost use Rattle.mm_model.specs.declared.frames.Frame.{Frame};
ghost use Rattle.mm_model.specs.Frames.{frame_of};
ghost use Rattle.mm_model.specs.Statements.{statement_fault, statements};
ghost use Rattle.mm_frames.specs.Contents.{contents_of};
ghost use Rattle.proof_model.specs.DatabaseProofs.{theorem_of_frame};
ghost use Rattle.stack_verify.specs.Theorems.{labels_of_hyps, theorem_with};

use mm_base::{Label, List, Memory, Name, Sym};
use mm_frames::{Active, Frame, Frames, Hyp};
use proof_model::Theorem;
use std::alloc::Global;

/// The labels of hypotheses, in order.
pub(crate) fn labels_of(alloc: Global, hyps: &[Hyp]) -> Result<List<Name>, Memory>
    ensures { IfOk result (λ labels. labels ≡ labels_of_hyps hyps.now) }
{
    let mut labels = Vec::new(alloc);
    for hyp in hyps {
        labels.push(List::copy_of(alloc, hyp.name.as_slice())?)?;
    }
    Ok(List::from_vec(labels))
}

/// The theorem of a frame, where this is active at its place.
fn theorem_with(alloc: Global, frame: &Frame, active: Active) -> Result<Theorem, Memory>
    ensures { IfOk result (λ theorem. theorem ≡ theorem_with frame.now active) }
{
    let Active {
        variables: _,
        hyps,
        pairs,
    } = active;
    Ok(Theorem {
        at: frame.at,
        formula: List::copy_of(alloc, frame.formula.as_slice())?,
        hyps,
        mandatory: labels_of(alloc, frame.hyps.as_slice())?,
        pairs,
    })
}

/// What the assertion of a label has to prove, and what is active at its place. Of a label that is no assertion it has
/// no formula. It takes one pass over the statements before the place, and memory for what is active.
pub fn theorem_of(alloc: Global, frames: &Frames, label: Label) -> Result<Theorem, Memory>
    ensures { (text : List ℕ) (f : Frame) → frames.now ≡ contents_of text → statement_fault text ≡ None → frame_of (statements text) label ≡ Some f
        → IfOk result (λ theorem. theorem ≡ theorem_of_frame (statements text) f) }
{
    match frames.frame(label) {
        None => Ok(Theorem {
            at: 0,
            formula: List::from_vec(Vec::new(alloc)),
            hyps: List::from_vec(Vec::new(alloc)),
            mandatory: List::from_vec(Vec::new(alloc)),
            pairs: List::from_vec(Vec::new(alloc)),
        }),
        Some(frame) => {
            let active = frames.active_at(frame.at.min(frames.end()))?;
            theorem_with(alloc, frame, active)
        }
    }
}
