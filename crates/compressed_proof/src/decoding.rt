//! Reading a whole text.

ghost use Rattle.std.specs.Prelude.{◌≡◌, ◌≤◌, length, None, IfOk, IfErr, OnOk};
ghost use Rattle.mm_base.specs.Limits.{most_database_bytes};
ghost use Rattle.proof_model.specs.ProofCode.{Spells, code_fault};
ghost use Rattle.compressed_proof.specs.Decoded.{IsFault};

use crate::brackets::{join_letters, read_brackets};
use crate::fault::CodeFault;
use crate::labels::check_labels;
use crate::steps::read_steps;
use mm_base::{List, Name};
use proof_model::Code;
use std::alloc::Global;

/// The code that a text spells for these mandatory hypotheses, or the first fault of the text. It takes time and memory in
/// proportion to the text and the mandatory labels.
pub fn decode(alloc: Global, text: &[u8], mandatory: &List<Name>) -> Result<Code, CodeFault>
    requires text { length text.now ≤ most_database_bytes }
    requires mandatory { length mandatory.now ≤ most_database_bytes }
    ensures sound { OnOk result (code_fault text.now mandatory.now ≡ None) }

    // The code is the one that the text spells: no text spells two.
    ensures spelled { IfOk result (λ code. Spells text.now mandatory.now code) }

    // The fault is the first one, with what is told of it, unless memory runs out.
    ensures first_fault { IfErr result (λ e. IsFault text.now mandatory.now e) }
{
    let mandatory = mandatory.as_slice();
    let brackets = read_brackets(alloc, text)?;
    let labels = brackets.labels.as_slice();
    check_labels(alloc, labels, mandatory)?;
    let letters = join_letters(alloc, text, brackets.end)?;
    let steps = read_steps(
        alloc,
        letters.as_slice(),
        mandatory.len() as u32,
        labels.len() as u32,
    )?;
    Ok(Code {
        labels: List::from_vec(brackets.labels),
        steps: List::from_vec(steps),
    })
}
