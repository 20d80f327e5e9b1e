//! Normal proofs: a list of labels as a code.

ghost use Rattle.std.specs.Prelude.{◌≡◌, ℕ, ◌+◌, ◌-◌, ◌≤◌, ◌<◌, ◌^◌, List, [], length, false, codes, All, OnOk, IfOk};
ghost use Rattle.mm_model.specs.declared.frames.Hyp.{Hyp};
ghost use Rattle.std.specs.Str.{bytes_eq};
ghost use Rattle.proof_model.specs.Codes.{normal_code, normal_step, number_in, step};
ghost use Rattle.proof_model.specs.ProofCode.{AreInRange};
ghost use Rattle.stack_verify.specs.Lookups.{IsIndexOf};
ghost use Rattle.stack_verify.specs.Normals.{StepsSoFar, with_name, with_other};
ghost use Rattle.stack_verify.specs.Proofs.{names_in};
ghost use Rattle.stack_verify.specs.Stacks.{IsWithin};
ghost use Rattle.stack_verify.specs.Theorems.{labels_of_hyps};

use crate::formula::Span;
use crate::found::HypLabels;
use mm_base::{List, Memory, Name};
use mm_model::Hyp;
use names::Names;
use proof_model::{Code, Step, What};
use std::alloc::Global;

fn unmarked(what: What) -> Step
    ensures { result ≡ step what false }
{
    Step {
        what,
        marked: false,
    }
}

fn is_unknown(name: &[u8]) -> bool
    ensures { result ≡ bytes_eq name.now (codes "?") }
{
    name == b"?".as_slice()
}

/// The step of a label that is no hypothesis; it is put in, if it is not there.
fn other_step(others: &mut Names, name: &[u8]) -> Result<Step, Memory>
    requires { length others.old + 1 < 2 ^ 32 }
    ensures others { OnOk result (others.new ≡ with_name others.old name.now) }
    ensures step { IfOk result (λ s. s ≡ step (What.Listed (number_in others.new name.now)) false) }
    ensures grown { OnOk result (length others.new ≤ length others.old + 1) }
{
    match others.number(name) {
        Some(number) => Ok(unmarked(What::Listed(number))),
        None => {
            let number = others.add(name)?;
            Ok(unmarked(What::Listed(number)))
        }
    }
}

/// The step of one label; a label that is none of the hypotheses is put in, if it is not there.
fn step_of(others: &mut Names, index: &HypLabels, name: &[u8]) -> Result<Step, Memory>
    requires { length others.old + 1 < 2 ^ 32 }
    ensures others { (hyps : List Hyp) → IsIndexOf hyps index.now → OnOk result (others.new ≡ with_other (labels_of_hyps hyps) others.old name.now) }
    ensures step { (hyps : List Hyp) → IsIndexOf hyps index.now → IfOk result (λ step. step ≡ normal_step (labels_of_hyps hyps) others.new name.now) }
    ensures grown { OnOk result (length others.new ≤ length others.old + 1) }
{
    if is_unknown(name) {
        return Ok(unmarked(What::Unknown));
    }
    match index.place(name) {
        Some(number) => Ok(unmarked(What::Hyp(number))),
        None => {
            // Handed on by `?`, which the checker follows.
            let step = other_step(others, name)?;
            Ok(step)
        }
    }
}

/// The names, in order.
fn list_of(alloc: Global, names: &Names) -> Result<List<Name>, Memory>
    ensures { IfOk result (λ list. list ≡ names.now) }
{
    let mut list = Vec::new(alloc);
    for number in 0..names.count() {
        list.push(List::copy_of(alloc, names.name(number))?)?;
    }
    Ok(List::from_vec(list))
}

/// Reads the words in order: the labels that are none of the hypotheses are put in, and one unmarked step for each word.
fn add_steps(
    others: &mut Names,
    steps: &mut Vec<Step>,
    index: &HypLabels,
    text: &[u8],
    spans: &[Span],
) -> Result<(), Memory>
    requires spans { length spans.now < 2 ^ 32 - 1 }
    requires within { All (IsWithin (length text.now)) spans.now }
    requires no_others { others.old ≡ [] }
    requires no_steps { steps.old.items ≡ [] }
    ensures { (hyps : List Hyp) → IsIndexOf hyps index.now →
        OnOk result (StepsSoFar (labels_of_hyps hyps) (names_in text.now spans.now) others.new steps.new.items) }
{
    for span in spans {
        let step = step_of(others, index, &text[span.from..span.to])?;
        steps.push(step)?;
    }
    Ok(())
}

/// The code of these words, by the labels of the hypotheses.
fn code_with(alloc: Global, index: &HypLabels, text: &[u8], spans: &[Span]) -> Result<Code, Memory>
    requires spans { length spans.now < 2 ^ 32 - 1 }
    requires within { All (IsWithin (length text.now)) spans.now }
    ensures { (hyps : List Hyp) → IsIndexOf hyps index.now →
        IfOk result (λ code. code ≡ normal_code (labels_of_hyps hyps) (names_in text.now spans.now)) }
{
    let mut others = Names::new(alloc);
    let mut steps = Vec::new(alloc);
    add_steps(&mut others, &mut steps, index, text, spans)?;
    let labels = list_of(alloc, &others)?;
    Ok(Code {
        labels,
        steps: List::from_vec(steps),
    })
}

/// The code of a normal proof with these words: one unmarked step for each.
fn steps_of(alloc: Global, text: &[u8], spans: &[Span], hyps: &[Hyp]) -> Result<Code, Memory>
    requires spans { length spans.now < 2 ^ 32 - 1 }
    requires within { All (IsWithin (length text.now)) spans.now }
    requires hyps { length hyps.now < 2 ^ 32 - 1 }
    ensures { IfOk result (λ code. code ≡ normal_code (labels_of_hyps hyps.now) (names_in text.now spans.now)) }
{
    let index = HypLabels::of(alloc, hyps)?;
    // Handed on by `?`, which the checker follows.
    let code = code_with(alloc, &index, text, spans)?;
    Ok(code)
}

/// The same; each number of the code is in range.
pub(crate) fn normal(
    alloc: Global,
    text: &[u8],
    spans: &[Span],
    hyps: &[Hyp],
) -> Result<Code, Memory>
    requires spans { length spans.now < 2 ^ 32 - 1 }
    requires within { All (IsWithin (length text.now)) spans.now }
    requires hyps { length hyps.now < 2 ^ 32 - 1 }
    ensures code { IfOk result (λ code. code ≡ normal_code (labels_of_hyps hyps.now) (names_in text.now spans.now)) }
    ensures in_range { IfOk result (λ code. AreInRange (length (labels_of_hyps hyps.now)) (length code.labels) 0 code.steps) }
{
    // Handed on by `?`, which the checker follows.
    let code = steps_of(alloc, text, spans, hyps)?;
    Ok(code)
}
