//! What the entries for the hypotheses of an assertion have to be.

ghost use Rattle.std.specs.Prelude.{◌≡◌, length, OnOk, IfOk, IfErr, All, None, false, find, is_some};
ghost use Rattle.proof_model.specs.Machine.{differs_in_type, differs_in_formula, hyp_fault, entries_fault};
ghost use Rattle.stack_verify.specs.Stacks.{IsWithin, entries_of};
ghost use Rattle.stack_verify.specs.Taken.{taken};
ghost use Rattle.stack_verify.specs.Steps.{FailsAs, IsHypFault};
ghost use Rattle.stack_verify.specs.Contexts.{IsKnown};

use crate::fault::StepFault;
use crate::formula::{Span, formula_in, push_substituted, same_formula, typecode};
use crate::known::Known;
use crate::pairs::{Buffers, check_distinct, check_shared};
use crate::taken::Entries;
use mm_base::{List, Sym};
use mm_model::{Frame, Hyp};
use proof_model::Theorem;
use std::alloc::Global;

fn differs_in_type(hyp: &Hyp, formula: &[Sym]) -> bool
    ensures { result ≡ differs_in_type (hyp.now, formula.now) }
{
    hyp.floating && !same_formula(typecode(formula), typecode(hyp.formula.as_slice()))
}

/// Whether the entry for some `$f` has another typecode.
fn has_other_type(entries: &Entries) -> bool
    ensures { result ≡ is_some (find differs_in_type (taken entries.now)) }
{
    for (place, hyp) in entries.hyps.iter().enumerate() {
        if differs_in_type(hyp, formula_in(entries.symbols, entries.spans[place])) {
            return true;
        }
    }
    false
}

/// Looks at the entry for one hypothesis.
fn check_hyp(
    scratch: &mut Vec<Sym>,
    entries: &Entries,
    hyp: &Hyp,
    found: &[Sym],
) -> Result<(), StepFault>
    ensures fine { OnOk result (differs_in_formula (taken entries.now) (hyp.now, found.now) ≡ false) }
    ensures fault { IfErr result (λ e. IsHypFault (taken entries.now) (hyp.now, found.now) e) }
{
    if hyp.floating {
        return Ok(());
    }
    scratch.clear();
    push_substituted(scratch, entries, hyp.formula.as_slice())?;
    if same_formula(found, scratch.as_slice()) {
        return Ok(());
    }
    let alloc = *scratch.allocator();
    let expected = List::copy_of(alloc, scratch.as_slice())?;
    Err(StepFault::HypDiffers(expected, List::copy_of(alloc, found)?))
}

/// Looks at the entries for the `$e`, in order.
fn check_hyps(scratch: &mut Vec<Sym>, entries: &Entries) -> Result<(), StepFault>
    ensures fine { OnOk result (hyp_fault (taken entries.now) ≡ None) }
    ensures fault { IfErr result (λ e. FailsAs e (hyp_fault (taken entries.now))) }
{
    for (place, hyp) in entries.hyps.iter().enumerate() {
        let found = formula_in(entries.symbols, entries.spans[place]);
        check_hyp(scratch, entries, hyp, found)?;
    }
    Ok(())
}

/// Looks at the entries that an assertion takes: at their typecodes, at the hypotheses, and at the pairs.
pub(crate) fn check_entries(
    buffers: &mut Buffers,
    theorem: &Theorem,
    known: &Known,
    frame: &Frame,
    symbols: &[Sym],
    spans: &[Span],
) -> Result<(), StepFault>
    requires known { IsKnown theorem.now known.now }
    requires each { length spans.now ≡ length frame.now.hyps }
    requires within { All (IsWithin (length symbols.now)) spans.now }
    ensures fine { OnOk result (entries_fault theorem.now frame.now (entries_of frame.now.hyps symbols.now spans.now) ≡ None) }
    ensures fault { IfErr result (λ e. FailsAs e (entries_fault theorem.now frame.now (entries_of frame.now.hyps symbols.now spans.now))) }
{
    let hyps = frame.hyps.as_slice();
    let entries = Entries {
        hyps,
        symbols,
        spans,
    };
    if has_other_type(&entries) {
        return Err(StepFault::TypeDiffers);
    }
    check_hyps(&mut buffers.formula, &entries)?;
    let pairs = frame.pairs.as_slice();
    check_shared(theorem, known, &entries, pairs, buffers)?;
    check_distinct(theorem, known, &entries, pairs, buffers)
}
