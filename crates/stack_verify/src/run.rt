//! The run of a proof whose labels have been looked up.

ghost use Rattle.std.specs.Prelude.{◌≡◌, ◌≤◌, ◌<◌, ◌+◌, ◌^◌, length, vec_len, OnOk, IfErr, Ok, None, slice_index_or};
ghost use Rattle.proof_model.specs.Machine.{end_fault, ended_fault};
ghost use Rattle.stack_verify.specs.Contexts.{IsKnown};
ghost use Rattle.stack_verify.specs.Faults.{IsFault};
ghost use Rattle.stack_verify.specs.Founds.{use_found, use_found_step, run_found, found_fault};
ghost use Rattle.stack_verify.specs.Stacked.{IsSound, state};
ghost use Rattle.stack_verify.specs.Steps.{FailsWith, RunFails};

use crate::fault::{ProofFault, StepFault, at_step};
use crate::formula::same_formula;
use crate::known::Known;
use crate::pairs::Buffers;
use crate::stack::Stack;
use mm_model::Frame;
use proof_model::{Step, Theorem, What};
use std::alloc::Global;

/// What a label names for a theorem.
#[derive(Clone, Copy)]
pub(crate) enum Found<'f> {
    /// An active hypothesis, by its number.
    Hyp(u32),
    /// An assertion before the theorem's place.
    Assertion(&'f Frame),
    /// Neither.
    Nothing,
}

/// Uses what a label names.
fn use_found(
    stack: &mut Stack,
    buffers: &mut Buffers,
    theorem: &Theorem,
    known: &Known,
    found: Found,
) -> Result<(), StepFault>
    requires known { IsKnown theorem.now known.now }
    requires sound { IsSound stack.old }
    ensures sound { OnOk result (IsSound stack.new) }
    ensures used { OnOk result (use_found theorem.now found.entry (state stack.old) ≡ Ok (state stack.new)) }
    ensures grown { OnOk result (vec_len stack.new.entries ≤ vec_len stack.old.entries + 1) }
    ensures fault { IfErr result (λ e. FailsWith e (use_found theorem.now found.entry (state stack.old))) }
{
    match found {
        Found::Hyp(number) => match theorem.hyps.as_slice().get(number as usize) {
            None => Err(StepFault::NotEarlier),
            Some(hyp) => {
                stack.push(hyp.formula.as_slice())?;
                Ok(())
            }
        },
        Found::Assertion(frame) => stack.apply(buffers, theorem, known, frame),
        Found::Nothing => Err(StepFault::NotEarlier),
    }
}

/// The entry of a table, or what is absent past its end.
fn found_at<'f>(table: &[Found<'f>], number: u32, absent: Found<'f>) -> Found<'f>
    ensures { result ≡ slice_index_or table.now number absent.entry }
{
    match table.get(number as usize) {
        None => absent,
        Some(found) => *found,
    }
}

/// What the labels of a proof name.
#[derive(Clone, Copy)]
struct Named<'f, 'm, 'l> {
    /// What a number names that no label has.
    absent: Found<'f>,
    /// What the labels of the mandatory hypotheses name.
    mandatory: &'m [Found<'f>],
    /// What the labels of the code name.
    labels: &'l [Found<'f>],
}

/// Takes one step.
fn use_step<'f>(
    stack: &mut Stack,
    buffers: &mut Buffers,
    theorem: &Theorem,
    known: &Known,
    named: &Named<'f, '_, '_>,
    step: Step,
) -> Result<(), StepFault>
    requires known { IsKnown theorem.now known.now }
    requires sound { IsSound stack.old }
    ensures sound { OnOk result (IsSound stack.new) }
    ensures used { OnOk result (use_found_step theorem.now named.now.absent named.now.mandatory.now named.now.labels.now step (state stack.old) ≡ Ok (state stack.new)) }
    ensures grown { OnOk result (vec_len stack.new.entries ≤ vec_len stack.old.entries + 1) }
    ensures fault { IfErr result (λ e. FailsWith e (use_found_step theorem.now named.now.absent named.now.mandatory.now named.now.labels.now step (state stack.old))) }
{
    match step.what {
        What::Hyp(k) => use_found(
            stack,
            buffers,
            theorem,
            known,
            found_at(named.mandatory, k, named.absent),
        )?,
        What::Listed(k) => use_found(
            stack,
            buffers,
            theorem,
            known,
            found_at(named.labels, k, named.absent),
        )?,
        What::Again(k) => stack.push_kept(k)?,
        What::Unknown => return Err(StepFault::Unknown),
    }
    stack.keep_top(step.marked)?;
    Ok(())
}

/// Takes the steps in order.
fn run_steps<'f>(
    stack: &mut Stack,
    buffers: &mut Buffers,
    theorem: &Theorem,
    known: &Known,
    named: &Named<'f, '_, '_>,
    steps: &[Step],
) -> Result<(), ProofFault>
    requires known { IsKnown theorem.now known.now }
    requires sound { IsSound stack.old }
    requires few { length steps.now < 2 ^ 32 }
    ensures sound { OnOk result (IsSound stack.new) }
    ensures grown { OnOk result (vec_len stack.new.entries ≤ vec_len stack.old.entries + length steps.now) }
    ensures run { OnOk result (run_found theorem.now named.now.absent named.now.mandatory.now named.now.labels.now 0 steps.now (state stack.old) ≡ Ok (state stack.new)) }
    ensures fault { IfErr result (λ e. RunFails e (run_found theorem.now named.now.absent named.now.mandatory.now named.now.labels.now 0 steps.now (state stack.old))) }
{
    for (number, step) in steps.iter().enumerate() {
        let used = use_step(stack, buffers, theorem, known, named, *step);
        if let Err(fault) = used {
            return Err(at_step(number as u32, fault));
        }
    }
    Ok(())
}

/// Looks at the stack at the end, behind so many steps.
fn check_end(stack: &Stack, theorem: &Theorem, steps: u32) -> Result<(), ProofFault>
    requires sound { IsSound stack.now }
    requires few { vec_len stack.now.entries < 2 ^ 32 }
    ensures fine { OnOk result (end_fault theorem.now (state stack.now).stack ≡ None) }
    ensures fault { IfErr result (λ e. IsFault e (ended_fault theorem.now steps (Ok (state stack.now)))) }
{
    match stack.only() {
        None => Err(ProofFault::LeftOver(steps, stack.len() as u32)),
        Some(formula) => {
            if same_formula(formula, theorem.formula.as_slice()) {
                Ok(())
            } else {
                Err(ProofFault::ResultDiffers(steps))
            }
        }
    }
}

/// Runs a proof.
pub(crate) fn run<'f>(
    alloc: Global,
    theorem: &Theorem,
    absent: Found<'f>,
    mandatory: &[Found<'f>],
    labels: &[Found<'f>],
    steps: &[Step],
) -> Result<(), ProofFault>
    requires few { length steps.now < 2 ^ 32 }
    ensures fine { OnOk result (found_fault theorem.now absent.entry mandatory.now labels.now steps.now ≡ None) }
    ensures fault { IfErr result (λ e. IsFault e (found_fault theorem.now absent.entry mandatory.now labels.now steps.now)) }
{
    let known = Known::new(alloc, theorem)?;
    let mut stack = Stack::new(alloc);
    let mut buffers = Buffers::new(alloc);
    let named = Named {
        absent,
        mandatory,
        labels,
    };
    run_steps(&mut stack, &mut buffers, theorem, &known, &named, steps)?;
    check_end(&stack, theorem, steps.len() as u32)
}
