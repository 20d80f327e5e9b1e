ghost use Rattle.std.specs.Prelude.{◌≡◌, ◌++◌, [], unwrap_or, IfOk, OnOk};
ghost use Rattle.std.specs.Option.{option_to_list};
ghost use Rattle.proof_tree.specs.Given.{used_at, is_used as used};
ghost use Rattle.proof_tree.specs.declared.building.ProofStep.TheVariants as given;
ghost use Rattle.written_steps.specs.Drafts.{AreSound, IsSoundItem, IsSoundStep, IsSoundUse};
ghost use Rattle.sheet_proof.specs.Steps as spec;

use mm_base::{List, Memory, Name};
use mm_database::Database;
use proof_tree::ProofStep;
use sheet_text::Given;
use std::alloc::Global;
use written_steps::{DraftItem, DraftStep, StepUse, hyp_count};

/// Whether a step is used.
fn is_used(step: &ProofStep) -> bool
    ensures { result ≡ used step.now }
{
    match step {
        ProofStep::Unused => false,
        ProofStep::Hyp(_) | ProofStep::Ref(..) => true,
    }
}

fn is_used_at(steps: &[ProofStep], number: u32) -> bool
    ensures { result ≡ used_at steps.now number }
{
    match steps.get(number as usize) {
        None => false,
        Some(step) => is_used(step),
    }
}

/// Whether a place names a step that is used.
fn is_used_place(steps: &[ProofStep], place: Given) -> bool
    ensures { result ≡ spec.is_used_place steps.now place }
{
    match place {
        Given::Gap => false,
        Given::Step(number) => is_used_at(steps, number),
    }
}

fn are_used(steps: &[ProofStep], places: &[Given]) -> bool
    ensures { result ≡ spec.are_used steps.now places.now }
{
    places.iter().all(|place| is_used_place(steps, *place))
}

fn put_number(numbers: &mut Vec<u32>, place: Given) -> Result<(), Memory>
    ensures { OnOk result (numbers.new.items ≡ numbers.old.items ++ option_to_list (spec.number_of place)) }
{
    if let Given::Step(number) = place {
        numbers.push(number)?;
    }
    Ok(())
}

/// The numbers of the steps that places name.
fn step_numbers(alloc: Global, places: &[Given]) -> Result<List<u32>, Memory>
    ensures { IfOk result (λ numbers. numbers ≡ spec.step_numbers places.now) }
{
    let mut numbers = Vec::new(alloc);
    for place in places {
        put_number(&mut numbers, *place)?;
    }
    Ok(List::from_vec(numbers))
}

/// A step that uses its reference, where each of its places is there.
fn ref_step(alloc: Global, by: StepUse, places: &[Given]) -> Result<ProofStep, Memory>
    ensures { IfOk result (λ p. p ≡ given.Ref by.label by.values (spec.step_numbers places.now)) }
{
    let numbers = step_numbers(alloc, places)?;
    let StepUse { label, values } = by;
    Ok(ProofStep::Ref(label, values, numbers))
}

/// Whether a use has all its places, and each is used.
fn is_whole(db: &Database, steps: &[ProofStep], places: &[Given], by: &StepUse) -> bool
    requires { IsSoundUse db.now by.now }
    ensures { result ≡ spec.is_whole db.now steps.now places.now by.now }
{
    places.len() == hyp_count(db, by) && are_used(steps, places)
}

fn use_step(
    alloc: Global,
    db: &Database,
    steps: &[ProofStep],
    places: &[Given],
    by: StepUse,
) -> Result<ProofStep, Memory>
    requires { IsSoundUse db.now by }
    ensures { IfOk result (λ p. p ≡ spec.use_step db.now steps.now places.now by) }
{
    if is_whole(db, steps, places, &by) {
        ref_step(alloc, by, places)
    } else {
        Ok(ProofStep::Unused)
    }
}

/// The label of a hypothesis.
fn hyp_step(alloc: Global, reference: Option<Name>) -> ProofStep
    ensures { result ≡ given.Hyp (unwrap_or reference []) }
{
    match reference {
        None => ProofStep::Hyp(List::from_vec(Vec::new(alloc))),
        Some(label) => ProofStep::Hyp(label),
    }
}

/// What proves a step, where this proves the earlier ones.
fn proof_step(
    alloc: Global,
    db: &Database,
    steps: &[ProofStep],
    step: DraftStep,
) -> Result<ProofStep, Memory>
    requires { IsSoundStep db.now step }
    ensures { IfOk result (λ p. p ≡ spec.proof_step db.now steps.now step) }
{
    let DraftStep {
        hyp,
        name: _,
        places,
        reference,
        tree: _,
        verdict: _,
        by,
    } = step;
    match by {
        Some(by) => use_step(alloc, db, steps, places.as_slice(), by),
        None => {
            if hyp {
                Ok(hyp_step(alloc, reference))
            } else {
                Ok(ProofStep::Unused)
            }
        }
    }
}

/// Puts in what proves an item.
fn put_item(
    alloc: Global,
    db: &Database,
    steps: &mut Vec<ProofStep>,
    item: DraftItem,
) -> Result<(), Memory>
    requires { IsSoundItem db.now item }
    ensures { OnOk result (steps.new.items ≡ spec.put_item db.now steps.old.items item) }
{
    match item {
        DraftItem::Comment(_) => Ok(()),
        DraftItem::Step(step) => {
            let proof = proof_step(alloc, db, steps, step)?;
            steps.push(proof)?;
            Ok(())
        }
    }
}

/// What proves the steps, in order: a hypothesis its label, a step with all its places its use, where those are used.
pub fn proof_steps(
    alloc: Global,
    db: &Database,
    items: List<DraftItem>,
) -> Result<Vec<ProofStep>, Memory>
    requires { AreSound db.now items }
    ensures { IfOk result (λ steps. steps.items ≡ spec.proof_steps db.now items) }
{
    let mut steps = Vec::new(alloc);
    for item in items.into_vec() {
        put_item(alloc, db, &mut steps, item)?;
    }
    Ok(steps)
}
