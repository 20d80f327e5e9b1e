ghost use Rattle.std.specs.Prelude.{◌≡◌, ◌<◌, ◌++◌, [], length, map, Some, IsSome, IfOk, IfErr, OnOk, slice_get, suc};
ghost use Rattle.sheet_text.specs.declared.sheet.Given.TheVariants as given;
ghost use Rattle.written_model.specs.Filled.{written_place as place_among};
ghost use Rattle.step_chain.specs.Held.{OfEachBook, judgements_of};
ghost use Rattle.step_chain.specs.Ordered.{reordered};
ghost use Rattle.step_chain.specs.Steps.{step_at};
ghost use Rattle.step_chain.specs.Values.{accepted_at};
ghost use Rattle.step_chain.specs.Answers.{OfAccepted, OfKept, constants_of, values_of};
ghost use Rattle.written_model.specs.declared.report.ReportVerdict.TheVariants as report;
ghost use Rattle.step_filling.specs.Kept.{draft_of};
ghost use Rattle.step_filling.specs.Filled.{IsOwnRead, AreValuesRead, IsValueFault, IsUsedStep, IsOwnAccepted, IsUseFault, IsOwnFault, formula_of};

use crate::drafts::own_step;
use crate::fault::FillFault;
use crate::places::written_places;
use mm_base::{Label, List, Memory, Tree};
use sheet_text::{Given, SheetStep};
use std::alloc::Global;
use step_chain::{Accepted, ChainTrees, TreeFault};
use written_model::ReportVerdict;
use written_steps::{DraftStep, StepUse, in_order};

/// The formula of a step of this name.
pub fn formula(
    alloc: Global,
    trees: &ChainTrees<'_, '_>,
    i: u32,
    name: &[u8],
) -> Result<Tree, FillFault>
    requires { i < length trees.now.bound.steps }
    ensures { OfEachBook trees.now (λ db. IsOwnRead (constants_of trees.now) name.now (formula_of trees.now i) result) }
{
    match trees.formula(i) {
        Ok(tree) => Ok(tree),
        Err(TreeFault::Memory) => Err(FillFault::Memory),
        Err(TreeFault::TooLong(tokens)) => match List::copy_of(alloc, name) {
            Ok(name) => Err(FillFault::TooLong(name, tokens)),
            Err(_) => Err(FillFault::Memory),
        },
    }
}

/// The places of an accepted step: those that it lists, in the order in which it fits, and then the steps that fill.
pub fn accepted_places(
    alloc: Global,
    trees: &ChainTrees<'_, '_>,
    i: u32,
    numbers: &[u32],
    order: &[u32],
    more: &[u32],
) -> Result<List<Given>, Memory>
    requires { i < length trees.now.bound.steps }
    ensures { IfOk result (λ ps. ps ≡ map (place_among numbers.now) (reordered (step_at trees.now.bound i).places order.now) ++ map (λ k. given.Step k) more.now) }
{
    let bound = trees.chain().bound();
    let places = bound.steps.as_slice()[i as usize].places.as_slice();
    let ordered = in_order(alloc, places, order)?;
    written_places(alloc, numbers, ordered.as_slice(), more)
}

/// The trees in place of the variables of an accepted step's assertion.
fn values(alloc: Global, trees: &ChainTrees<'_, '_>, i: u32) -> Result<List<Tree>, FillFault>
    requires { IsSome (accepted_at trees.now i) }
    ensures read { OfAccepted trees.now i (λ y. AreValuesRead (constants_of trees.now) (values_of trees.now i y) result) }
    ensures count { OfKept trees.now i (λ x. IfOk result (λ ts. length ts ≡ length x.variables)) }
    ensures fault { IfErr result IsValueFault }
{
    match trees.substitution(alloc, i) {
        Ok(values) => Ok(values),
        Err(TreeFault::Memory) => Err(FillFault::Memory),
        Err(TreeFault::TooLong(_)) => Err(FillFault::LongValue),
    }
}

/// An accepted step of this formula and these values.
fn draft_step(
    alloc: Global,
    step: &SheetStep,
    label: Label,
    places: List<Given>,
    tree: Tree,
    values: List<Tree>,
) -> Result<DraftStep, Memory>
    ensures { IfOk result (λ s. s ≡ draft_of step.now places tree report.Fits (Some (record { label = label; values = values }))) }
{
    let by = StepUse { label, values };
    own_step(alloc, step, places, tree, ReportVerdict::Fits, Some(by))
}

/// An accepted step of this formula, with these places.
fn used_step(
    alloc: Global,
    trees: &ChainTrees<'_, '_>,
    i: u32,
    step: &SheetStep,
    label: Label,
    places: List<Given>,
    tree: Tree,
) -> Result<DraftStep, FillFault>
    requires { IsSome (accepted_at trees.now i) }
    ensures ok { IfOk result (IsUsedStep trees.now i step.now label places tree) }
    ensures fault { IfErr result (IsUseFault trees.now i) }
{
    match values(alloc, trees, i) {
        Err(fault) => Err(fault),
        Ok(values) => Ok(draft_step(alloc, step, label, places, tree, values)?),
    }
}

/// An accepted step as it is written: with its places, its formula and its use.
pub fn accepted_step(
    alloc: Global,
    trees: &ChainTrees<'_, '_>,
    i: u32,
    numbers: &[u32],
    step: &SheetStep,
    accepted: &Accepted,
    more: &[u32],
) -> Result<DraftStep, FillFault>
    requires step { i < length trees.now.bound.steps }
    requires kept { accepted_at trees.now i ≡ Some accepted.now }
    ensures ok { IfOk result (IsOwnAccepted trees.now i numbers.now step.now accepted.now more.now) }
    ensures fault { IfErr result (IsOwnFault trees.now i step.now.name) }
{
    let places = accepted_places(alloc, trees, i, numbers, accepted.order.as_slice(), more)?;
    match formula(alloc, trees, i, step.name.as_slice()) {
        Err(fault) => Err(fault),
        Ok(tree) => used_step(alloc, trees, i, step, accepted.label, places, tree),
    }
}
