ghost use Rattle.std.specs.Prelude.{◌≡◌, map, position, slice_get, filter_map, IfOk};
ghost use Rattle.std.specs.Borrow.{Bor};
ghost use Rattle.std.specs.List.{list_all};
ghost use Rattle.std.specs.Option.{option_copied};
ghost use Rattle.std.specs.Str.{bytes_eq};
ghost use Rattle.sheet_text.specs.declared.sheet.SheetStep.{SheetStep as StepOf};
ghost use Rattle.sheet_text.specs.Layout.{step_of_item};
ghost use Rattle.ref_select.specs.Asked as spec;

use mm_base::{List, Memory, Tree};
use ref_search::{Wanted, is_ground};
use sheet_text::{Given, SheetItem, SheetStep};
use std::alloc::Global;

/// The steps of a worksheet, in order.
pub(crate) fn steps_of(alloc: Global, items: &[SheetItem]) -> Result<Vec<&SheetStep>, Memory>
    ensures { IfOk result (λ steps. spec.refs steps.items ≡ filter_map step_of_item items.now) }
{
    let mut steps = Vec::new(alloc);
    for item in items {
        if let SheetItem::Step(step) = item {
            steps.push(step)?;
        }
    }
    Ok(steps)
}

/// The number of the first step of a name.
pub(crate) fn number_of(steps: &[&SheetStep], name: &[u8]) -> Option<usize>
    ensures { result ≡ position (λ (s : Bor StepOf). bytes_eq s.now.name name.now) steps.now }
{
    steps.iter().position(|step| step.name.as_slice() == name)
}

/// The step of a number.
pub(crate) fn step_at<'s>(steps: &[&'s SheetStep], number: usize) -> Option<&'s SheetStep>
    ensures { option_copied result ≡ slice_get (spec.refs steps.now) number }
{
    match steps.get(number) {
        None => None,
        Some(step) => Some(step),
    }
}

/// The tree of the step of a number.
pub(crate) fn tree_of(trees: &[Tree], number: usize) -> Option<&Tree>
    ensures { option_copied result ≡ slice_get trees.now number }
{
    trees.get(number)
}

/// The tree of the step that a place names.
fn tree_at(trees: &[Tree], place: Given) -> Option<&Tree>
    ensures { option_copied result ≡ spec.tree_at trees.now place }
{
    match place {
        Given::Gap => None,
        Given::Step(k) => tree_of(trees, k as usize),
    }
}

fn is_ground_place(trees: &[Tree], place: Given) -> bool
    ensures { result ≡ spec.is_ground_at trees.now place }
{
    match tree_at(trees, place) {
        None => false,
        Some(tree) => is_ground(tree),
    }
}

fn are_ground_places(trees: &[Tree], places: &[Given]) -> bool
    ensures { result ≡ list_all (spec.is_ground_at trees.now) places.now }
{
    places.iter().all(|place| is_ground_place(trees, *place))
}

/// Whether a step with this tree is no hypothesis, lists no `?`, and neither its formula nor those of its places have a work
/// variable.
pub(crate) fn is_closed(trees: &[Tree], step: &SheetStep, tree: &Tree) -> bool
    ensures { result ≡ spec.is_closed_by trees.now step.now tree.now }
{
    if step.hyp {
        return false;
    }
    if !is_ground(tree) {
        return false;
    }
    are_ground_places(trees, step.places.as_slice())
}

/// Copies of the trees of the steps that places name.
fn hyps_of(alloc: Global, trees: &[Tree], places: &[Given]) -> Result<List<Tree>, Memory>
    ensures { IfOk result (λ hyps. hyps ≡ filter_map (spec.tree_at trees.now) places.now) }
{
    let mut hyps = Vec::new(alloc);
    for place in places {
        if let Some(tree) = tree_at(trees, *place) {
            hyps.push(tree.copy()?)?;
        }
    }
    Ok(List::from_vec(hyps))
}

/// What an assertion has to give, so that it fits a step with this tree.
pub(crate) fn wanted_of(
    alloc: Global,
    trees: &[Tree],
    step: &SheetStep,
    tree: &Tree,
) -> Result<Wanted, Memory>
    ensures { IfOk result (λ wanted. wanted ≡ spec.wanted_by trees.now step.now tree.now) }
{
    let hyps = hyps_of(alloc, trees, step.places.as_slice())?;
    let formula = tree.copy()?;
    Ok(Wanted { formula, hyps })
}
