ghost use Rattle.std.specs.Prelude.{◌≡◌, Some, IfOk};
ghost use Rattle.std.specs.Option.{option_copied};
ghost use Rattle.ref_search.specs.Wholes.{IsAllowed};
ghost use Rattle.ref_select.specs.Asked.{IsSelectedOf, IsSelectedAt, refs};
ghost use Rattle.ref_select.specs.Selecting.{IsAnswer};

use crate::asked::{is_closed, number_of, step_at, steps_of, tree_of, wanted_of};
use crate::written::{Selection, WrittenSheet};
use mm_base::{List, Memory, Pair, Tree};
use mm_database::Database;
use ref_search::all;
use sheet_text::SheetStep;
use std::alloc::Global;
use written_model::DvMode;

/// The pairs that are allowed, where not all are.
fn allowed_pairs(mode: DvMode, pairs: &List<Pair>) -> Option<&List<Pair>>
    ensures { IsAllowed mode pairs.now (option_copied result) }
{
    match mode {
        DvMode::Add => None,
        DvMode::Given => Some(pairs),
    }
}

/// What is answered of a step with this tree.
fn select(
    alloc: Global,
    db: &Database,
    written: &WrittenSheet,
    step: &SheetStep,
    tree: &Tree,
) -> Result<Selection, Memory>
    ensures { IfOk result (IsSelectedOf db.now written.now step.now tree.now) }
{
    if !is_closed(written.trees, step, tree) {
        return Ok(Selection::StepOpen);
    }
    let wanted = wanted_of(alloc, written.trees, step, tree)?;
    let allowed = allowed_pairs(written.mode, written.given);
    let labels = all(alloc, db, written.place, &wanted, allowed)?;
    Ok(Selection::Fits(labels))
}

/// What is answered of the step of a number; that there is none, where the worksheet has none of that number.
fn select_at(
    alloc: Global,
    db: &Database,
    written: &WrittenSheet,
    steps: &[&SheetStep],
    number: usize,
) -> Result<Selection, Memory>
    ensures { IfOk result (IsSelectedAt db.now written.now (refs steps.now) number) }
{
    match step_at(steps, number) {
        None => Ok(Selection::NoSuchStep),
        Some(step) => match tree_of(written.trees, number) {
            None => Ok(Selection::NoSuchStep),
            Some(tree) => select(alloc, db, written, step, tree),
        },
    }
}

/// All assertions that fit the step of a name, whatever its reference is: those that `all` of `ref_search` gives of its
/// formula and those of its places. It takes a pass over the steps, and the time of that search.
///
/// # Errors
/// `Memory`: there is no room for a reference to each step, for copies of these formulas, for what the search needs, or for
/// the labels.
pub fn select_step(
    alloc: Global,
    db: &Database,
    written: &WrittenSheet,
    name: &[u8],
) -> Result<Selection, Memory>
    ensures { IfOk result (IsAnswer db.now written.now name.now) }
{
    let listed = steps_of(alloc, written.items)?;
    let steps = listed.as_slice();
    match number_of(steps, name) {
        None => Ok(Selection::NoSuchStep),
        Some(number) => select_at(alloc, db, written, steps, number),
    }
}
