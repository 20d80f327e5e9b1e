ghost use Rattle.std.specs.Prelude.{◌≡◌, true, slice_get, Some, IfOk};
ghost use Rattle.auto_fill.specs.Answers.{IsFilledBy};
ghost use Rattle.auto_fill.specs.Ready.{IsPlace};
ghost use Rattle.sheet_filling.specs.Filled as spec;

use crate::written::WrittenFormulas;
use auto_fill::fill_ref;
use auto_model::Auto;
use mm_base::{Memory, Tree};
use mm_database::Database;
use ref_search::is_ground;
use sheet_text::SheetStep;
use std::alloc::Global;
use written_model::DvMode;

/// Whether a step with this tree has no reference, is no hypothesis and lists no places, and its tree has no work variable.
fn is_to_be_filled(step: &SheetStep, tree: &Tree) -> bool
    ensures { result ≡ spec.is_to_be_filled step.now tree.now }
{
    if step.reference.is_some() {
        return false;
    }
    if step.hyp {
        return false;
    }
    if !step.places.as_slice().is_empty() {
        return false;
    }
    is_ground(tree)
}

/// What fills the step of a number, whatever it lists.
fn fill(
    alloc: Global,
    db: &Database,
    written: &WrittenFormulas,
    number: u32,
) -> Result<Option<Auto>, Memory>
    requires { IsPlace written.now.trees.now number }
    ensures { IfOk result (λ o. spec.ForNumber db.now written.now number (λ d options w e. IsFilledBy d options w number e o)) }
{
    match written.mode {
        DvMode::Add => fill_ref(alloc, db, written.place, written.trees, number, None),
        DvMode::Given => fill_ref(
            alloc,
            db,
            written.place,
            written.trees,
            number,
            Some(written.given),
        ),
    }
}

/// What fills the step of a number with this tree, where it is to be filled.
fn seek_at(
    alloc: Global,
    db: &Database,
    written: &WrittenFormulas,
    number: u32,
    step: &SheetStep,
    tree: &Tree,
) -> Result<Option<Auto>, Memory>
    requires { slice_get written.now.trees.now number ≡ Some tree.now }
    ensures { IfOk result (λ o. spec.ForStep db.now written.now number step.now (λ d options w e. spec.IsSought d options w number e o)) }
{
    if !is_to_be_filled(step, tree) {
        return Ok(None);
    }
    fill(alloc, db, written, number)
}

/// What fills the step of a number, where it is to be filled.
pub(crate) fn seek(
    alloc: Global,
    db: &Database,
    written: &WrittenFormulas,
    number: u32,
    step: &SheetStep,
) -> Result<Option<Auto>, Memory>
    ensures { IfOk result (λ o. spec.ForStep db.now written.now number step.now (λ d options w e. spec.IsSought d options w number e o)) }
{
    match written.trees.get(number as usize) {
        None => Ok(None),
        Some(tree) => seek_at(alloc, db, written, number, step, tree),
    }
}
