ghost use Rattle.std.specs.Prelude.{◌≡◌, ◌≤◌, ◌+◌, ◌^◌, length, IfOk, IsTrue, OnOk};
ghost use Rattle.mm_model.specs.Rows.{slot_order, EachOnce};
ghost use Rattle.mm_base.specs.declared.tree.Tree.{Tree};
ghost use Rattle.formula_parse.specs.declared.found.Found.{Found};
ghost use Rattle.formula_parse.specs.Finds as spec;
ghost use Rattle.formula_parse.specs.Finds.{EachFound};
ghost use Rattle.formula_parse.specs.Made.{IsInOrder, IsMade, AreMade};

use crate::found::{Found, joined};
use mm_base::{List, Memory, Tree};
use mm_model::{Item, Production};
use std::mem::replace;
use syntax_grammar::slot_place;

/// Whether the slots of a text stand in the order of their numbers, from one on.
fn in_order(items: &[Item], next: usize) -> bool
    requires { next + length items.now ≤ 2 ^ 63 }
    ensures { IsTrue result → IsInOrder next (slot_order items.now) }
{
    match items {
        [] => true,
        [Item::Const(_), rest @ ..] => in_order(rest, next),
        [Item::Slot(k), rest @ ..] => *k as usize == next && in_order(rest, next + 1),
    }
}

/// Whether a production has so many slots, and they stand in its text in the order of its frame.
fn is_in_order(row: &Production, count: usize) -> bool
    ensures count { IsTrue result → count ≡ length row.now.slots }
    ensures order { IsTrue result → IsInOrder 0 (slot_order row.now.items) }
{
    row.slots.as_slice().len() == count && in_order(row.items.as_slice(), 0)
}

/// The node of a production, of trees for its slots in the order of the text. The trees are moved.
fn node(row: &Production, trees: List<Tree>) -> Result<Tree, Memory>
    requires once { EachOnce (length row.now.slots) (slot_order row.now.items) }
    requires count { length trees ≡ length (slot_order row.now.items) }
    ensures { IfOk result (IsMade row.now trees) }
{
    if is_in_order(row, trees.as_slice().len()) {
        return Ok(Tree::Node(row.label, row.gives, trees));
    }
    rearranged(row, trees)
}

/// The same, where the order of the text is another than that of the frame.
fn rearranged(row: &Production, trees: List<Tree>) -> Result<Tree, Memory>
    requires once { EachOnce (length row.now.slots) (slot_order row.now.items) }
    requires count { length trees ≡ length (slot_order row.now.items) }
    ensures { IfOk result (IsMade row.now trees) }
{
    let mut children = Vec::new(trees.allocator());
    let mut left = trees.into_vec();
    for k in 0..row.slots.as_slice().len() {
        let at = slot_place(k, row.items.as_slice());
        children.push(replace(&mut left[at], Tree::Fresh(row.gives, 0)))?;
    }
    Ok(Tree::Node(row.label, row.gives, List::from_vec(children)))
}

/// The nodes of the sequences that were found.
fn nodes(row: &Production, found: Found<List<Tree>>) -> Result<Found<Tree>, Memory>
    requires once { EachOnce (length row.now.slots) (slot_order row.now.items) }
    requires count { EachFound (λ us. length us ≡ length (slot_order row.now.items)) found }
    ensures { IfOk result (AreMade row.now found) }
{
    match found {
        Found::Nothing => Ok(Found::Nothing),
        Found::One(trees) => Ok(Found::One(node(row, trees)?)),
        Found::Two(trees, others) => {
            let first = node(row, trees)?;
            Ok(Found::Two(first, node(row, others)?))
        }
    }
}

/// Adds the nodes of the sequences that were found.
#[inline(never)]
pub fn add_nodes(
    row: &Production,
    fitting: Found<List<Tree>>,
    found: &mut Found<Tree>,
) -> Result<(), Memory>
    requires once { EachOnce (length row.now.slots) (slot_order row.now.items) }
    requires count { EachFound (λ us. length us ≡ length (slot_order row.now.items)) fitting }
    ensures { OnOk result ((more : Found Tree)
        × AreMade row.now fitting more × (found.new ≡ spec.joined found.old more)) }
{
    let more = nodes(row, fitting)?;
    *found = joined(replace(found, Found::Nothing), more);
    Ok(())
}
