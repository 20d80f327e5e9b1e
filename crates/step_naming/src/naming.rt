ghost use Rattle.std.specs.Prelude.{◌≡◌, ◌≤◌, ◌^◌, ◌++◌, List, length, map, option_to_list, IfOk, OnOk};
ghost use Rattle.std.specs.List.{AllByRecursion};
ghost use Rattle.mm_base.specs.declared.tree.Tree.{Tree};
ghost use Rattle.mm_base.specs.Limits.{most_database_bytes};
ghost use Rattle.mm_database.specs.Opened.{Opened};
ghost use Rattle.solve_model.specs.declared.bound.Bound.{Bound};
ghost use Rattle.written_model.specs.WrittenSteps.{steps_in, trees};
ghost use Rattle.written_steps.specs.Drafts.{items_in};
ghost use Rattle.leaf_names.specs.Named.{IsNamesOf};
ghost use Rattle.leaf_names.specs.Tables.{read_leaves};
ghost use Rattle.step_naming.specs.Named.{tree_of, formulas, HasSmallLeaves, AreSmallLeaves, AreNamed};

use crate::renaming::renamed;
use leaf_names::{Names, names_are_naming};
use mm_base::{List, Memory};
use mm_database::Database;
use solve_model::Bound;
use std::alloc::Global;
use writing_laws::named_tree_has_count;
use written_steps::DraftItem;

/// Names the fresh leaves of a step's formula.
fn add_item(names: &mut Names<'_>, item: &DraftItem) -> Result<(), Memory>
    requires { HasSmallLeaves item.now }
    ensures { (d : Opened) (bound : Bound) (ts : List Tree) → IsNamesOf d bound ts names.old → OnOk result (IsNamesOf d bound (ts ++ option_to_list (tree_of item.now)) names.new) }
{
    match item {
        DraftItem::Comment(_) => Ok(()),
        DraftItem::Step(step) => names.add(&step.tree),
    }
}

/// The names of the fresh leaves of the formulas.
fn names_of<'d>(
    alloc: Global,
    db: &'d Database,
    bound: &Bound,
    items: &[DraftItem],
) -> Result<Names<'d>, Memory>
    requires symbols { length db.now.contents.symbols ≤ most_database_bytes }
    requires read { length (read_leaves db.now.rows bound.now) ≤ 2 ^ 28 }
    requires small { AllByRecursion HasSmallLeaves items.now }
    ensures { IfOk result (IsNamesOf db.now bound.now (formulas items.now)) }
{
    let mut names = Names::new(alloc, db, bound)?;
    for item in items {
        add_item(&mut names, item)?;
    }
    Ok(names)
}

/// The comments and steps of a worksheet with its new work variables named: in the order in which they first stand in the
/// formulas, each fresh leaf becomes the work variable of its typecode with the least number that the worksheet as it was
/// read does not have, whose name the database does not declare, and that no other leaf became. The values of uses are
/// named too, and all else stays. It takes time in proportion to the trees and to the formulas of the worksheet as it was
/// read, and memory for one name for each new work variable and, where there is one, for the trees.
///
/// The database has at most 2^28 symbols, the worksheet as it was read has at most 2^28 work variables in its formulas, and
/// the fresh leaves have numbers below 2^31; so a free number is left for each leaf. Fails where memory runs out.
pub fn name_items(
    alloc: Global,
    db: &Database,
    bound: &Bound,
    items: List<DraftItem>,
) -> Result<List<DraftItem>, Memory>
    requires symbols { length db.now.contents.symbols ≤ most_database_bytes }
    requires read { length (read_leaves db.now.rows bound.now) ≤ 2 ^ 28 }
    requires small { AreSmallLeaves (trees (steps_in (items_in db.now items))) }
    ensures { IfOk result (AreNamed db.now bound.now items) }
{
    names_are_naming();
    named_tree_has_count();
    let names = names_of(alloc, db, bound, items.as_slice())?;
    names.numbers_fit();
    renamed(alloc, &names, items)
}
