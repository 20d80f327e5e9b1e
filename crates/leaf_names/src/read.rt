ghost use Rattle.std.specs.Prelude.{◌≡◌, filter_map, IfOk, OnOk};
ghost use Rattle.mm_model.specs.Texts.{text as text_of};
ghost use Rattle.written_model.specs.Named.{work_leaf};
ghost use Rattle.leaf_names.specs.Tables.{AddsRead, AreRead, read_leaves, step_leaves};

use formula_parse::text;
use indexmap::IndexSet;
use mm_base::{Memory, Tree};
use mm_model::Leaf;
use solve_model::{Bound, BoundStep};
use std::alloc::Global;
use syntax_grammar::Grammar;

/// Puts in the work variables of a text.
fn add_leaves(read: &mut IndexSet<(u32, u32)>, leaves: &[Leaf]) -> Result<(), Memory>
    ensures { OnOk result (AddsRead (filter_map work_leaf leaves.now) read.old.keys read.new.keys) }
{
    for leaf in leaves {
        match leaf {
            Leaf::Const(_) => {}
            Leaf::Var(_, _) => {}
            Leaf::Work(code, number) => {
                read.insert((code.0.0, *number))?;
            }
        }
    }
    Ok(())
}

/// Puts in the work variables of a tree.
fn add_tree(
    alloc: Global,
    g: &Grammar,
    read: &mut IndexSet<(u32, u32)>,
    tree: &Tree,
) -> Result<(), Memory>
    ensures { OnOk result (AddsRead (filter_map work_leaf (text_of g.now tree.now)) read.old.keys read.new.keys) }
{
    let leaves = text(alloc, g, tree)?;
    add_leaves(read, leaves.as_slice())
}

/// Puts in the work variables of a step.
fn add_step(
    alloc: Global,
    g: &Grammar,
    read: &mut IndexSet<(u32, u32)>,
    step: &BoundStep,
) -> Result<(), Memory>
    ensures { OnOk result (AddsRead (step_leaves g.now step.now) read.old.keys read.new.keys) }
{
    match &step.tree {
        None => Ok(()),
        Some(tree) => add_tree(alloc, g, read, tree),
    }
}

/// The work variables of the worksheet as it was read, each by the symbol of its typecode and its number.
pub(crate) fn read_works(
    alloc: Global,
    g: &Grammar,
    bound: &Bound,
) -> Result<IndexSet<(u32, u32)>, Memory>
    ensures { IfOk result (λ read. AreRead (read_leaves g.now bound.now) read.keys) }
{
    let mut read = IndexSet::new(alloc);
    for step in bound.steps.as_slice() {
        add_step(alloc, g, &mut read, step)?;
    }
    Ok(read)
}
