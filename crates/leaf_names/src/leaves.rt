ghost use Rattle.std.specs.Prelude.{◌≡◌, ◌++◌, IfOk, OnOk};
ghost use Rattle.leaf_names.specs.Leaves.{fresh_leaves as leaves_of};

use mm_base::{Memory, Tree};
use mm_model::Item;
use std::alloc::Global;
use syntax_grammar::Grammar;

/// Writes the fresh leaves of a tree's text at the end of a list.
#[tactic(auto, using(crate::proofs::LeafLaws::leaf_rules))]
fn write(g: &Grammar, tree: &Tree, out: &mut Vec<(u32, u32)>) -> Result<(), Memory>
    ensures { OnOk result (out.new.items ≡ out.old.items ++ leaves_of g.now tree.now) }
{
    match tree {
        Tree::Var(_, _) => {}
        Tree::Work(_, _) => {}
        Tree::Fresh(code, number) => out.push((code.0.0, *number))?,
        Tree::Node(label, _, children) => {
            if let Some(row) = g.production(*label) {
                for item in row.items.as_slice() {
                    match item {
                        Item::Const(_) => {}
                        Item::Slot(k) => {
                            if let Some(child) = children.as_slice().get(*k as usize) {
                                write(g, child, out)?;
                            }
                        }
                    }
                }
            }
        }
    }
    Ok(())
}

/// The fresh leaves of a tree in the order of its text, each by the symbol of its typecode and its number.
pub(crate) fn fresh_leaves(
    alloc: Global,
    g: &Grammar,
    tree: &Tree,
) -> Result<Vec<(u32, u32)>, Memory>
    ensures { IfOk result (λ leaves. leaves.items ≡ leaves_of g.now tree.now) }
{
    let mut out = Vec::new(alloc);
    write(g, tree, &mut out)?;
    Ok(out)
}
