ghost use Rattle.std.specs.Prelude.{◌≡◌, ◌++◌, IfOk, OnOk};
ghost use Rattle.mm_model.specs.Texts as spec;

use mm_base::{List, Memory, Tree};
use mm_model::{Item, Leaf};
use std::alloc::Global;
use syntax_grammar::Grammar;

/// Writes the text of a tree at the end of a list.
#[tactic(auto, using(mm_model::proofs::TextLaws::texts))]
fn write(g: &Grammar, tree: &Tree, out: &mut Vec<Leaf>) -> Result<(), Memory>
    ensures { OnOk result (out.new.items ≡ out.old.items ++ spec.text g.now tree.now) }
{
    match tree {
        Tree::Var(sym, code) => out.push(Leaf::Var(*sym, *code))?,
        Tree::Work(code, number) => out.push(Leaf::Work(*code, *number))?,
        Tree::Fresh(_, _) => {}
        Tree::Node(label, _, children) => {
            if let Some(row) = g.production(*label) {
                for item in row.items.as_slice() {
                    match item {
                        Item::Const(sym) => out.push(Leaf::Const(*sym))?,
                        Item::Slot(k) => {
                            if let Some(child) = children.as_slice().get(*k as usize) {
                                write(g, child, out)?;
                            }
                        }
                    }
                }
            }
        }
    }
    Ok(())
}

/// The text of a tree: each child's text stands in its slot's place. A fresh leaf has none, and neither has a production
/// that the grammar does not have. It takes time in proportion to the nodes and constants of the tree.
///
/// Fails where memory runs out.
pub fn text(alloc: Global, g: &Grammar, tree: &Tree) -> Result<List<Leaf>, Memory>
    ensures { IfOk result (λ leaves. leaves ≡ spec.text g.now tree.now) }
{
    let mut out = Vec::new(alloc);
    write(g, tree, &mut out)?;
    Ok(List::from_vec(out))
}
