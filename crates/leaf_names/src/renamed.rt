ghost use Rattle.std.specs.Prelude.{◌≡◌, IfOk};
ghost use Rattle.solve_model.specs.Trees.{fresh};
ghost use Rattle.written_model.specs.Named.{name_leaf, name_tree};
ghost use Rattle.leaf_names.specs.Tables.{naming_of};

use indexmap::IndexMap;
use mm_base::{List, Memory, Tree, Typecode};
use std::alloc::Global;

/// A fresh leaf as the work variable that it became; as it is where it has no name.
fn leaf(given: &IndexMap<(u32, u32), u32>, code: Typecode, number: u32) -> Tree
    ensures { result ≡ name_leaf (naming_of given.now.entries) (fresh code number) }
{
    match given.get(&(code.0.0, number)) {
        None => Tree::Fresh(code, number),
        Some(name) => Tree::Work(code, *name),
    }
}

/// A tree with its fresh leaves named.
#[tactic(auto, using(solve_model::proofs::TreeLaws::replaces))]
pub(crate) fn renamed(
    alloc: Global,
    given: &IndexMap<(u32, u32), u32>,
    tree: &Tree,
) -> Result<Tree, Memory>
    ensures { IfOk result (λ t. t ≡ name_tree (naming_of given.now.entries) tree.now) }
{
    match tree {
        Tree::Var(sym, code) => Ok(Tree::Var(*sym, *code)),
        Tree::Work(code, number) => Ok(Tree::Work(*code, *number)),
        Tree::Fresh(code, number) => Ok(leaf(given, *code, *number)),
        Tree::Node(label, code, children) => {
            let mut named = Vec::new(alloc);
            for child in children.as_slice() {
                named.push(renamed(alloc, given, child)?)?;
            }
            Ok(Tree::Node(*label, *code, List::from_vec(named)))
        }
    }
}
