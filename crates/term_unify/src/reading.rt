ghost use Rattle.std.specs.Prelude.{◌≡◌, ◌<◌, length, IfOk};
ghost use Rattle.term_model.specs.Store.{IsSolved};
ghost use Rattle.term_model.specs.Ranks.{IsAbove};
ghost use Rattle.term_unify.specs.Read.{IsReadOf, HasFreshOf, IsShort};

use mm_base::{List, Memory, Tree};
use std::alloc::Global;
use term_arena::{Arena, Id, Shape};

/// The most general tree of a node, with a leaf `Fresh` for each unbound free node, by the node's number and typecode. In
/// every solution the node has this tree, with the solution's trees in place of the leaves. It takes memory in proportion
/// to the nodes of the tree, time in proportion to them and to the bindings that lead to their ends, and recurses as deep
/// as the tree. `Memory`: there is no room for the tree.
pub fn read_off(alloc: Global, arena: &Arena, id: Id) -> Result<Tree, Memory>
    requires id { id.0 < length arena.now.nodes }
    requires solved { IsSolved arena.now.nodes arena.now.links }
    requires short { IsShort arena.now.nodes arena.now.links id.0 }
    ensures reads { IfOk result (IsReadOf arena.now.nodes arena.now.links id.0) }
    ensures fresh { IfOk result (HasFreshOf arena.now.nodes arena.now.links) }
{
    read(alloc, arena, id, arena.count())
}

/// The same, of a tree that is less deep than this.
fn read(alloc: Global, arena: &Arena, id: Id, depth: u32) -> Result<Tree, Memory>
    requires id { id.0 < length arena.now.nodes }
    requires deep { IsAbove arena.now.nodes arena.now.links depth id.0 }
    ensures reads { IfOk result (IsReadOf arena.now.nodes arena.now.links id.0) }
    ensures fresh { IfOk result (HasFreshOf arena.now.nodes arena.now.links) }
{
    let end = arena.follow(id);
    match arena.look(end) {
        Shape::Var(sym, code) => Ok(Tree::Var(sym, code)),
        Shape::Free(code) => Ok(Tree::Fresh(code, end.0)),
        Shape::Node(label, code, count) => {
            let mut trees = Vec::with_capacity(alloc, count as usize)?;
            for k in 0..count {
                let child = arena.child(end, k);
                let tree = read(alloc, arena, child, depth - 1)?;
                trees.push(tree)?;
            }
            Ok(Tree::Node(label, code, List::from_vec(trees)))
        }
    }
}
