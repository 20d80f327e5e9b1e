ghost use Rattle.std.specs.Prelude.{◌≡◌, ◌↔◌, IsTrue};
ghost use Rattle.std.specs.List.{list_all};
ghost use Rattle.written_model.specs.Found as spec;
ghost use Rattle.ref_search.specs.Placing.{IsClosed};

use crate::wanted::Wanted;
use mm_base::Tree;

/// Whether a tree has no work variable and no fresh leaf.
pub fn is_ground(tree: &Tree) -> bool
    ensures { result ≡ spec.is_ground tree.now }
{
    match tree {
        Tree::Var(_, _) => true,
        Tree::Work(_, _) => false,
        Tree::Fresh(_, _) => false,
        Tree::Node(_, _, children) => {
            for child in children.as_slice() {
                if !is_ground(child) {
                    return false;
                }
            }
            true
        }
    }
}

fn are_ground(trees: &[Tree]) -> bool
    ensures { result ≡ list_all spec.is_ground trees.now }
{
    for tree in trees {
        if !is_ground(tree) {
            return false;
        }
    }
    true
}

/// Whether no wanted tree has a work variable or a fresh leaf, as `first` needs it.
pub fn is_closed(wanted: &Wanted) -> bool
    ensures { IsTrue result ↔ IsClosed wanted.now }
{
    if !is_ground(&wanted.formula) {
        return false;
    }
    are_ground(wanted.hyps.as_slice())
}
