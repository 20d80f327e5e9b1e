ghost use Rattle.std.specs.Bool.{OnFalse};
ghost use Rattle.ref_search.specs.Matching.{NeverBecomes};

use mm_base::Tree;

/// Whether the productions of a tree of a frame stand in this tree too. Without that it never becomes this tree. It takes
/// no memory, and stops at the first production that differs.
pub fn may_become(pattern: &Tree, tree: &Tree) -> bool
    ensures { OnFalse result (NeverBecomes pattern.now tree.now) }
{
    let Tree::Node(label, _, children) = pattern else {
        return true;
    };
    let Tree::Node(other_label, _, others) = tree else {
        return false;
    };
    if *label != *other_label {
        return false;
    }
    let parts = children.as_slice();
    let other_parts = others.as_slice();
    if parts.len() != other_parts.len() {
        return false;
    }
    for (i, part) in parts.iter().enumerate() {
        if !may_become(part, &other_parts[i]) {
            return false;
        }
    }
    true
}
