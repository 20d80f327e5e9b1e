ghost use Rattle.std.specs.Prelude.{◌≡◌};
ghost use Rattle.mm_base.specs.SameTrees.{same_tree};

use crate::tree::Tree;

/// Whether two trees are equal. They are compared from their heads on, and what stands below two nodes only where
/// these have one label, one typecode and as many children.
pub fn is_same(one: &Tree, other: &Tree) -> bool
    ensures { result ≡ same_tree one.now other.now }
{
    match one {
        Tree::Var(symbol, code) => match other {
            Tree::Var(other_symbol, other_code) => *symbol == *other_symbol && *code == *other_code,
            _ => false,
        },
        Tree::Work(code, number) => match other {
            Tree::Work(other_code, other_number) => *code == *other_code
                && *number == *other_number,
            _ => false,
        },
        Tree::Fresh(code, number) => match other {
            Tree::Fresh(other_code, other_number) => *code == *other_code
                && *number == *other_number,
            _ => false,
        },
        Tree::Node(label, code, children) => {
            let Tree::Node(other_label, other_code, others) = other else {
                return false;
            };
            if *label != *other_label {
                return false;
            }
            if *code != *other_code {
                return false;
            }
            let parts = children.as_slice();
            let other_parts = others.as_slice();
            if parts.len() != other_parts.len() {
                return false;
            }
            for (i, part) in parts.iter().enumerate() {
                if !is_same(part, &other_parts[i]) {
                    return false;
                }
            }
            true
        }
    }
}
