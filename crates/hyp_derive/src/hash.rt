ghost use Rattle.std.specs.Prelude.{◌≡◌};
ghost use Rattle.hyp_derive.specs.Hashing.{mix, hash_of};

use mm_base::Tree;

/// An odd number with its bits well spread: 2^64 over the golden ratio.
const FACTOR: u64 = 0x9E37_79B9_7F4A_7C15;

fn mixed(hash: u64, word: u64) -> u64
    ensures { result ≡ mix hash word }
{
    let product = (hash ^ word).wrapping_mul(FACTOR);
    product ^ (product >> 32)
}

/// A number that equal trees have in common and others seldom. The typecode of a production is that of its label, and
/// is left out.
pub fn tree_hash(tree: &Tree) -> u64
    ensures { result ≡ hash_of tree.now }
{
    match tree {
        Tree::Var(symbol, code) => mixed(mixed(1, symbol.0 as u64), code.0.0 as u64),
        Tree::Work(code, number) => mixed(mixed(2, *number as u64), code.0.0 as u64),
        Tree::Fresh(code, number) => mixed(mixed(3, *number as u64), code.0.0 as u64),
        Tree::Node(label, _, children) => {
            let mut hash = mixed(4, label.0 as u64);
            for child in children.as_slice() {
                hash = mixed(hash, tree_hash(child));
            }
            hash
        }
    }
}
