ghost use Rattle.std.specs.Prelude.{◌≡◌, ◌-◌, ◌^◌, min};
ghost use Rattle.mm_model.specs.Sizes as spec;

use mm_base::Tree;

/// The number of a tree's nodes, its leaves among them, or 2^64 - 1 where there are more.
#[tactic(auto, using(mm_model::proofs::SizeLaws::node_counts))]
pub fn nodes(tree: &Tree) -> u64
    ensures { result ≡ min (spec.nodes tree.now) (2 ^ 64 - 1) }
{
    match tree {
        Tree::Var(_, _) | Tree::Work(_, _) | Tree::Fresh(_, _) => 1,
        Tree::Node(_, _, children) => {
            let mut count: u64 = 1;
            for child in children.as_slice() {
                count = count.saturating_add(nodes(child));
            }
            count
        }
    }
}
