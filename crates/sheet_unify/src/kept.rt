use mm_base::{List, Pair, Tree};

/// What an outcome keeps beside what is written and reported.
#[derive(Drop)]
pub struct Kept {
    /// The pairs of the `$d` statements that were read.
    pub given: List<Pair>,
    /// The trees of the steps, in order.
    pub trees: List<Tree>,
}
