use mm_base::{Label, List, Tree};

/// What a step's reference has to give: the step's formula, and the formulas of its places in their order.
#[derive(Drop)]
pub struct Wanted {
    pub formula: Tree,
    pub hyps: List<Tree>,
}

/// An assertion that fits.
#[derive(Drop)]
pub struct Found {
    pub label: Label,
    /// The trees in place of its mandatory variables, in the order of its frame.
    pub trees: List<Tree>,
    /// For each of its `$e` the number of the wanted hypothesis that it becomes.
    pub order: List<u32>,
}
