use mm_base::{List, Tree};

/// Steps for wanted formulas: earlier ones where they have them, and else new ones behind the earlier ones.
#[derive(Debug, Drop)]
pub struct Filled {
    /// The formulas of the new steps, in order.
    pub made: List<Tree>,
    /// For each wanted formula, in order, the number of its step: from 0 through the earlier steps and then the new ones.
    pub places: List<u32>,
}
