use mm_base::{Label, List, Tree};

/// A reference and places with which a step that lists none fits.
#[derive(Debug, Drop)]
pub struct Auto {
    /// The label of the assertion.
    pub label: Label,
    /// For each of its `$e`, in order, the number of the step that it takes, counted from 0 without the comments.
    pub places: List<u32>,
    /// The values of its mandatory variables, in the order of its frame.
    pub trees: List<Tree>,
}
