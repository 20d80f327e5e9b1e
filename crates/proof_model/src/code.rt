use mm_base::{List, Name};

/// What a step of a proof names, each counted from 0.
#[derive(Clone, Copy, Debug, PartialEq, Eq)]
pub enum What {
    /// A mandatory hypothesis of the theorem.
    Hyp(u32),
    /// A label of the code's list.
    Listed(u32),
    /// What a marked step left, by the order of marking.
    Again(u32),
    /// A `?`: not proved yet.
    Unknown,
}

/// A step of a proof.
#[derive(Clone, Copy, Debug, PartialEq, Eq)]
pub struct Step {
    pub what: What,
    /// Whether later steps may name what it left.
    pub marked: bool,
}

/// A proof as a list of steps (Metamath book, appendix B).
#[derive(Debug, Drop)]
pub struct Code {
    /// The labels that steps name by their number.
    pub labels: List<Name>,
    /// The steps, in order.
    pub steps: List<Step>,
}
