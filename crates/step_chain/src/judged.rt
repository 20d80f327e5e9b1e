use chain_laws::VariableNode;
use mm_base::{Label, List};
use solve_model::Verdict;
use term_arena::{Id, Mark};

/// What is kept of an accepted step.
#[derive(Drop)]
pub struct Accepted {
    pub label: Label,
    /// The order in which it fits, as positions in its places.
    pub order: List<u32>,
    /// The nodes of the assertion's `$e`.
    pub hyps: List<Id>,
    /// The nodes of its mandatory variables, in the order of its frame.
    pub variables: List<VariableNode>,
}

/// What is judged of a step.
#[derive(Drop)]
pub enum Judged {
    Stands(Verdict),
    Fits(Accepted),
}

/// A step that was pushed, with the state of the store before it.
#[derive(Drop)]
pub struct Pushed {
    pub mark: Mark,
    pub judged: Judged,
}
