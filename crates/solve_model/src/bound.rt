use mm_base::{List, Name, Pair, Tree};
use proof_model::Theorem;
use sheet_text::Given;

/// A step of a worksheet, with the tree of its formula.
#[derive(Debug, Drop)]
pub struct BoundStep {
    /// The number of its first line. Nothing rests on it.
    pub line: u32,
    /// Whether it is a hypothesis of the theorem.
    pub hyp: bool,
    /// Its name, without the `h` of a hypothesis.
    pub name: Name,
    /// Its places, in the order in which they are listed.
    pub places: List<Given>,
    /// The label of the assertion that it rests on; of a hypothesis, its own label.
    pub reference: Option<Name>,
    /// The tree of its formula behind the typecode. None where the formula is blank.
    pub tree: Option<Tree>,
}

/// A worksheet without faults over its database.
#[derive(Debug, Drop)]
pub struct Bound {
    /// Its place: it may use the assertions whose statements have lesser numbers.
    pub place: u32,
    /// Whether its theorem is one of the database.
    pub existing: bool,
    /// Its steps, in order.
    pub steps: List<BoundStep>,
    /// The pairs of its `$d` statements, each once, by lesser and then greater symbol number.
    pub pairs: List<Pair>,
    /// Its theorem, by the formulas as they were read. A formula with a work variable is the empty list there.
    pub theorem: Theorem,
}
