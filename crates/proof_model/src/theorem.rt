use mm_base::{List, Name, Pair, Sym};
use mm_model::Hyp;

/// What is to be proved, and what its proof may use.
#[derive(Debug, Drop)]
pub struct Theorem {
    /// Its place: its proof may use the assertions whose statements have lesser numbers.
    pub at: u32,
    /// Its symbols in order, the typecode first.
    pub formula: List<Sym>,
    /// All its active hypotheses, in order of appearance.
    pub hyps: List<Hyp>,
    /// The labels of its mandatory hypotheses, in order of appearance.
    pub mandatory: List<Name>,
    /// Its active pairs of distinct variables.
    pub pairs: List<Pair>,
}
