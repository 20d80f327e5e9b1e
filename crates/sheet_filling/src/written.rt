use mm_base::{List, Pair, Tree};
use written_model::DvMode;

/// The formulas of a worksheet as it is written, with what its theorem allows.
#[derive(Clone, Copy)]
pub struct WrittenFormulas<'t, 'p> {
    /// How many statements of the database are before its theorem.
    pub place: u32,
    /// Which pairs it may have.
    pub mode: DvMode,
    /// The pairs of its `$d` statements as it was read.
    pub given: &'p List<Pair>,
    /// The trees of its steps, in order.
    pub trees: &'t [Tree],
}
