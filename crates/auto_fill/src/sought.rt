ghost use Rattle.std.proofs.Props.{props};
ghost use Rattle.auto_fill.specs.Ready.{IsReady};

use mm_base::{List, Pair, Tree};

/// The step that an assertion is looked for, and the steps that it may take.
#[derive(Clone, Copy)]
pub struct Sought<'w, 'p, 'g> {
    /// The formulas of the steps.
    pub trees: &'w [Tree],
    /// The number of the step that is to be filled.
    pub number: u32,
    /// The numbers of the steps that it may take, in order.
    pub places: &'p [u32],
    /// The pairs that are allowed, where not all are.
    pub given: Option<&'g List<Pair>>,
    ghost ready: { IsReady trees.now number places.now } by { Prim.hlevel props },
}
