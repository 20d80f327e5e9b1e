use mm_base::{Label, List, Pair, Tree};
use sheet_text::SheetItem;
use written_model::DvMode;

/// A worksheet as it is written, with the trees of its steps.
#[derive(Clone, Copy)]
pub struct WrittenSheet<'i, 't, 'p> {
    /// How many statements of the database are before its theorem.
    pub place: u32,
    /// Which pairs it may have.
    pub mode: DvMode,
    /// The pairs of its `$d` statements as it was read.
    pub given: &'p List<Pair>,
    /// Its comments and steps, in order.
    pub items: &'i [SheetItem],
    /// The trees of its steps, in order.
    pub trees: &'t [Tree],
}

/// What is answered of a step that is asked about.
#[derive(Debug, Drop)]
pub enum Selection {
    /// No step has its name.
    NoSuchStep,
    /// It is a hypothesis, lists a `?`, or has a work variable in its formula or in that of one of its places.
    StepOpen,
    /// The labels of all assertions that fit it, in the order of the database.
    Fits(List<Label>),
}
