use mm_base::{Bytes, List, Pair, Tree};
use sheet_text::Sheet;
use written_model::ReportLine;

/// What came of a worksheet. Its pairs and its trees are copies, made once, when the steps are written.
#[derive(Debug, Drop)]
pub struct Outcome {
    /// The place of its theorem: how many statements of the database are before it.
    pub place: u32,
    /// Whether its theorem is one of the database.
    pub existing: bool,
    /// The written worksheet. Its line numbers are 0.
    pub sheet: Sheet,
    /// What stands between the `$=` and the `$.` of the written worksheet, without white space at its ends; none where it is
    /// not finished.
    pub proof: Option<Bytes>,
    /// The text of the written worksheet, with its proof where it is finished.
    pub text: Bytes,
    /// One line for each written step, in order.
    pub report: List<ReportLine>,
    /// The pairs of the `$d` statements that were read, each once.
    pub given: List<Pair>,
    /// The trees of the written steps, in order.
    pub trees: List<Tree>,
    /// Whether it is finished: no hypothesis and no step below `qed` has a work variable, and each step below `qed` is a
    /// hypothesis, or fits or is found with all its places, no `?` and, in each pair of variables, no fault.
    pub finished: bool,
}
