use mm_base::{Bytes, List, Name};

/// A place of a step: which step it takes as a hypothesis.
#[derive(Clone, Copy, Debug, PartialEq, Eq)]
pub enum Given {
    /// The number of an earlier step, counted from 0 without the comments.
    Step(u32),
    /// A `?`: not given yet.
    Gap,
}

/// A step of a worksheet.
#[derive(Debug, Drop)]
pub struct SheetStep {
    /// The number of its first line, from 1; 0 in a worksheet that was not read.
    pub line: u32,
    /// Whether it is a hypothesis of the theorem.
    pub hyp: bool,
    /// Its name, without the `h` of a hypothesis.
    pub name: Name,
    /// Its places, in the order in which they are listed.
    pub places: List<Given>,
    /// The label of the assertion that it rests on; of a hypothesis, its own label.
    pub reference: Option<Name>,
    /// The tokens of its formula, the typecode first. A blank formula is the empty list.
    pub formula: List<Name>,
}

/// A comment or a step.
#[derive(Debug, Drop)]
pub enum SheetItem {
    /// The lines of a comment that are not blank, without the white space at their ends and without their line ends.
    Comment(List<Bytes>),
    Step(SheetStep),
}

/// A `$d` statement of a worksheet.
#[derive(Debug, Drop)]
pub struct PairLine {
    /// The number of its first line, from 1; 0 in a worksheet that was not read.
    pub line: u32,
    /// Its symbols, in order.
    pub names: List<Name>,
}

/// What a worksheet says.
#[derive(Debug, Drop)]
pub struct Sheet {
    /// The number of the header's first line, from 1; 0 in a worksheet that was not read.
    pub line: u32,
    /// The theorem's name.
    pub theorem: Name,
    /// The label of LOC_AFTER, where one is given.
    pub loc: Option<Name>,
    /// The comments and steps, in order.
    pub items: List<SheetItem>,
    /// The `$d` statements, in order.
    pub pairs: List<PairLine>,
}
