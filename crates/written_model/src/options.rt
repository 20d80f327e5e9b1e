use mm_base::Kinds;

/// How a proof is written.
#[derive(Clone, Copy, Debug, PartialEq, Eq)]
pub enum ProofStyle {
    /// As the list of its labels.
    Normal,
    /// As a compressed proof (Metamath book, appendix B).
    Compressed,
}

/// Which pairs of distinct variables a worksheet may have.
#[derive(Clone, Copy, Debug, PartialEq, Eq)]
pub enum DvMode {
    /// Those of its `$d` statements, and all that its steps need.
    Add,
    /// Those of its `$d` statements alone.
    Given,
}

/// How a worksheet is unified and written.
#[derive(Debug, Drop)]
pub struct Options {
    /// How its proof is written.
    pub style: ProofStyle,
    /// The typecodes of assertions and of their trees.
    pub kinds: Kinds,
    /// The pairs that it may have.
    pub dv: DvMode,
}
