use mm_base::{Label, List, Name, Pair, Sym};

/// A hypothesis: a `$f` or a `$e` statement.
#[derive(Debug, Drop)]
pub struct Hyp {
    /// Its label.
    pub name: Name,
    /// Whether it is a `$f`: a typecode and a variable.
    pub floating: bool,
    /// Its symbols in order, the typecode first.
    pub formula: List<Sym>,
}

/// An assertion with what its proof may use and its users have to give (Metamath book, section 4.2.7).
#[derive(Debug, Drop)]
pub struct Frame {
    pub label: Label,
    /// Whether it is a `$a`; else it is a `$p`.
    pub is_axiom: bool,
    /// The number of its statement, from 0.
    pub at: u32,
    /// Its symbols in order, the typecode first.
    pub formula: List<Sym>,
    /// Its mandatory hypotheses in order of appearance.
    pub hyps: List<Hyp>,
    /// Its mandatory pairs of distinct variables, by lesser and then greater symbol number.
    pub pairs: List<Pair>,
}

/// What is active at a place of a database (Metamath book, section 4.2.8).
#[derive(Debug, Drop)]
pub struct Active {
    /// The active variables by symbol number.
    pub variables: List<Sym>,
    /// The active hypotheses in order of appearance.
    pub hyps: List<Hyp>,
    /// The active pairs of distinct variables, each once, by lesser and then greater symbol number.
    pub pairs: List<Pair>,
}
