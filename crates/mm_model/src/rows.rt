use mm_base::{Label, List, Sym, Typecode};

/// One place of a production's text.
#[derive(Clone, Copy, Debug, PartialEq, Eq)]
pub enum Item {
    Const(Sym),
    /// The tree of the slot with this number, from 0.
    Slot(u32),
}

/// A syntax axiom, by which trees are made.
#[derive(Debug, Drop)]
pub struct Production {
    pub label: Label,
    /// The number of its statement, from 0.
    pub at: u32,
    /// The typecode of the trees that it makes.
    pub gives: Typecode,
    /// Its text behind the typecode.
    pub items: List<Item>,
    /// The typecodes of its variables, in the order of its frame.
    pub slots: List<Typecode>,
}

/// One place of an expression.
#[derive(Clone, Copy, Debug, PartialEq, Eq)]
pub enum Leaf {
    Const(Sym),
    Var(Sym, Typecode),
    /// A work variable, by its typecode and its number.
    Work(Typecode, u32),
}
