use mm_base::{Sym, Typecode};

/// A work variable of a worksheet, by its typecode and number, with its node in the store of terms.
#[derive(Clone, Copy, Debug)]
pub struct WorkNode {
    pub code: Typecode,
    pub number: u32,
    pub node: u32,
}

/// A candidate's own copy of a variable of its frame, with its node in the store of terms.
#[derive(Clone, Copy, Debug)]
pub struct VariableNode {
    pub sym: Sym,
    pub code: Typecode,
    pub node: u32,
}
