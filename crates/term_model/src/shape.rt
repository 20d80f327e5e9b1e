ghost use Rattle.std.specs.Prelude.{◌≡◌};

use mm_base::{Label, Sym, Typecode};

/// A node of the store, by its place, from 0.
#[derive(Clone, Copy, Debug, PartialEq, Eq)]
pub struct Id(pub u32);

/// What a look at a node shows.
#[derive(Clone, Copy, Debug, PartialEq, Eq)]
pub enum Shape {
    /// A variable, with its typecode.
    Var(Sym, Typecode),
    /// A node that stands for any tree of this typecode.
    Free(Typecode),
    /// A production, with its typecode and the number of its children.
    Node(Label, Typecode, u32),
}

impl Shape {
    ghost use Rattle.term_model.specs.Terms.{shape_code, shape_count, is_free_shape};

    /// Its typecode.
    pub fn code(self) -> Typecode
        ensures { result ≡ shape_code self }
    {
        match self {
            Shape::Var(_, code) => code,
            Shape::Free(code) => code,
            Shape::Node(_, code, _) => code,
        }
    }

    /// Whether it stands for any tree.
    pub fn is_free(self) -> bool
        ensures { result ≡ is_free_shape self }
    {
        match self {
            Shape::Free(_) => true,
            _ => false,
        }
    }

    /// The number of its children.
    pub fn count(self) -> u32
        ensures { result ≡ shape_count self }
    {
        match self {
            Shape::Node(_, _, count) => count,
            _ => 0,
        }
    }
}
