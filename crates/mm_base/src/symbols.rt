ghost use Rattle.std.specs.Prelude.{◌≡◌, ◌<◌, IfSome, IsNone, ◌↔◌};

/// A math symbol, by its number: the order in which a database first declares it, from 0.
#[derive(Clone, Copy, Debug, PartialEq, Eq)]
pub struct Sym(pub u32);

/// A label, by its number: the order of its statement in the database, from 0.
#[derive(Clone, Copy, Debug, PartialEq, Eq)]
pub struct Label(pub u32);

/// The constant that an expression begins with: its type.
#[derive(Clone, Copy, Debug, PartialEq, Eq)]
pub struct Typecode(pub Sym);

/// Two variables that have to be distinct, the one of the lower number first.
#[derive(Clone, Copy, Debug, PartialEq, Eq)]
pub struct Pair {
    pub a: Sym,
    pub b: Sym,
}

impl Pair {
    ghost use Rattle.mm_base.specs.Pairs.{IsPairOf};

    /// The pair of two variables, in either order. None exactly where they are one.
    pub fn of(one: Sym, other: Sym) -> Option<Pair>
        ensures pair { IfSome result (IsPairOf one other) }
        ensures none { IsNone result ↔ (one.0 ≡ other.0) }
    {
        if one.0 == other.0 {
            return None;
        }
        if one.0 < other.0 {
            return Some(Pair { a: one, b: other });
        }
        Some(Pair { a: other, b: one })
    }
}
