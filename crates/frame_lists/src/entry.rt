ghost use Rattle.std.specs.Prelude.{◌≡◌};
ghost use Rattle.frame_lists.specs.Steps.{is_assertion, is_axiom, is_floating};

use mm_base::{List, Sym};

/// A keyword that a statement with symbols begins with.
#[derive(Clone, Copy, Debug)]
pub enum StatementKind {
    Constants,
    Variables,
    Distinct,
    Floating,
    Essential,
    Axiom,
    Provable,
}

/// What a statement is.
#[derive(Clone, Copy, Debug)]
pub enum EntryKind {
    /// It has this keyword.
    Statement(StatementKind),
    /// `${`
    OpenBlock,
    /// `$}`
    CloseBlock,
}

/// A statement of a database, by numbers.
#[derive(Debug, Drop)]
pub struct Entry {
    pub kind: EntryKind,
    /// The byte where it begins, from 0.
    pub start: u32,
    /// Its symbols in order; those of a proof are none.
    pub symbols: List<Sym>,
    /// Where its proof begins and ends; none where it is no `$p`.
    pub proof: Option<(u32, u32)>,
}

/// Whether it is a `$f`.
pub(crate) fn is_floating(kind: EntryKind) -> bool
    ensures { result ≡ is_floating kind }
{
    matches!(kind, EntryKind::Statement(StatementKind::Floating))
}

/// Whether it is a `$a` or a `$p`.
pub(crate) fn is_assertion(kind: EntryKind) -> bool
    ensures { result ≡ is_assertion kind }
{
    matches!(
        kind,
        EntryKind::Statement(StatementKind::Axiom) | EntryKind::Statement(StatementKind::Provable)
    )
}

/// Whether it is a `$a`.
pub(crate) fn is_axiom(kind: EntryKind) -> bool
    ensures { result ≡ is_axiom kind }
{
    matches!(kind, EntryKind::Statement(StatementKind::Axiom))
}
