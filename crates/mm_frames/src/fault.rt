use mm_base::Memory;
use std::alloc::{AllocError, AllocFailed};

/// Why tokens are no database: the first fault, with its byte, from 0. At one byte the earlier variant is the answer.
#[derive(Clone, Copy, PartialEq, Eq, Debug)]
pub enum ReadFault {
    /// The token `$[`.
    Include(u32),
    /// `$c` while a block is open.
    ConstInBlock(u32),
    /// In `$c` a symbol that was declared before; in `$v` one that is a constant or an active variable.
    Redeclared(u32),
    /// In `$e`, `$a` and `$p`, and first in `$f`, a symbol that is no constant and no active variable; in `$d`, and
    /// second in `$f`, one that is no active variable.
    NotActive(u32),
    /// In `$e`, `$a` and `$p`, past the first symbol, a variable without an active `$f`.
    NoType(u32),
    /// Second in `$f`, a variable that has an active `$f`.
    TwoTypes(u32),
    /// First in `$f`, `$e`, `$a` and `$p`, an active variable.
    FirstNotConst(u32),
    /// A label that was used before.
    LabelTaken(u32),
    /// `$f`, `$e`, `$a` or `$p` without a label just before; the byte is the keyword's.
    LabelMissing(u32),
    /// A label whose next token is there and is none of `$f`, `$e`, `$a` and `$p`.
    LabelExtra(u32),
    /// A label with a byte other than letters, digits, `-`, `_` and `.`.
    BadLabel(u32),
    /// The text ends in a statement or after a label; the byte is the text's length.
    Unended(u32),
    /// The text ends while a block is open; the byte is the text's length.
    BlockOpen(u32),
    /// `$}` while no block is open.
    BlockUnopened(u32),
    /// `$d` with fewer than two symbols; the byte is that of its `$.`.
    DistinctShort(u32),
    /// In `$d` a symbol that stands before in it.
    DistinctTwice(u32),
    /// In `$c`, `$v`, `$e`, `$a` and `$p` no symbol before `$.` or `$=`; the byte is that token's.
    EmptyFormula(u32),
    /// `$f` with fewer than two symbols, at its `$.`, or with more, at the third.
    BadHypothesis(u32),
    /// `$p` whose formula ends with `$.`; the byte is that token's.
    NoProof(u32),
    /// Any other keyword where it cannot stand.
    StrayToken(u32),
    /// Memory ran out.
    Memory,
}

impl From<AllocError> for ReadFault {
    ghost use Rattle.std.specs.Prelude.{◌≡◌};
    ghost use Rattle.mm_frames.specs.declared.fault.ReadFault.TheVariants.{Memory};

    ghost from_gives = { λ _ e. e ≡ Memory };

    fn from(_error: AllocError) -> Self {
        ReadFault::Memory
    }
}

impl<T: Drop> From<AllocFailed<T>> for ReadFault {
    ghost use Rattle.std.specs.Prelude.{◌≡◌};
    ghost use Rattle.mm_frames.specs.declared.fault.ReadFault.TheVariants.{Memory};

    ghost from_gives = { λ _ e. e ≡ Memory };

    fn from(_error: AllocFailed<T>) -> Self {
        ReadFault::Memory
    }
}

impl From<Memory> for ReadFault {
    ghost use Rattle.std.specs.Prelude.{◌≡◌};
    ghost use Rattle.mm_frames.specs.declared.fault.ReadFault.TheVariants.{Memory};

    ghost from_gives = { λ _ e. e ≡ Memory };

    fn from(_error: Memory) -> Self {
        ReadFault::Memory
    }
}
