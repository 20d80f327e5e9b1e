use mm_base::{Memory, Name};
use std::alloc::{AllocError, AllocFailed};

/// Why a text is no proof code: the first fault, with its index, and what is told of it. The index is the number of the
/// label in the brackets, or of the letter behind them, from 0 and without white space. Labels are looked at first.
#[derive(Debug, Drop)]
pub enum CodeFault {
    /// A byte other than `A` to `Z` and `?`.
    BadLetter(u32),
    /// A number above the count of mandatory hypotheses, labels and marks so far, at its last letter; the number, or
    /// the largest of 64 bits where it is above that.
    NumberTooLarge(u32, u64),
    /// A `Z` before any step.
    MarkAtStart(u32),
    /// A `Z` just after a `Z`.
    MarkTwice(u32),
    /// A `Z`, a `?` or the end just after a letter `U` to `Y`; at the end the index is the number of letters.
    UnendedNumber(u32),
    /// The first word is not `(`, or there is no word `)`; the index is 0.
    NoBracket(u32),
    /// A label in the brackets that is a mandatory hypothesis.
    MandatoryListed(u32, Name),
    /// A label that stands before in the brackets.
    LabelTwice(u32, Name),
    /// Memory ran out.
    Memory,
}

impl From<Memory> for CodeFault {
    ghost use Rattle.std.specs.Prelude.{◌≡◌};
    ghost use Rattle.compressed_proof.specs.declared.fault.CodeFault.TheVariants.{Memory};

    ghost from_gives = { λ _ e. e ≡ Memory };

    fn from(_error: mm_base::Memory) -> Self {
        CodeFault::Memory
    }
}

impl From<AllocError> for CodeFault {
    ghost use Rattle.std.specs.Prelude.{◌≡◌};
    ghost use Rattle.compressed_proof.specs.declared.fault.CodeFault.TheVariants.{Memory};

    ghost from_gives = { λ _ e. e ≡ Memory };

    fn from(_error: AllocError) -> Self {
        CodeFault::Memory
    }
}

impl<T: Drop> From<AllocFailed<T>> for CodeFault {
    ghost use Rattle.std.specs.Prelude.{◌≡◌};
    ghost use Rattle.compressed_proof.specs.declared.fault.CodeFault.TheVariants.{Memory};

    ghost from_gives = { λ _ e. e ≡ Memory };

    fn from(_error: AllocFailed<T>) -> Self {
        CodeFault::Memory
    }
}
