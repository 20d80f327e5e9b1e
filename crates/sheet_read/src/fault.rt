use mm_base::Memory;
use std::alloc::{AllocError, AllocFailed};

/// What is wrong at a line of a worksheet. Of several faults at one line the earlier variant is the answer.
#[derive(Clone, Copy, PartialEq, Eq, Debug)]
pub enum SheetCode {
    /// The first line that is not blank does not begin in column 1 with the token `$(`, or there is none; the line is
    /// then the number of lines plus one.
    NoHeader,
    /// The header's tokens have another form.
    BadHeader,
    /// No footer, and no proof is unended; the line is the number of lines plus one.
    NoFooter,
    /// A token behind the footer's `$)`; the line is that of the first such token.
    TextAfterFooter,
    /// A statement that is no comment and has no form of a step, and whose first token is none of `$d`, `$=` and `$)`.
    BadStep,
    /// A step's name that an earlier step has.
    NameTwice,
    /// A place that names no earlier step.
    HypUnknown,
    /// A step after `qed`; a hypothesis named `qed`; at the footer, no step named `qed`.
    QedPlace,
    /// A proof without its end; the line is that of its `$=`.
    ProofUnended,
    /// `$d` with fewer than two symbols, with one symbol twice, or with a token `$.` before its last token.
    BadDistinct,
}

/// Why a text is no worksheet.
#[derive(Clone, Copy, PartialEq, Eq, Debug)]
pub enum SheetFault {
    /// The first fault of the text, with its line, from 1.
    At(SheetCode, u32),
    /// Memory ran out.
    Memory,
}

impl From<AllocError> for SheetFault {
    ghost use Rattle.std.specs.Prelude.{◌≡◌};
    ghost use Rattle.sheet_read.specs.declared.fault.SheetFault.TheVariants.{Memory};

    ghost from_gives = { λ _ e. e ≡ Memory };

    fn from(_error: AllocError) -> Self {
        SheetFault::Memory
    }
}

impl<T: Drop> From<AllocFailed<T>> for SheetFault {
    ghost use Rattle.std.specs.Prelude.{◌≡◌};
    ghost use Rattle.sheet_read.specs.declared.fault.SheetFault.TheVariants.{Memory};

    ghost from_gives = { λ _ e. e ≡ Memory };

    fn from(_error: AllocFailed<T>) -> Self {
        SheetFault::Memory
    }
}

impl From<Memory> for SheetFault {
    ghost use Rattle.std.specs.Prelude.{◌≡◌};
    ghost use Rattle.sheet_read.specs.declared.fault.SheetFault.TheVariants.{Memory};

    ghost from_gives = { λ _ e. e ≡ Memory };

    fn from(_error: Memory) -> Self {
        SheetFault::Memory
    }
}
