use mm_base::{Memory, Name};
use sheet_bind::{BindCode, BindFault};
use sheet_proof::ProofFault;
use sheet_read::{SheetCode, SheetFault};

/// Why a worksheet is not written. A number above 2^64 - 1 is told as 2^64 - 1.
#[derive(Drop)]
pub enum UnifyFault {
    /// The first fault of its text, with its line.
    Sheet(SheetCode, u32),
    /// The text has more than 2^24 bytes.
    TooBig,
    /// Its first fault over the database, with its line.
    Bind(BindCode, u32),
    /// It has this work size, over 2^24.
    TooMuch(u64),
    /// The first formula that would be written with more than 4,096 tokens: its step's name and its tokens.
    FormulaTooLong(Name, u64),
    /// The text that would be written has so many bytes, over 2^24.
    TooLarge(u64),
    /// What would be written has this work size, over 2^24.
    TooMuchWritten(u64),
    /// The first step whose formula, as it would be written, has two trees.
    WrittenTwoTrees(Name),
    /// Its normal proof has so many labels, over 2^20.
    ProofTooLong(u64),
    /// Memory ran out.
    Memory,
}

impl From<Memory> for UnifyFault {
    ghost use Rattle.std.specs.Prelude.{◌≡◌};
    ghost use Rattle.sheet_unify.specs.declared.faults.UnifyFault.TheVariants as faults;

    ghost from_gives = { λ _ r. r ≡ faults.Memory };

    fn from(_: Memory) -> UnifyFault {
        UnifyFault::Memory
    }
}

impl From<SheetFault> for UnifyFault {
    ghost use Rattle.std.specs.Prelude.{◌≡◌};
    ghost use Rattle.sheet_unify.specs.Told.{of_text};

    ghost from_gives = { λ e r. r ≡ of_text e };

    fn from(fault: SheetFault) -> UnifyFault {
        match fault {
            SheetFault::At(code, line) => UnifyFault::Sheet(code, line),
            SheetFault::Memory => UnifyFault::Memory,
        }
    }
}

impl From<BindFault> for UnifyFault {
    ghost use Rattle.std.specs.Prelude.{◌≡◌};
    ghost use Rattle.sheet_unify.specs.Told.{of_binding};

    ghost from_gives = { λ e r. r ≡ of_binding e };

    fn from(fault: BindFault) -> UnifyFault {
        match fault {
            BindFault::At(code, line) => UnifyFault::Bind(code, line),
            BindFault::TooMuch(size) => UnifyFault::TooMuch(size),
            BindFault::Memory => UnifyFault::Memory,
        }
    }
}

impl From<ProofFault> for UnifyFault {
    ghost use Rattle.std.specs.Prelude.{◌≡◌};
    ghost use Rattle.sheet_unify.specs.Ended.{of_proof};

    ghost from_gives = { λ e r. r ≡ of_proof e };

    fn from(fault: ProofFault) -> UnifyFault {
        match fault {
            ProofFault::TooLong(labels) => UnifyFault::ProofTooLong(labels),
            ProofFault::Memory => UnifyFault::Memory,
        }
    }
}
