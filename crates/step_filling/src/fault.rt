ghost use Rattle.std.specs.Prelude.{◌≡◌};

use mm_base::{Memory, Name};

/// Why the steps are not filled.
#[derive(Debug, Drop)]
pub enum FillFault {
    /// The first formula that would be written and is too long: the name of its step and its tokens, over 4,096.
    TooLong(Name, u64),
    /// A value of an accepted step is too long, though none of the formulas up to that step is.
    LongValue,
    /// Memory ran out.
    Memory,
}

impl From<Memory> for FillFault {
    ghost use Rattle.step_filling.specs.declared.fault.FillFault.TheVariants as fill_fault;

    ghost from_gives = { λ _ e. e ≡ fill_fault.Memory };

    fn from(_fault: Memory) -> FillFault {
        FillFault::Memory
    }
}
