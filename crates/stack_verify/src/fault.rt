ghost use Rattle.std.specs.Prelude.{◌≡◌, Result};
ghost use Rattle.proof_model.specs.Machine.{MachineFault, State, numbered};
ghost use Rattle.stack_verify.specs.Steps.{FailsWith, RunFails};

use mm_base::{List, Memory, Sym};
use std::alloc::{AllocError, AllocFailed};

/// Why a proof is refused: the first fault, with the number of its step, from 0, and what is told of it. Of several
/// faults of one step the one that stands first here comes first, but `Unknown` and `NotEarlier` come before all.
#[derive(Debug, Drop)]
pub enum ProofFault {
    /// An assertion has more mandatory hypotheses than the stack has entries.
    Underflow(u32),
    /// The entry for a `$f` has another typecode.
    TypeDiffers(u32),
    /// The entry for a `$e` is not the substituted hypothesis: what was expected, and what was found.
    HypDiffers(u32, List<Sym>, List<Sym>),
    /// The substitutes of a mandatory pair share a variable: the pair, and the least such variable.
    Shared(u32, Sym, Sym, Sym),
    /// Variables of the substitutes of a mandatory pair are no active pair of the theorem: the least such two.
    NotDistinct(u32, Sym, Sym),
    /// A label that is neither an active hypothesis of the theorem nor an assertion before its place.
    NotEarlier(u32),
    /// At the end the stack has another number of entries than one; the step is the number of steps.
    LeftOver(u32, u32),
    /// At the end there is one entry, and it is not the theorem's formula; the step is the number of steps.
    ResultDiffers(u32),
    /// A `?`.
    Unknown(u32),
    /// Memory ran out.
    Memory,
}

/// A fault of one step.
#[derive(Drop)]
pub(crate) enum StepFault {
    Underflow,
    TypeDiffers,
    HypDiffers(List<Sym>, List<Sym>),
    Shared(Sym, Sym, Sym),
    NotDistinct(Sym, Sym),
    NotEarlier,
    Unknown,
    Memory,
}

impl From<Memory> for StepFault {
    ghost use Rattle.std.specs.Prelude.{◌≡◌};
    ghost use Rattle.stack_verify.specs.declared.fault.StepFault.TheVariants.{Memory};

    ghost from_gives = { λ _ e. e ≡ Memory };

    fn from(_error: mm_base::Memory) -> Self {
        StepFault::Memory
    }
}

impl From<AllocError> for StepFault {
    ghost use Rattle.std.specs.Prelude.{◌≡◌};
    ghost use Rattle.stack_verify.specs.declared.fault.StepFault.TheVariants.{Memory};

    ghost from_gives = { λ _ e. e ≡ Memory };

    fn from(_error: AllocError) -> Self {
        StepFault::Memory
    }
}

impl<T: Drop> From<AllocFailed<T>> for StepFault {
    ghost use Rattle.std.specs.Prelude.{◌≡◌};
    ghost use Rattle.stack_verify.specs.declared.fault.StepFault.TheVariants.{Memory};

    ghost from_gives = { λ _ e. e ≡ Memory };

    fn from(_error: AllocFailed<T>) -> Self {
        StepFault::Memory
    }
}

impl From<Memory> for ProofFault {
    ghost use Rattle.std.specs.Prelude.{◌≡◌};
    ghost use Rattle.stack_verify.specs.declared.fault.ProofFault.TheVariants.{Memory};

    ghost from_gives = { λ _ e. e ≡ Memory };

    fn from(_error: mm_base::Memory) -> Self {
        ProofFault::Memory
    }
}

/// The fault with the number of its step.
pub(crate) fn at_step(step: u32, fault: StepFault) -> ProofFault
    ensures { (read : Result State MachineFault) → FailsWith fault read → RunFails result (numbered step read) }
{
    match fault {
        StepFault::Underflow => ProofFault::Underflow(step),
        StepFault::TypeDiffers => ProofFault::TypeDiffers(step),
        StepFault::HypDiffers(expected, found) => ProofFault::HypDiffers(step, expected, found),
        StepFault::Shared(x, y, v) => ProofFault::Shared(step, x, y, v),
        StepFault::NotDistinct(v, w) => ProofFault::NotDistinct(step, v, w),
        StepFault::NotEarlier => ProofFault::NotEarlier(step),
        StepFault::Unknown => ProofFault::Unknown(step),
        StepFault::Memory => ProofFault::Memory,
    }
}
