//! The refusals of a worksheet, the lines that tell the faults of a database, of a worksheet and of a proof, and a fault
//! with its name, which these lines are written from.
#![tactic(auto)]

ghost use Rattle.std.specs.Prelude.{◌≡◌, codes, string_bytes, IfOk};
ghost use Rattle.fault_lines.specs.FaultLines as lines;
ghost use Rattle.fault_lines.specs.FaultLines.{code_faults, database_faults, proof_faults};
ghost use Rattle.fault_lines.specs.NamedFaults.{told, told_line, IsNamed};

use itoa::Buffer;
use std::alloc::{AllocError, Global};

/// A fault as its line tells it.
#[derive(Clone, Copy, Debug)]
pub struct NamedFault {
    /// Its code in its table.
    pub code: u8,
    /// The name of that code.
    pub name: &'static str,
    /// Where it stands, from 0: a byte of a database; a label, a letter or a step of a proof.
    pub place: u32,
}

/// `KIND error CODE NAME AT PLACE`.
fn line(
    alloc: Global,
    kind: &'static str,
    at: &'static str,
    fault: NamedFault,
) -> Result<String, AllocError>
    ensures { IfOk result (λ line. string_bytes line ≡ told_line kind.now at.now fault) }
{
    let (mut code, mut place) = (Buffer::new(), Buffer::new());
    let (code, place) = (code.format(fault.code), place.format(fault.place));
    let name = fault.name;
    format!(in alloc; "{kind} error {code} {name} {at} {place}")
}

/// The line on a fault of a database.
pub fn database_line(alloc: Global, fault: NamedFault) -> Result<String, AllocError>
    requires { IsNamed database_faults fault }
    ensures { IfOk result (λ line. string_bytes line ≡ lines.database_line (told fault)) }
{
    line(alloc, "database", "at byte", fault)
}

/// The line on a fault of a proof's code.
pub fn code_line(alloc: Global, fault: NamedFault) -> Result<String, AllocError>
    requires { IsNamed code_faults fault }
    ensures { IfOk result (λ line. string_bytes line ≡ lines.code_line (told fault)) }
{
    line(alloc, "code", "at", fault)
}

/// The line on a fault of a proof on the stack machine.
pub fn proof_line(alloc: Global, fault: NamedFault) -> Result<String, AllocError>
    requires { IsNamed proof_faults fault }
    ensures { IfOk result (λ line. string_bytes line ≡ lines.proof_line (told fault)) }
{
    line(alloc, "proof", "at", fault)
}
