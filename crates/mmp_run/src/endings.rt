//! Endings that write one line.

ghost use Rattle.std.specs.Prelude.{◌≡◌, IfOk};
ghost use Rattle.call_answers.specs.Given.{read_fault};
ghost use Rattle.mmp_run.specs.Refusals.{refusal};
ghost use Rattle.sheet_text.specs.Layout.{ended};

use call_answers::Ending;
use mm_base::{Bytes, List, Memory, Status};
use std::alloc::Global;

/// The text as a line.
pub fn make_line(alloc: Global, text: &str) -> Result<Bytes, Memory>
    ensures { IfOk result (λ bytes. bytes ≡ ended text.now) }
{
    let mut bytes = Vec::from_slice(alloc, text.as_bytes())?;
    bytes.push(b'\n')?;
    Ok(List::from_vec(bytes))
}

/// An ending that writes one line to the log and nothing else.
pub fn refuse_line(alloc: Global, status: Status, text: Bytes) -> Result<Ending, Memory>
    ensures { IfOk result (λ end. end ≡ refusal status text) }
{
    let mut log = text.into_vec();
    log.push(b'\n')?;
    Ok(Ending {
        out: List::from_vec(Vec::new(alloc)),
        log: List::from_vec(log),
        status,
    })
}

/// The same for a text that is borrowed.
pub fn refuse(alloc: Global, status: Status, text: &str) -> Result<Ending, Memory>
    ensures { IfOk result (λ end. end ≡ refusal status text.now) }
{
    let text = List::copy_of(alloc, text.as_bytes())?;
    refuse_line(alloc, status, text)
}

/// The ending that names a file which failed to be read.
pub fn refuse_read(alloc: Global, name: &str) -> Result<Ending, Memory>
    ensures { IfOk result (λ end. end ≡ read_fault name.now) }
{
    let Ok(text) = format!(in alloc; "read fault {name}") else {
        return Err(Memory);
    };
    refuse(alloc, Status::Read, text.as_str())
}
