ghost use Rattle.std.specs.Prelude.{◌≡◌, IfOk};

use mm_base::{Bytes, List, Memory, Name};
use std::alloc::Global;

/// The lines of a comment, in memory of their own.
pub fn copied_lines(alloc: Global, lines: &[Bytes]) -> Result<List<Bytes>, Memory>
    ensures { IfOk result (λ copies. copies ≡ lines.now) }
{
    let mut copies = Vec::new(alloc);
    for line in lines {
        copies.push(List::copy_of(alloc, line.as_slice())?)?;
    }
    Ok(List::from_vec(copies))
}

/// A reference, in memory of its own.
pub fn copied_reference(alloc: Global, reference: &Option<Name>) -> Result<Option<Name>, Memory>
    ensures { IfOk result (λ copy. copy ≡ reference.now) }
{
    match reference {
        None => Ok(None),
        Some(label) => {
            let copy = List::copy_of(alloc, label.as_slice())?;
            Ok(Some(copy))
        }
    }
}
