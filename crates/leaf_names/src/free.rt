ghost use Rattle.std.specs.Prelude.{◌≡◌, ◌+◌, [], slice_index_or, IfOk};
ghost use Rattle.leaf_names.specs.Tables.{is_declared as declares, is_unused as unused};
ghost use Rattle.leaf_names.specs.Cursors.{HasRoom, IsFirstUnused, last_number as last_of};

use indexmap::IndexSet;
use mm_base::{Memory, Sym};
use mm_frames::Frames;
use std::alloc::Global;
use work_vars::spelling;

/// The name of a typecode; no bytes where its symbol is none of the database.
fn code_name(frames: &Frames, code: u32) -> &[u8]
    ensures { result.now ≡ slice_index_or frames.now.symbols code [] }
{
    if code < frames.symbols() {
        frames.symbol_name(Sym(code))
    } else {
        b""
    }
}

/// Whether the database declares the name of a work variable.
fn is_declared(alloc: Global, frames: &Frames, code: u32, number: u32) -> Result<bool, Memory>
    ensures { IfOk result (λ b. b ≡ declares frames.now.symbols code number) }
{
    let name = spelling(alloc, code_name(frames, code), number)?;
    Ok(frames.symbol(name.as_slice()).is_some())
}

/// Whether a work variable was not read, and the database does not declare its name.
fn is_unused(
    alloc: Global,
    frames: &Frames,
    read: &IndexSet<(u32, u32)>,
    code: u32,
    number: u32,
) -> Result<bool, Memory>
    ensures { IfOk result (λ b. b ≡ unused frames.now.symbols read.now.keys code number) }
{
    if read.contains(&(code, number)) {
        return Ok(false);
    }
    Ok(!is_declared(alloc, frames, code, number)?)
}

/// The first number above the last one that was given for a typecode that is not used.
pub(crate) fn first_unused(
    alloc: Global,
    frames: &Frames,
    read: &IndexSet<(u32, u32)>,
    last: &[u32],
    code: u32,
) -> Result<u32, Memory>
    requires room { HasRoom frames.now.symbols read.now.keys last.now code }
    ensures { IfOk result (IsFirstUnused frames.now.symbols read.now.keys code (last_of last.now code + 1)) }
{
    let mut number = last_number(last, code) + 1;
    while !is_unused(alloc, frames, read, code, number)? {
        number += 1;
    }
    Ok(number)
}

/// The last number that was given for a typecode, or 0.
fn last_number(last: &[u32], code: u32) -> u32
    ensures { result ≡ last_of last.now code }
{
    match last.get(code as usize) {
        None => 0,
        Some(number) => *number,
    }
}
