//! The text of a database with a theorem in it.

ghost use Rattle.std.specs.Prelude.{◌≡◌, ◌++◌, ◌≤◌, take, drop, length, IfOk, IfErr};
ghost use Rattle.mm_base.specs.Limits.{most_database_bytes};
ghost use Rattle.mm_frames.specs.Contents.{contents_of};
ghost use Rattle.mm_model.specs.Statements.{statements};
ghost use Rattle.install_model.specs.Installed.{installed};
ghost use Rattle.db_install.specs.Faults.{IsLarge};

use crate::block::{block, put};
use crate::place::place_byte;
use install_model::NewTheorem;
use mm_base::{Bytes, List, MOST_DATABASE_BYTES, Memory};
use mm_frames::Frames;
use std::alloc::Global;

/// Why a theorem is not put in.
#[derive(Clone, Copy, Debug, PartialEq, Eq)]
pub enum InstallFault {
    /// The text with it has so many bytes, over 2^28.
    TooLarge(u64),
    /// Memory ran out.
    Memory,
}

/// The text with a block at a byte.
fn joined(alloc: Global, text: &[u8], at: usize, block: &[u8]) -> Result<Bytes, Memory>
    requires { at ≤ length text.now }
    ensures { IfOk result (λ whole. whole ≡ take at text.now ++ block.now ++ drop at text.now) }
{
    let mut whole = Vec::with_capacity(alloc, text.len() + block.len())?;
    put(&mut whole, &text[..at])?;
    put(&mut whole, block)?;
    put(&mut whole, &text[at..])?;
    Ok(List::from_vec(whole))
}

/// The text of a database with a theorem in it, in a block of its own behind the statement before the place: on a new line
/// `${`, then the pairs, the `$e` and the theorem, each on a line, and `$}`, each line ended by LF. The frames are those of the
/// text. It takes the time and the memory of one copy of the text, and of the block.
///
/// # Errors
/// `TooLarge` with the bytes of that text, exactly where they are more than 2^28, unless memory runs out before that is known.
/// `Memory` where memory runs out.
pub fn install(
    alloc: Global,
    text: &[u8],
    frames: &Frames,
    place: u32,
    theorem: &NewTheorem,
) -> Result<Bytes, InstallFault>
    requires of_text { frames.now ≡ contents_of text.now }
    requires within { place ≤ length (statements text.now) }
    ensures text { IfOk result (λ whole. whole ≡ installed text.now place theorem.now) }
    ensures fits { IfOk result (λ whole. length whole ≤ most_database_bytes) }
    ensures fault { IfErr result (IsLarge (length (installed text.now place theorem.now))) }
{
    let Ok(block) = block(alloc, theorem) else {
        return Err(InstallFault::Memory);
    };
    let count = (text.len() + block.len()) as u64;
    if count > MOST_DATABASE_BYTES {
        return Err(InstallFault::TooLarge(count));
    }
    let at = place_byte(text, frames, place);
    match joined(alloc, text, at, block.as_slice()) {
        Ok(whole) => Ok(whole),
        Err(_) => Err(InstallFault::Memory),
    }
}
