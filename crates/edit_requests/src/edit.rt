//! A change of the text of a sheet.

ghost use Rattle.std.specs.Prelude.{◌≡◌, ◌<◌, ◌≤◌, ◌↔◌, length, true, false, IfOk, IsErrOf};
ghost use Rattle.std.specs.List.{replace_range};
ghost use Rattle.edit_model.specs.Sessions as session;
ghost use Rattle.mm_base.specs.Limits.{most_sheet_bytes};

use mm_base::{Bytes, List, MOST_SHEET_BYTES};
use std::alloc::{AllocError, Global};
use thiserror::Error;

/// Why the text of a sheet was not changed.
#[derive(Clone, Copy, Debug, PartialEq, Eq, Error)]
pub enum EditStop {
    /// The range is none of the text, or an end of it stands within a character.
    #[error("bad range")]
    BadRange,
    /// The text would be larger than a worksheet may be.
    #[error("too big")]
    TooBig,
    /// Memory ran out.
    #[error("out of memory")]
    Memory,
}

impl From<AllocError> for EditStop {
    ghost use Rattle.edit_requests.specs.declared.edit.EditStop.TheVariants.{Memory};

    ghost from_gives = { λ _ stop. stop ≡ Memory };

    fn from(_: AllocError) -> EditStop {
        EditStop::Memory
    }
}

// Whether a character of the text begins at this byte, or the text ends there.
fn is_boundary(text: &[u8], at: u64) -> bool
    ensures { result ≡ session.is_boundary text.now at }
{
    let at = at as usize;
    at <= text.len() && (at == text.len() || text[at] < 0x80 || text[at] >= 0xc0)
}

// Whether these two bytes are the ends of a range of the text, and no end stands within a character.
fn is_range(text: &[u8], from: u64, to: u64) -> bool
    ensures { result ≡ session.is_range text.now from to }
{
    from <= to && is_boundary(text, from) && is_boundary(text, to)
}

// The text with another in place of its bytes from `from` up to `to`.
fn replaced(
    alloc: Global,
    text: &[u8],
    from: usize,
    to: usize,
    new: &[u8],
) -> Result<Bytes, AllocError>
    requires within { from ≤ to }
    requires end { to ≤ length text.now }
    ensures { IfOk result (λ bytes. bytes ≡ replace_range text.now from to new.now) }
{
    let mut bytes = Vec::new(alloc);
    bytes.extend_from_slice(&text[..from])?;
    bytes.extend_from_slice(new)?;
    bytes.extend_from_slice(&text[to..])?;
    Ok(List::from_vec(bytes))
}

/// The text of a sheet with another in place of its bytes from `from` up to `to`.
pub fn edited(alloc: Global, text: &[u8], from: u64, to: u64, new: &[u8]) -> Result<Bytes, EditStop>
    ensures text { IfOk result (λ bytes. bytes ≡ replace_range text.now from to new.now) }
    ensures bad_range { IsErrOf result EditStop.BadRange ↔ (session.is_range text.now from to ≡ false) }
    ensures too_big { IsErrOf result EditStop.TooBig ↔ ((session.is_range text.now from to ≡ true)
        × (most_sheet_bytes < length (replace_range text.now from to new.now))) }
{
    if !is_range(text, from, to) {
        return Err(EditStop::BadRange);
    }
    let (from, to) = (from as usize, to as usize);
    let kept = from + (text.len() - to);
    if kept + new.len() > MOST_SHEET_BYTES as usize {
        return Err(EditStop::TooBig);
    }
    Ok(replaced(alloc, text, from, to, new)?)
}
