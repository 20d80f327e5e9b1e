//! The text of a worksheet: the one flat layout in which worksheets are written.
#![tactic(auto)]

mod index;
mod length;
mod text;

pub use length::layout_len;
pub use text::layout;
