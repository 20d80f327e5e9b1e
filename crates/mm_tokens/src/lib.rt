//! The tokens of a Metamath database outside its comments, and the walk from word to word that the readers of all
//! texts share.
#![tactic(auto)]

mod scan;
mod token;
mod words;

pub use scan::{is_close_comment, is_open_comment, tokens};
pub use token::{Token, TokenFault, TokenKind};
pub use words::{is_white, next_word};
