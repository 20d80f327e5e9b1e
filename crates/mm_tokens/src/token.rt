use std::alloc::{AllocError, AllocFailed};

/// What a token is: one of the keywords, or a word, which is a label, a symbol or a part of a proof
/// (Metamath book, section 4.1.1). The two of comments never stand in a list of tokens.
#[derive(Clone, Copy, PartialEq, Eq, Debug)]
pub enum TokenKind {
    /// `$c`
    Constants,
    /// `$v`
    Variables,
    /// `$d`
    Distinct,
    /// `$f`
    Floating,
    /// `$e`
    Essential,
    /// `$a`
    Axiom,
    /// `$p`
    Provable,
    /// `$=`
    Equals,
    /// `$.`
    End,
    /// `${`
    OpenBlock,
    /// `$}`
    CloseBlock,
    /// `$(`
    OpenComment,
    /// `$)`
    CloseComment,
    /// `$[`
    OpenInclude,
    /// `$]`
    CloseInclude,
    /// Every other token; it has no `$`.
    Word,
}

/// A token, with the places of its first byte and of the byte after it, from 0.
#[derive(Clone, Copy, PartialEq, Eq, Debug)]
pub struct Token {
    pub start: u32,
    pub end: u32,
    pub kind: TokenKind,
}

/// Why a text has no tokens: the first fault, with its byte, from 0.
#[derive(Clone, Copy, PartialEq, Eq, Debug)]
pub enum TokenFault {
    /// A byte that is neither white space nor 33 to 126, also in a comment.
    BadByte(u32),
    /// The text ends in a comment; the byte is the text's length.
    OpenComment(u32),
    /// The token `$(` in a comment.
    CommentInComment(u32),
    /// Outside comments, the token `$)` or a token with a `$` that is no keyword.
    BadKeyword(u32),
    /// Memory ran out.
    Memory,
}

impl From<AllocError> for TokenFault {
    ghost use Rattle.std.specs.Prelude.{◌≡◌};
    ghost use Rattle.mm_tokens.specs.declared.token.TokenFault.TheVariants.{Memory};

    ghost from_gives = { λ _ e. e ≡ Memory };

    fn from(_error: AllocError) -> Self {
        TokenFault::Memory
    }
}

impl<T: Drop> From<AllocFailed<T>> for TokenFault {
    ghost use Rattle.std.specs.Prelude.{◌≡◌};
    ghost use Rattle.mm_tokens.specs.declared.token.TokenFault.TheVariants.{Memory};

    ghost from_gives = { λ _ e. e ≡ Memory };

    fn from(_error: AllocFailed<T>) -> Self {
        TokenFault::Memory
    }
}
