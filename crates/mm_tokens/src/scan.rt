//! Reading the tokens: from word to word, past the comments.

ghost use Rattle.std.specs.Prelude.{◌≡◌, ◌==◌, ◌≤◌, not, ◌&&◌, length, map, IfOk, IfErr, OnOk, Ok, None, Option, false, codes, position, unwrap_or, MatchResult};
ghost use Rattle.std.specs.List.{list_any};
ghost use Rattle.std.specs.Str.{bytes_eq};
ghost use Rattle.mm_base.specs.Limits.{most_database_bytes};
ghost use Rattle.mm_model.specs.Words.{words};
ghost use Rattle.mm_model.specs.Faults.{Fault, earlier};
ghost use Rattle.mm_model.specs.Tokens.{keywords, is_bad_byte, bad_byte, words_fault, token_fault, tokens as tokens_of};
ghost use Rattle.mm_tokens.specs.Kinds.{mark_kind, keyword_kind};
ghost use Rattle.mm_tokens.specs.Scan.{FailsWith, first_of, read_words};
ghost use Rattle.mm_tokens.specs.Tokens.{IsFault, token_of};

use crate::token::{Token, TokenFault, TokenKind};
use crate::words::next_marked;
use mm_base::List;
use std::alloc::Global;

// By `|` and `&`, so that many bytes are tested at once.
fn is_bad_byte(byte: u8) -> bool
    ensures { result ≡ is_bad_byte byte }
{
    let white = (byte == b' ') | (byte == b'\t') | (byte == b'\r') | (byte == b'\n') | (byte == 12);
    !white & !((33 <= byte) & (byte <= 126))
}

/// Whether a byte may not stand there. It looks at all of them, which is faster than to stop at the first.
fn has_bad_byte(text: &[u8]) -> bool
    ensures { result ≡ list_any is_bad_byte text.now }
{
    let mut found = false;
    for byte in text {
        found |= is_bad_byte(*byte);
    }
    found
}

fn first_bad_byte(text: &[u8]) -> Option<usize>
    ensures { result ≡ position is_bad_byte text.now }
{
    if has_bad_byte(text) {
        return text.iter().position(|b| is_bad_byte(*b));
    }
    None
}

fn mark_kind(mark: u8) -> Option<TokenKind>
    ensures { result ≡ mark_kind mark }
{
    match mark {
        b'c' => Some(TokenKind::Constants),
        b'v' => Some(TokenKind::Variables),
        b'd' => Some(TokenKind::Distinct),
        b'f' => Some(TokenKind::Floating),
        b'e' => Some(TokenKind::Essential),
        b'a' => Some(TokenKind::Axiom),
        b'p' => Some(TokenKind::Provable),
        b'=' => Some(TokenKind::Equals),
        b'.' => Some(TokenKind::End),
        b'{' => Some(TokenKind::OpenBlock),
        b'}' => Some(TokenKind::CloseBlock),
        b'(' => Some(TokenKind::OpenComment),
        b')' => Some(TokenKind::CloseComment),
        b'[' => Some(TokenKind::OpenInclude),
        b']' => Some(TokenKind::CloseInclude),
        _ => None,
    }
}

fn keyword_kind(word: &[u8]) -> Option<TokenKind>
    ensures { result ≡ keyword_kind word.now }
{
    if word.len() == 2 && word[0] == b'$' {
        mark_kind(word[1])
    } else {
        None
    }
}

/// Whether the word opens a comment.
pub fn is_open_comment(word: &[u8]) -> bool
    ensures { result ≡ bytes_eq word.now (codes "$(") }
{
    word == b"$(".as_slice()
}

/// Whether the word closes a comment.
pub fn is_close_comment(word: &[u8]) -> bool
    ensures { result ≡ bytes_eq word.now (codes "$)") }
{
    word == b"$)".as_slice()
}

/// Whether a word has a dollar and is no keyword, where the first is known.
fn is_bad_keyword(word: &[u8], dollar: bool) -> bool
    requires { dollar ≡ list_any (λ b. b == 36) word.now }
    ensures { result ≡ (list_any (λ b. b == 36) word.now && not (list_any (bytes_eq word.now) keywords)) }
{
    dollar && keyword_kind(word).is_none()
}

fn kind_of(word: &[u8]) -> TokenKind
    ensures { result ≡ unwrap_or (keyword_kind word.now) TokenKind.Word }
{
    keyword_kind(word).unwrap_or(TokenKind::Word)
}

/// Reads from word to word.
fn read_words(alloc: Global, text: &[u8]) -> Result<Vec<Token>, TokenFault>
    requires { length text.now ≤ most_database_bytes }
    ensures { MatchResult result (λ ts. read_words false (length text.now) (words text.now) ≡ Ok ts.items)
        (λ e. FailsWith e (read_words false (length text.now) (words text.now))) }
{
    let mut tokens = Vec::new(alloc);
    let mut in_comment = false;
    let mut at = 0;
    while let Some((start, end, dollar)) = next_marked(text, at) {
        let word = &text[start..end];
        if in_comment {
            if is_open_comment(word) {
                return Err(TokenFault::CommentInComment(start as u32));
            }
            in_comment = !is_close_comment(word);
        } else if is_open_comment(word) {
            in_comment = true;
        } else if is_close_comment(word) || is_bad_keyword(word, dollar) {
            return Err(TokenFault::BadKeyword(start as u32));
        } else {
            tokens.push(Token {
                start: start as u32,
                end: end as u32,
                kind: kind_of(word),
            })?;
        }
        at = end;
    }
    if in_comment {
        return Err(TokenFault::OpenComment(text.len() as u32));
    }
    Ok(tokens)
}

/// The tokens, or the first fault of the words.
fn scan(alloc: Global, text: &[u8]) -> Result<Vec<Token>, TokenFault>
    requires { length text.now ≤ most_database_bytes }
    ensures tokens { IfOk result (λ ts. ts.items ≡ map token_of (tokens_of text.now)) }
    ensures no_fault { OnOk result (words_fault text.now ≡ None) }
    ensures first_fault { IfErr result (λ e. IsFault e (words_fault text.now)) }
{
    // Handed on by a `match`, which the checker follows.
    match read_words(alloc, text) {
        Ok(tokens) => Ok(tokens),
        Err(fault) => Err(fault),
    }
}

fn first_of(bad: u32, other: TokenFault) -> TokenFault
    ensures { result ≡ first_of bad other }
{
    match other {
        TokenFault::BadByte(at)
        | TokenFault::OpenComment(at)
        | TokenFault::CommentInComment(at)
        | TokenFault::BadKeyword(at)
            if bad <= at => { TokenFault::BadByte(bad) }
        _ => other,
    }
}

/// The first fault, where the words' first is known.
fn with_bad_byte(text: &[u8], other: TokenFault) -> TokenFault
    requires { length text.now ≤ most_database_bytes }
    ensures { (f : Option Fault) → IsFault other f → IsFault result (earlier (bad_byte text.now) f) }
{
    match first_bad_byte(text) {
        None => other,
        Some(bad) => first_of(bad as u32, other),
    }
}

/// The tokens outside comments, in order, or the first fault of the text. It takes time in proportion to the text, and
/// memory in proportion to the tokens.
pub fn tokens(alloc: Global, text: &[u8]) -> Result<List<Token>, TokenFault>
    requires { length text.now ≤ most_database_bytes }
    ensures tokens { IfOk result (λ ts. ts ≡ map token_of (tokens_of text.now)) }
    ensures no_fault { OnOk result (token_fault text.now ≡ None) }

    // The fault is the first one of the text, unless memory runs out.
    ensures first_fault { IfErr result (λ e. IsFault e (token_fault text.now)) }
{
    let tokens = match scan(alloc, text) {
        Ok(tokens) => tokens,
        Err(other) => return Err(with_bad_byte(text, other)),
    };
    match first_bad_byte(text) {
        None => Ok(List::from_vec(tokens)),
        Some(bad) => Err(TokenFault::BadByte(bad as u32)),
    }
}
