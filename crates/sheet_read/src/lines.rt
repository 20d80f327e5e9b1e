//! The lines of a worksheet's text, and the tokens of a line.

ghost use Rattle.std.specs.Prelude.{◌≡◌, ◌+◌, ◌≤◌, ◌++◌, length, nat_lt, slice_get, IfOk, OnOk};
ghost use Rattle.std.specs.List.{last_or};
ghost use Rattle.mm_base.specs.Limits.{most_sheet_bytes};
ghost use Rattle.sheet_text.specs.Lines.{trim_end, first_is_not_white, lines_not_blank, line_past_end, tokens};
ghost use Rattle.sheet_text.specs.SheetStatements.{ends_proof, tokens_in};
ghost use Rattle.sheet_read.specs.Parts.{line_in, lines_in, statement_in, targets, target, tokens_of_bytes};
ghost use Rattle.sheet_read.specs.Reading.{kind_of, kind_of_token, is_footer_kind};

use bstr::ByteSlice;
use mm_base::Memory;
use mm_tokens::{is_white, next_word};
use std::alloc::Global;

/// A line that is not blank.
#[derive(Clone, Copy, Debug)]
pub struct TextLine<'a> {
    /// Its number, from 1.
    pub number: u32,
    /// Its bytes, without the white space at its end.
    pub bytes: &'a [u8],
}

/// What a line is outside a proof.
#[derive(Clone, Copy, PartialEq, Eq, Debug)]
pub enum LineKind {
    /// It begins with white space, and belongs to the statement before it.
    Indented,
    /// It begins with `*`.
    Comment,
    /// Its first token is `$d`.
    Distinct,
    /// Its first token is `$=`.
    Proof,
    /// Its first token is `$)`.
    Footer,
    /// Any other line: a step, or no statement at all.
    Step,
}

/// The bytes without the white space at their end.
fn trimmed(bytes: &[u8]) -> &[u8]
    ensures { result.now ≡ trim_end bytes.now }
{
    let mut len = bytes.len();
    while len > 0 && is_white(bytes[len - 1]) {
        len -= 1;
    }
    &bytes[..len]
}

/// The lines that are not blank, and the number of lines plus one.
pub fn lines_not_blank<'a>(
    alloc: Global,
    text: &'a [u8],
) -> Result<(Vec<TextLine<'a>>, u32), Memory>
    requires { length text.now ≤ most_sheet_bytes }
    ensures lines { IfOk result (λ r. lines_in r.0.items ≡ lines_not_blank text.now) }
    ensures past { IfOk result (λ r. r.1 ≡ line_past_end text.now) }
    ensures few { IfOk result (λ r. length r.0.items ≤ most_sheet_bytes) }
{
    let mut lines = Vec::new(alloc);
    let mut number = 1;
    for line in text.lines_with_terminator() {
        let bytes = trimmed(line);
        if !bytes.is_empty() {
            lines.push(TextLine { number, bytes })?;
        }
        number += 1;
    }
    Ok((lines, number))
}

/// Whether bytes begin with none of white space.
pub fn begins(bytes: &[u8]) -> bool
    ensures { result ≡ first_is_not_white bytes.now }
{
    match bytes.first() {
        None => false,
        Some(byte) => !is_white(*byte),
    }
}

/// The first token.
pub fn first_token(bytes: &[u8]) -> Option<&[u8]>
    ensures { target result ≡ slice_get (tokens_of_bytes bytes.now) 0 }
{
    match next_word(bytes, 0) {
        None => None,
        Some((start, end)) => Some(&bytes[start..end]),
    }
}

/// Whether there are two tokens or more.
pub fn has_two_tokens(bytes: &[u8]) -> bool
    ensures { result ≡ nat_lt 1 (length (tokens_of_bytes bytes.now)) }
{
    match next_word(bytes, 0) {
        None => false,
        Some((_, end)) => next_word(bytes, end).is_some(),
    }
}

/// The last token.
fn last_token(bytes: &[u8]) -> Option<&[u8]>
    ensures { target result ≡ last_or None (tokens_of_bytes bytes.now) }
{
    let mut last = None;
    let mut at = 0;
    while let Some((start, end)) = next_word(bytes, at) {
        last = Some(&bytes[start..end]);
        at = end;
    }
    last
}

/// Whether the last token of a line is `$.`.
pub fn ends_proof(line: &TextLine<'_>) -> bool
    ensures { result ≡ ends_proof (line_in line.now) }
{
    match last_token(line.bytes) {
        None => false,
        Some(token) => token == b"$.".as_slice(),
    }
}

fn kind_of_token(token: &[u8]) -> LineKind
    ensures { result ≡ kind_of_token token.now }
{
    if token == b"$d".as_slice() {
        LineKind::Distinct
    } else if token == b"$=".as_slice() {
        LineKind::Proof
    } else if token == b"$)".as_slice() {
        LineKind::Footer
    } else {
        LineKind::Step
    }
}

/// What the line is outside a proof.
pub fn kind_of(line: &TextLine<'_>) -> LineKind
    ensures { result ≡ kind_of (line_in line.now) }
{
    let bytes = line.bytes;
    if !begins(bytes) {
        return LineKind::Indented;
    }
    if bytes[0] == b'*' {
        return LineKind::Comment;
    }
    match first_token(bytes) {
        None => LineKind::Step,
        Some(token) => kind_of_token(token),
    }
}

/// Whether a line of this kind is the footer.
pub fn is_footer(kind: LineKind) -> bool
    ensures { result ≡ is_footer_kind kind }
{
    matches!(kind, LineKind::Footer)
}

/// Appends the tokens of some bytes.
fn push_tokens<'a>(tokens: &mut Vec<&'a [u8]>, bytes: &'a [u8]) -> Result<(), Memory>
    ensures { OnOk result (targets tokens.new.items ≡ targets tokens.old.items ++ tokens_of_bytes bytes.now) }
{
    let mut at = 0;
    while let Some((start, end)) = next_word(bytes, at) {
        tokens.push(&bytes[start..end])?;
        at = end;
    }
    Ok(())
}

/// The tokens of a statement: those of its first line and of the lines behind it.
pub fn tokens_in<'a>(
    alloc: Global,
    first: &TextLine<'a>,
    more: &[TextLine<'a>],
) -> Result<Vec<&'a [u8]>, Memory>
    ensures { IfOk result (λ ts. targets ts.items ≡ tokens_in (statement_in first.now more.now)) }
{
    let mut tokens = Vec::new(alloc);
    push_tokens(&mut tokens, first.bytes)?;
    for line in more {
        push_tokens(&mut tokens, line.bytes)?;
    }
    Ok(tokens)
}
