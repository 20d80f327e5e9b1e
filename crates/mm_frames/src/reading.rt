//! Reading a database from token to token.

ghost use Rattle.std.specs.Prelude.{◌≡◌, ◌≤◌, ◌<◌, ◌+◌, ◌^◌, length, map, IfOk, IfErr, OnOk, None, slice_get, option_map};
ghost use Rattle.mm_model.specs.Tokens.{token_fault, tokens as tokens_of};
ghost use Rattle.mm_model.specs.Statements.{statements, statement_fault};
ghost use Rattle.mm_tokens.specs.Tokens.{token_of};
ghost use Rattle.mm_frames.specs.Faults.{IsFault};
ghost use Rattle.mm_frames.specs.Contents.{contents_of};
ghost use Rattle.mm_frames.specs.Kept.{IsKept};

use crate::fault::ReadFault;
use crate::frames::Frames;
use crate::reader::Reader;
use frame_lists::Listed;
use mm_base::List;
use mm_tokens::{Token, TokenKind};
use std::alloc::Global;

/// The kind of the token behind the one of this number.
fn next_kind(tokens: &[Token], number: usize) -> Option<TokenKind>
    requires { number < length tokens.now }
    ensures { result ≡ option_map (λ t. t.kind) (slice_get tokens.now (number + 1)) }
{
    match tokens.get(number + 1) {
        None => None,
        Some(token) => Some(token.kind),
    }
}

/// What is kept of all statements, or their first fault.
fn read_statements(alloc: Global, text: &[u8], tokens: &[Token]) -> Result<Reader, ReadFault>
    requires small { length text.now ≤ 2 ^ 28 }
    requires no_fault { token_fault text.now ≡ None }
    requires tokens { tokens.now ≡ map token_of (tokens_of text.now) }
    ensures no_fault { OnOk result (statement_fault text.now ≡ None) }
    ensures few { IfOk result (λ r. length r.entries ≤ 2 ^ 28) }
    ensures kept { IfOk result (IsKept (statements text.now)) }
    ensures first_fault { IfErr result (λ e. IsFault e (statement_fault text.now)) }
{
    let mut reader = Reader::new(alloc);
    for number in 0..tokens.len() {
        let next = next_kind(tokens, number);
        reader.note(tokens[number].start);
        reader.step(text, tokens[number], next)?;
    }
    reader.finish(text.len() as u32)?;
    Ok(reader)
}

/// The statements of a text whose tokens these are, or their first fault. It takes one pass over the tokens; blocks,
/// variables and hypotheses that are open cost nothing where they are not named.
pub fn read(alloc: Global, text: &[u8], tokens: &List<Token>) -> Result<Frames, ReadFault>
    requires small { length text.now ≤ 2 ^ 28 }
    requires no_token_fault { token_fault text.now ≡ None }
    requires tokens { tokens.now ≡ map token_of (tokens_of text.now) }
    ensures contents { IfOk result (λ f. f ≡ contents_of text.now) }
    ensures no_fault { OnOk result (statement_fault text.now ≡ None) }

    // The fault is the first one of the statements, unless memory runs out.
    ensures first_fault { IfErr result (λ e. IsFault e (statement_fault text.now)) }
{
    let Reader {
        symbols,
        labels,
        positions,
        entries,
        ..
    } = read_statements(alloc, text, tokens.as_slice())?;
    let listed = Listed {
        labels,
        positions,
        entries,
    };
    Ok(Frames::of(alloc, symbols, listed, text.len() as u32)?)
}
