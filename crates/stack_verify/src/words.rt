//! The words of a proof of the database.

ghost use Rattle.std.specs.Prelude.{◌≡◌, ◌≤◌, length, drop, codes, false, All, IfOk};
ghost use Rattle.std.specs.Str.{bytes_eq};
ghost use Rattle.mm_model.specs.Words.{words_from};
ghost use Rattle.stack_verify.specs.Stacks.{IsWithin};
ghost use Rattle.stack_verify.specs.Proofs.{names_in, proof_names};

use crate::formula::Span;
use mm_base::Memory;
use mm_tokens::{is_close_comment, is_open_comment, next_word};
use std::alloc::Global;

fn is_end(word: &[u8]) -> bool
    ensures { result ≡ bytes_eq word.now (codes "$.") }
{
    word == b"$.".as_slice()
}

/// The words from a place on that stand outside comments, before `$.`, each with its first byte and the byte after it.
pub(crate) fn read_words(alloc: Global, text: &[u8], from: usize) -> Result<Vec<Span>, Memory>
    requires { from ≤ length text.now }
    ensures within { IfOk result (λ spans. All (IsWithin (length text.now)) spans.items) }
    ensures words { IfOk result (λ spans. names_in text.now spans.items ≡ proof_names false (words_from from (drop from text.now))) }
{
    let mut spans = Vec::new(alloc);
    let mut in_comment = false;
    let mut at = from;
    while let Some((start, end)) = next_word(text, at) {
        let word = &text[start..end];
        at = end;
        if in_comment {
            in_comment = !is_close_comment(word);
        } else if is_open_comment(word) {
            in_comment = true;
        } else if is_end(word) {
            return Ok(spans);
        } else {
            spans.push(Span {
                from: start,
                to: end,
            })?;
        }
    }
    Ok(spans)
}
