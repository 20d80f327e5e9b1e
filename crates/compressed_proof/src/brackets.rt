//! The brackets: the labels in them, and the letters behind them.

ghost use Rattle.std.specs.Prelude.{◌≡◌, ◌≤◌, length, drop, true, codes, vec_len, IfOk, IfErr};
ghost use Rattle.std.specs.Str.{bytes_eq};
ghost use Rattle.mm_model.specs.Words.{words_from};
ghost use Rattle.proof_model.specs.ProofCode.{is_bracketed, labels_of, letters_of};
ghost use Rattle.compressed_proof.specs.Parts.{letters_from, IsListed, IsNotClosed, IsNotBracketed};

use crate::fault::CodeFault;
use mm_base::{List, Memory, Name};
use mm_tokens::next_word;
use std::alloc::Global;

/// The labels in the brackets, and the place behind the closing bracket.
#[derive(Drop)]
pub(crate) struct Brackets {
    pub(crate) labels: Vec<Name>,
    pub(crate) end: usize,
}

fn is_open(word: &[u8]) -> bool
    ensures { result ≡ bytes_eq word.now (codes "(") }
{
    word == b"(".as_slice()
}

fn is_close(word: &[u8]) -> bool
    ensures { result ≡ bytes_eq word.now (codes ")") }
{
    word == b")".as_slice()
}

/// The labels before the first `)`.
fn read_labels(alloc: Global, text: &[u8], from: usize) -> Result<Brackets, CodeFault>
    requires { from ≤ length text.now }
    ensures within { IfOk result (λ b. b.end ≤ length text.now) }
    ensures count { IfOk result (λ b. vec_len b.labels ≤ length text.now) }
    ensures read { IfOk result (λ b. IsListed (words_from from (drop from text.now)) b.labels.items (words_from b.end (drop b.end text.now))) }
    ensures open { IfErr result (λ e. IsNotClosed (words_from from (drop from text.now)) e) }
{
    let mut labels = Vec::new(alloc);
    let mut at = from;
    while let Some((start, end)) = next_word(text, at) {
        let word = &text[start..end];
        at = end;
        if is_close(word) {
            return Ok(Brackets { labels, end });
        }
        labels.push(List::copy_of(alloc, word)?)?;
    }
    Err(CodeFault::NoBracket(0))
}

/// The labels in the brackets.
pub(crate) fn read_brackets(alloc: Global, text: &[u8]) -> Result<Brackets, CodeFault>
    ensures within { IfOk result (λ b. b.end ≤ length text.now) }
    ensures count { IfOk result (λ b. vec_len b.labels ≤ length text.now) }
    ensures bracketed { IfOk result (λ b. is_bracketed text.now ≡ true) }
    ensures labels { IfOk result (λ b. b.labels.items ≡ labels_of text.now) }
    ensures letters { IfOk result (λ b. letters_from b.end text.now ≡ letters_of text.now) }
    ensures none { IfErr result (λ e. IsNotBracketed text.now e) }
{
    let Some((start, end)) = next_word(text, 0) else {
        return Err(CodeFault::NoBracket(0));
    };
    if !is_open(&text[start..end]) {
        return Err(CodeFault::NoBracket(0));
    }
    read_labels(alloc, text, end)
}

/// The letters from a place on, in one run.
pub(crate) fn join_letters(alloc: Global, text: &[u8], from: usize) -> Result<Vec<u8>, Memory>
    requires { from ≤ length text.now }
    ensures letters { IfOk result (λ letters. letters.items ≡ letters_from from text.now) }
    ensures count { IfOk result (λ letters. length letters.items ≤ length text.now) }
{
    let mut letters = Vec::new(alloc);
    let mut at = from;
    while let Some((start, end)) = next_word(text, at) {
        letters.extend_from_slice(&text[start..end])?;
        at = end;
    }
    Ok(letters)
}
