//! The code of a proof of the database.

ghost use Rattle.std.specs.Prelude.{◌≡◌, ℕ, List, ◌∷◌, None, length, codes, All, IfOk, IfErr, OnOk, option_map};
ghost use Rattle.std.specs.List.{join_with_byte};
ghost use Rattle.std.specs.Str.{bytes_eq};
ghost use Rattle.mm_model.specs.declared.frames.Frame.{Frame};
ghost use Rattle.mm_model.specs.Frames.{proof_range};
ghost use Rattle.mm_model.specs.Statements.{statements};
ghost use Rattle.mm_frames.specs.Contents.{contents_of};
ghost use Rattle.proof_model.specs.DatabaseProofs.{IsCodeOf, proof_code_fault};
ghost use Rattle.proof_model.specs.ProofCode.{AreInRange, Spells, code_fault};
ghost use Rattle.compressed_proof.specs.Decoded.{IsFault};
ghost use Rattle.stack_verify.specs.Proofs.{IsProofCodeFault, IsProofOf, name_in, names_in};
ghost use Rattle.stack_verify.specs.Stacks.{IsWithin};
ghost use Rattle.stack_verify.specs.Theorems.{labels_of_hyps};

use crate::formula::Span;
use crate::normal::normal;
use crate::theorems::labels_of;
use crate::words::read_words;
use compressed_proof::{Code, CodeFault, decode};
use mm_base::{Label, List, Memory};
use mm_frames::Frames;
use mm_model::Hyp;
use std::alloc::Global;

/// The most bytes of a proof, and the most hypotheses: no database has more.
const LIMIT: usize = 1 << 28;

/// The words with one space between two.
fn join_words(alloc: Global, text: &[u8], first: Span, others: &[Span]) -> Result<Vec<u8>, Memory>
    requires first { IsWithin (length text.now) first }
    requires others { All (IsWithin (length text.now)) others.now }
    ensures { IfOk result (λ joined. joined.items ≡ join_with_byte 32 (name_in text.now first ∷ names_in text.now others.now)) }
{
    let mut joined = Vec::new(alloc);
    joined.extend_from_slice(&text[first.from..first.to])?;
    for span in others {
        joined.push(b' ')?;
        joined.extend_from_slice(&text[span.from..span.to])?;
    }
    Ok(joined)
}

fn opens_bracket(word: &[u8]) -> bool
    ensures { result ≡ bytes_eq word.now (codes "(") }
{
    word == b"(".as_slice()
}

/// The code of a compressed proof.
fn compressed(alloc: Global, text: &[u8], hyps: &[Hyp]) -> Result<Code, CodeFault>
    ensures sound { OnOk result (code_fault text.now (labels_of_hyps hyps.now) ≡ None) }
    ensures spelled { IfOk result (λ code. Spells text.now (labels_of_hyps hyps.now) code) }
    ensures fault { IfErr result (λ e. IsFault text.now (labels_of_hyps hyps.now) e) }
{
    if text.len() > LIMIT || hyps.len() > LIMIT {
        return Err(CodeFault::Memory);
    }
    let mandatory = labels_of(alloc, hyps)?;
    decode(alloc, text, &mandatory)
}

/// The code of the proof with these words.
fn code_of(alloc: Global, text: &[u8], spans: &[Span], hyps: &[Hyp]) -> Result<Code, CodeFault>
    requires { All (IsWithin (length text.now)) spans.now }
    ensures sound { OnOk result (proof_code_fault (labels_of_hyps hyps.now) (names_in text.now spans.now) ≡ None) }
    ensures code { IfOk result (λ code. IsCodeOf (labels_of_hyps hyps.now) (names_in text.now spans.now) code) }
    ensures in_range { IfOk result (λ code. AreInRange (length (labels_of_hyps hyps.now)) (length code.labels) 0 code.steps) }
    ensures fault { IfErr result (λ e. IsProofCodeFault (labels_of_hyps hyps.now) (names_in text.now spans.now) e) }
{
    if spans.len() > LIMIT || hyps.len() > LIMIT {
        return Err(CodeFault::Memory);
    }
    if let [first, others @ ..] = spans {
        if opens_bracket(&text[first.from..first.to]) {
            let joined = join_words(alloc, text, *first, others)?;
            return compressed(alloc, joined.as_slice(), hyps);
        }
    }
    Ok(normal(alloc, text, spans, hyps)?)
}

/// The code of the proof of a `$p`: of a compressed one the code that its text spells, with one space between two words
/// and comments as white space; of a normal one a step for each label. Of a label that is no `$p` it has no steps. It
/// takes time and memory in proportion to the proof. More than 2^28 bytes or hypotheses count as want of memory.
pub fn proof_code(
    alloc: Global,
    text: &[u8],
    frames: &Frames,
    label: Label,
) -> Result<Code, CodeFault>
    requires { frames.now ≡ contents_of text.now }
    ensures sound { (f : Frame) (proof : List (List ℕ)) → IsProofOf (statements text.now) label f proof → OnOk result (proof_code_fault (labels_of_hyps f.hyps) proof ≡ None) }
    ensures code { (f : Frame) (proof : List (List ℕ)) → IsProofOf (statements text.now) label f proof → IfOk result (λ code. IsCodeOf (labels_of_hyps f.hyps) proof code) }

    ensures in_range { (f : Frame) (proof : List (List ℕ)) → IsProofOf (statements text.now) label f proof → IfOk result (λ code. AreInRange (length (labels_of_hyps f.hyps)) (length code.labels) 0 code.steps) }

    // The fault is the first one of the code, unless memory runs out; a normal proof has none.
    ensures fault { (f : Frame) (proof : List (List ℕ)) → IsProofOf (statements text.now) label f proof → IfErr result (λ e. IsProofCodeFault (labels_of_hyps f.hyps) proof e) }
{
    let Some(frame) = frames.frame(label) else {
        return Ok(empty(alloc));
    };
    let Some(from) = proof_start(frames, label) else {
        return Ok(empty(alloc));
    };
    let spans = read_words(alloc, text, from.min(text.len()))?;
    code_of(alloc, text, spans.as_slice(), frame.hyps.as_slice())
}

fn empty(alloc: Global) -> Code {
    Code {
        labels: List::from_vec(Vec::new(alloc)),
        steps: List::from_vec(Vec::new(alloc)),
    }
}

/// The byte where the proof of a `$p` begins.
fn proof_start(frames: &Frames, label: Label) -> Option<usize>
    ensures { (text : List ℕ) → frames.now ≡ contents_of text → result ≡ option_map (λ (r : ℕ × ℕ). r.0) (proof_range (statements text) label) }
{
    if label.0 >= frames.labels() {
        return None;
    }
    match frames.proof(label) {
        None => None,
        Some((from, _)) => Some(from as usize),
    }
}
