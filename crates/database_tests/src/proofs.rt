ghost use Rattle.std.specs.Prelude.{◌≡◌};
ghost use Rattle.mm_frames.specs.Contents.{contents_of};

use crate::proof_codes::{Told, place, tells};
use compressed_proof::CodeFault;
use mm_base::{Label, List, MOST_DATABASE_BYTES, Memory, Sym};
use mm_frames::{Frames, read};
use mm_tokens::tokens;
use stack_verify::{ProofFault, proof_code, theorem_of, verify};
use std::alloc::Global;

// The names of Metamath's first axioms, an assertion with a pair of distinct variables, and a closed block.
const BASE: &[u8] =
    b"$c ( ) -> -. wff |- $. $v ph ps ch $. wph $f wff ph $. wps $f wff ps $. wch $f wff ch $. \
    wn $a wff -. ph $. wi $a wff ( ph -> ps ) $. \
    ${ min $e |- ph $. maj $e |- ( ph -> ps ) $. ax-mp $a |- ps $. $} \
    ax-1 $a |- ( ph -> ( ps -> ph ) ) $. \
    ${ $d ph ps $. dv $a |- ( ph -> ps ) $. $} ";

// What is told of the last theorem of a database.
#[derive(Drop)]
enum Answer {
    Accepted,
    Code(CodeFault),
    Proof(ProofFault),
    Memory,
}

fn judge(alloc: Global, text: &[u8], frames: &Frames, label: Label) -> Answer
    requires { frames.now ≡ contents_of text.now }
{
    let Ok(theorem) = theorem_of(alloc, frames, label) else {
        return Answer::Memory;
    };
    let code = match proof_code(alloc, text, frames, label) {
        Ok(code) => code,
        Err(fault) => return Answer::Code(fault),
    };
    match verify(alloc, frames, &theorem, &code) {
        Ok(()) => Answer::Accepted,
        Err(fault) => Answer::Proof(fault),
    }
}

fn judge_text(alloc: Global, text: &[u8]) -> Answer {
    if text.len() as u64 > MOST_DATABASE_BYTES {
        return Answer::Memory;
    }
    let Ok(tokens) = tokens(alloc, text) else {
        return Answer::Memory;
    };
    match read(alloc, text, &tokens) {
        Err(_) => Answer::Memory,
        Ok(frames) => judge(
            alloc,
            text,
            &frames,
            Label(frames.labels().saturating_sub(1)),
        ),
    }
}

fn text_of(alloc: Global, theorem: &[u8]) -> Result<Vec<u8>, Memory> {
    let mut text = Vec::from_slice(alloc, BASE)?;
    text.extend_from_slice(theorem)?;
    Ok(text)
}

// The code of a fault and its step.
fn proof_place(fault: &ProofFault) -> (u32, u32) {
    match fault {
        ProofFault::Underflow(step) => (1, *step),
        ProofFault::TypeDiffers(step) => (2, *step),
        ProofFault::HypDiffers(step, _, _) => (3, *step),
        ProofFault::Shared(step, _, _, _) => (4, *step),
        ProofFault::NotDistinct(step, _, _) => (5, *step),
        ProofFault::NotEarlier(step) => (6, *step),
        ProofFault::LeftOver(step, _) => (7, *step),
        ProofFault::ResultDiffers(step) => (8, *step),
        ProofFault::Unknown(step) => (9, *step),
        ProofFault::Memory => (0, 0),
    }
}

fn are_symbols(formula: &List<Sym>, numbers: &[u32]) -> bool {
    let formula = formula.as_slice();
    formula.len() == numbers.len() && formula.iter().zip(numbers).all(|(s, n)| s.0 == *n)
}

// Whether these numbers are told, and of two formulas the second is this one.
fn proof_tells(fault: &ProofFault, numbers: &[u32], found: &[u32]) -> bool {
    match fault {
        ProofFault::HypDiffers(_, one, other) => {
            are_symbols(one, numbers) && are_symbols(other, found)
        }
        ProofFault::Shared(_, x, y, v) => numbers == [x.0, y.0, v.0].as_slice(),
        ProofFault::NotDistinct(_, v, w) => numbers == [v.0, w.0].as_slice(),
        ProofFault::LeftOver(_, count) => numbers == [*count].as_slice(),
        _ => numbers.is_empty(),
    }
}

// What a theorem's proof is answered with. The two of a fault are its code and its step.
#[derive(Clone, Copy)]
enum Wanted {
    Accepted,
    Code((u32, u32), Told),
    Proof((u32, u32), &'static [u32], &'static [u32]),
}

fn is_answered(answer: &Answer, wanted: Wanted) -> bool {
    match answer {
        Answer::Accepted => matches!(&wanted, Wanted::Accepted),
        Answer::Code(fault) => match wanted {
            Wanted::Code(at, told) => place(fault) == at && tells(fault, told),
            _ => false,
        },
        Answer::Proof(fault) => match wanted {
            Wanted::Proof(at, numbers, found) => {
                proof_place(fault) == at && proof_tells(fault, numbers, found)
            }
            _ => false,
        },
        Answer::Memory => false,
    }
}

const TOLD: Told = Told::Nothing;

const ROWS: &[(&[u8], Wanted)] = &[
    (
        b"t $p |- ( ph -> ( ps -> ph ) ) $= ( ax-1 ) ABC $.",
        Wanted::Accepted,
    ),
    (
        b"t $p |- ( ph -> ( ps -> ph ) ) $= wph $( x $. ) $) wps ax-1 $.",
        Wanted::Accepted,
    ),
    (b"t $p |- ph $= ( ) a $.", Wanted::Code((1, 0), TOLD)),
    (b"t $p |- ph $= ( ) A1 $.", Wanted::Code((1, 1), TOLD)),
    (
        b"t $p |- ph $= ( ) B $.",
        Wanted::Code((2, 0), Told::Number(2)),
    ),
    (
        b"t $p |- ph $= ( ) AZC $.",
        Wanted::Code((2, 2), Told::Number(3)),
    ),
    (b"t $p |- ph $= ( ) ZA $.", Wanted::Code((3, 0), TOLD)),
    (b"t $p |- ph $= ( wi ) ZB $.", Wanted::Code((3, 0), TOLD)),
    (b"t $p |- ph $= ( ) AZZ $.", Wanted::Code((4, 2), TOLD)),
    (
        b"t $p |- ph $= ( wn ) AZB $( x $) Z Z $.",
        Wanted::Code((4, 4), TOLD),
    ),
    (b"t $p |- ph $= ( ) U $.", Wanted::Code((5, 1), TOLD)),
    (b"t $p |- ph $= ( ) AU? $.", Wanted::Code((5, 2), TOLD)),
    (b"t $p |- ph $= ( A $.", Wanted::Code((6, 0), TOLD)),
    (b"t $p |- ph $= ( wph wps $.", Wanted::Code((6, 0), TOLD)),
    (
        b"t $p |- ph $= ( wph ) A $.",
        Wanted::Code((7, 0), Told::Label(b"wph")),
    ),
    (
        b"t $p |- ph $= ( wi wph ) A $.",
        Wanted::Code((7, 1), Told::Label(b"wph")),
    ),
    (
        b"t $p |- ph $= ( wi wi ) A $.",
        Wanted::Code((8, 1), Told::Label(b"wi")),
    ),
    (
        b"t $p |- ph $= ( wi wn wi ) A $.",
        Wanted::Code((8, 2), Told::Label(b"wi")),
    ),
    (b"t $p |- ph $= wi $.", Wanted::Proof((1, 0), &[], &[])),
    (b"t $p |- ph $= wph wi $.", Wanted::Proof((1, 1), &[], &[])),
    (
        b"t $p |- ph $= wph wps ax-1 wps wi $.",
        Wanted::Proof((2, 4), &[], &[]),
    ),
    (
        b"t $p |- ph $= wph wph wps ax-1 wi $.",
        Wanted::Proof((2, 4), &[], &[]),
    ),
    (
        b"t $p |- ps $= wph wps wph wps ax-1 wph wps ax-1 ax-mp $.",
        Wanted::Proof((3, 8), &[5, 6], &[5, 0, 6, 2, 0, 7, 2, 6, 1, 1]),
    ),
    (
        b"e1 $e |- ph $. t $p |- ps $= wph wps e1 e1 ax-mp $.",
        Wanted::Proof((3, 4), &[5, 0, 6, 2, 7, 1], &[5, 6]),
    ),
    (
        b"t $p |- ( ph -> ph ) $= wph wph dv $.",
        Wanted::Proof((4, 2), &[6, 7, 6], &[]),
    ),
    (
        b"t $p |- ph $= wph wps wi wps dv $.",
        Wanted::Proof((4, 4), &[6, 7, 7], &[]),
    ),
    (
        b"t $p |- ( ph -> ps ) $= wph wps dv $.",
        Wanted::Proof((5, 2), &[6, 7], &[]),
    ),
    (
        b"t $p |- ( ps -> ch ) $= ( dv ) ABC $.",
        Wanted::Proof((5, 2), &[7, 8], &[]),
    ),
    (b"t $p |- ph $= foo $.", Wanted::Proof((6, 0), &[], &[])),
    (b"t $p |- ph $= wph t $.", Wanted::Proof((6, 1), &[], &[])),
    (b"t $p |- ph $= $.", Wanted::Proof((7, 0), &[0], &[])),
    (
        b"t $p |- ph $= wph wps $.",
        Wanted::Proof((7, 2), &[2], &[]),
    ),
    (
        b"t $p |- ( ph -> ( ph -> ph ) ) $= wph wps ax-1 $.",
        Wanted::Proof((8, 3), &[], &[]),
    ),
    (b"t $p |- ph $= wph $.", Wanted::Proof((8, 1), &[], &[])),
    (b"t $p |- ph $= ? $.", Wanted::Proof((9, 0), &[], &[])),
    (b"t $p |- ph $= ( ) A? $.", Wanted::Proof((9, 1), &[], &[])),
];

fn has_answer(alloc: Global, theorem: &[u8], wanted: Wanted) -> bool {
    match text_of(alloc, theorem) {
        Err(_) => false,
        Ok(text) => is_answered(&judge_text(alloc, &text), wanted),
    }
}

#[test]
fn proofs_are_judged(rt: HostRuntime) {
    for (theorem, wanted) in ROWS {
        assert!(rt; has_answer(rt.alloc(), theorem, *wanted));
    }
}
