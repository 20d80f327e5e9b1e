use compressed_proof::{Code, CodeFault, decode, decode_undoes_encode, encode, letters};
use mm_base::{Bytes, List, MOST_DATABASE_BYTES, Memory, Name};
use std::alloc::Global;
use std::test::Fail;

fn number(alloc: Global, n: u64) -> Option<Bytes> {
    if n == 0 {
        return None;
    }
    letters(alloc, n).ok()
}

fn is_text(found: Option<Bytes>, text: &[u8]) -> bool {
    match found {
        None => false,
        Some(found) => found.as_slice() == text,
    }
}

const NUMBERS: &[(u64, &[u8])] = &[
    (1, b"A"),
    (20, b"T"),
    (21, b"UA"),
    (120, b"YT"),
    (121, b"UUA"),
];

#[test]
fn spells_numbers(rt: HostRuntime) {
    decode_undoes_encode();
    for (n, spelling) in NUMBERS {
        assert!(rt; is_text(number(rt.alloc(), *n), spelling));
    }
}

fn names(alloc: Global, words: &[&'static [u8]]) -> Result<List<Name>, Memory> {
    let mut made = Vec::new(alloc);
    for word in words {
        made.push(List::from_vec(Vec::from_slice(alloc, word)?))?;
    }
    Ok(List::from_vec(made))
}

// The code that a text spells where these are the mandatory hypotheses.
fn decoded(alloc: Global, text: &[u8], mandatory: &[&'static [u8]]) -> Result<Code, CodeFault> {
    let mandatory = names(alloc, mandatory)?;
    if text.len() as u64 > MOST_DATABASE_BYTES
        || mandatory.as_slice().len() as u64 > MOST_DATABASE_BYTES
    {
        return Err(CodeFault::Memory);
    }
    decode(alloc, text, &mandatory)
}

fn encoded(alloc: Global, code: &Code, mandatory: u32) -> Option<Bytes> {
    if code.labels.as_slice().len() >= 1 << 32 {
        return None;
    }
    encode(alloc, code, mandatory).ok()
}

#[test]
fn reads_and_writes(rt: HostRuntime) -> Result<(), Fail> {
    let code = decoded(rt.alloc(), b"( wi ax-1 )\tAB\nZC D ?", &[b"wph"])?;
    assert!(rt; is_text(encoded(rt.alloc(), &code, 1), b"( wi ax-1 ) ABZCD?"));
    Ok(())
}

// The code of a fault and its index.
pub(crate) fn place(fault: &CodeFault) -> (u32, u32) {
    match fault {
        CodeFault::BadLetter(index) => (1, *index),
        CodeFault::NumberTooLarge(index, _) => (2, *index),
        CodeFault::MarkAtStart(index) => (3, *index),
        CodeFault::MarkTwice(index) => (4, *index),
        CodeFault::UnendedNumber(index) => (5, *index),
        CodeFault::NoBracket(index) => (6, *index),
        CodeFault::MandatoryListed(index, _) => (7, *index),
        CodeFault::LabelTwice(index, _) => (8, *index),
        CodeFault::Memory => (0, 0),
    }
}

// What is told of a fault: a number, a label, or nothing.
#[derive(Clone, Copy)]
pub(crate) enum Told {
    Number(u64),
    Label(&'static [u8]),
    Nothing,
}

pub(crate) fn tells(fault: &CodeFault, told: Told) -> bool {
    match fault {
        CodeFault::NumberTooLarge(_, number) => match told {
            Told::Number(wanted) => *number == wanted,
            _ => false,
        },
        CodeFault::MandatoryListed(_, label) | CodeFault::LabelTwice(_, label) => match told {
            Told::Label(wanted) => label.as_slice() == wanted,
            _ => false,
        },
        _ => matches!(&told, Told::Nothing),
    }
}

// A text where `wph` and `wps2` are mandatory hypotheses, with the code of its first fault, its index and what is told.
const FAULTS: &[(&[u8], (u32, u32), Told)] = &[
    (b"( ) Aa", (1, 1), Told::Nothing),
    (b"( ax ) A 1B", (1, 1), Told::Nothing),
    (b"( ax ) CD", (2, 1), Told::Number(4)),
    (b"( ) AZUA", (2, 3), Told::Number(21)),
    (
        b"( ) YYYYYYYYYYYYYYYYYYYYYYYYYYYYYYT",
        (2, 30),
        Told::Number(18446744073709551615),
    ),
    (b"( ) ZA", (3, 0), Told::Nothing),
    (b"( ax )\n Z Z", (3, 0), Told::Nothing),
    (b"( ) AZZ", (4, 2), Told::Nothing),
    (b"( ) BAZ ZA", (4, 3), Told::Nothing),
    (b"( ) AU", (5, 2), Told::Nothing),
    (b"( ) UZ", (5, 1), Told::Nothing),
    (b"( ) AU?", (5, 2), Told::Nothing),
    (b"ax ) A", (6, 0), Told::Nothing),
    (b"( ax )A", (6, 0), Told::Nothing),
    (b"( ax wph ) A", (7, 1), Told::Label(b"wph")),
    (b"( wps2 wps2 ) ?", (7, 0), Told::Label(b"wps2")),
    (b"( ax ax ) A", (8, 1), Told::Label(b"ax")),
    (b"( ax wi ax wph ) a", (8, 2), Told::Label(b"ax")),
];

fn is_refused(alloc: Global, text: &[u8], at: (u32, u32), told: Told) -> bool {
    match decoded(alloc, text, &[b"wph", b"wps2"]) {
        Ok(_) => false,
        Err(fault) => place(&fault) == at && tells(&fault, told),
    }
}

#[test]
fn first_faults(rt: HostRuntime) {
    for (text, at, told) in FAULTS {
        assert!(rt; is_refused(rt.alloc(), text, *at, *told));
    }
}
