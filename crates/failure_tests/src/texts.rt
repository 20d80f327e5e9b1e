//! Texts that are too large to be listed.

use itoa::Buffer;
use mm_base::Memory;
use std::alloc::Global;

// Puts in a text so many times.
fn put_times(text: &mut Vec<u8>, part: &[u8], times: u32) -> Result<(), Memory> {
    for _ in 0..times {
        text.extend_from_slice(part)?;
    }
    Ok(())
}

/// A text, so many times.
pub fn repeated(alloc: Global, part: &[u8], times: u32) -> Result<Vec<u8>, Memory> {
    let mut text = Vec::new(alloc);
    put_times(&mut text, part, times)?;
    Ok(text)
}

/// As many spaces as a worksheet may have bytes, which are 2^24.
pub fn spaces(alloc: Global) -> Result<Vec<u8>, Memory> {
    let line = repeated(alloc, b" ", 1 << 12)?;
    repeated(alloc, line.as_slice(), 1 << 12)
}

fn put_number(text: &mut Vec<u8>, number: u32) -> Result<(), Memory> {
    let mut buffer = Buffer::new();
    text.extend_from_slice(buffer.format(number).as_bytes())?;
    Ok(())
}

fn header(alloc: Global, theorem: &str) -> Result<Vec<u8>, Memory> {
    let mut text = Vec::from_slice(alloc, b"$( <MM> <PROOF_ASST> THEOREM=")?;
    text.extend_from_slice(theorem.as_bytes())?;
    text.extend_from_slice(b" LOC_AFTER=?\n")?;
    Ok(text)
}

/// Behind a database an assertion that makes of a formula an implication of it from itself.
pub fn with_pair(alloc: Global, database: &str) -> Result<Vec<u8>, Memory> {
    let mut text = Vec::from_slice(alloc, database.as_bytes())?;
    text.extend_from_slice(b"${ pair.1 $e |- ph $. pair $a |- ( ph -> ph ) $. $}\n")?;
    Ok(text)
}

/// So many doublings: each step is an implication of the one before from itself.
pub fn doublings(alloc: Global, count: u32) -> Result<Vec<u8>, Memory> {
    let mut text = header(alloc, "dbl")?;
    text.extend_from_slice(b"h1::dbl.1 |- ph\n")?;
    for k in 0..count {
        put_number(&mut text, k.saturating_add(2))?;
        text.push(b':')?;
        put_number(&mut text, k.saturating_add(1))?;
        text.extend_from_slice(b":pair\n")?;
    }
    text.extend_from_slice(b"qed:: |- ph\n$)\n")?;
    Ok(text)
}

/// A formula with so many negations.
pub fn negations(alloc: Global, count: u32) -> Result<Vec<u8>, Memory> {
    let mut text = header(alloc, "deep")?;
    text.extend_from_slice(b"qed:: |- ")?;
    put_times(&mut text, b"-. ", count)?;
    text.extend_from_slice(b"ph\n$)\n")?;
    Ok(text)
}

/// Behind a database an assertion with so many negations.
pub fn with_big(alloc: Global, database: &str, count: u32) -> Result<Vec<u8>, Memory> {
    let mut text = Vec::from_slice(alloc, database.as_bytes())?;
    text.extend_from_slice(b"big $a |- ")?;
    put_times(&mut text, b"-. ", count)?;
    text.extend_from_slice(b"ph $.\n")?;
    Ok(text)
}

/// So many blank steps that rest on it.
pub fn big_steps(alloc: Global, count: u32) -> Result<Vec<u8>, Memory> {
    let mut text = header(alloc, "b")?;
    for k in 0..count {
        put_number(&mut text, k.saturating_add(1))?;
        text.extend_from_slice(b"::big\n")?;
    }
    text.extend_from_slice(b"qed:: |- ph\n$)\n")?;
    Ok(text)
}

const IDENTITY: &[u8] = b"1::ax-1 |- ( ph -> ( ph -> ph ) )
2::ax-1
3::ax-2
4:2,3:ax-mp
r0:1,4:ax-mp |- ( ph -> ph )
p::ax-1 |- ( ( ph -> ph ) -> ( ( ph -> ph ) -> ( ph -> ph ) ) )
";

/// Two steps of modus ponens that rest twice on the step before.
fn put_round(text: &mut Vec<u8>, round: u32, last: bool) -> Result<(), Memory> {
    let before = round.saturating_sub(1);
    text.push(b'q')?;
    put_number(text, round)?;
    text.extend_from_slice(b":r")?;
    put_number(text, before)?;
    text.extend_from_slice(b",p:ax-mp\n")?;
    if last {
        text.extend_from_slice(b"qed")?;
    } else {
        text.push(b'r')?;
        put_number(text, round)?;
    }
    text.extend_from_slice(b":r")?;
    put_number(text, before)?;
    text.extend_from_slice(b",q")?;
    put_number(text, round)?;
    text.extend_from_slice(b":ax-mp |- ( ph -> ph )\n")?;
    Ok(())
}

/// The proof of an identity whose normal form doubles with each of so many rounds.
pub fn doubling_proof(alloc: Global, rounds: u32) -> Result<Vec<u8>, Memory> {
    let mut text = header(alloc, "dp")?;
    text.extend_from_slice(IDENTITY)?;
    for k in 0..rounds {
        let round = k.saturating_add(1);
        put_round(&mut text, round, round == rounds)?;
    }
    text.extend_from_slice(b"$)\n")?;
    Ok(text)
}

/// The line that begins so.
pub fn line_of<'t>(text: &'t [u8], begin: &[u8]) -> &'t [u8] {
    for line in text.split(|byte| *byte == b'\n') {
        if line.starts_with(begin) {
            return line;
        }
    }
    b""
}

/// How many words a line has that are parted by one space.
pub fn words(line: &[u8]) -> usize {
    line.split(|byte| *byte == b' ').count()
}
