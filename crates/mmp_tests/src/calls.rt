//! A call of the program, and what is wanted of it.

use mm_base::{List, MemSink, MemStore, Memory, Status};
use mmp_run::run;
use std::alloc::{AllocError, Global};
use std::process::Abort;
use std::test::Fail;

/// The texts under two names, and which calls of the outside fail.
#[derive(Clone, Copy)]
pub struct Outside<'a> {
    /// Under `P.mm`.
    pub database: &'a [u8],
    /// Under `r.mmp`.
    pub sheet: &'a [u8],
    pub store_fails: &'a [u64],
    pub out_fails: &'a [u64],
    pub log_fails: &'a [u64],
}

/// What a call ends with, and what the output and the log then have.
#[derive(Clone, Copy)]
pub struct Want<'a> {
    pub status: Status,
    pub out: &'a [u8],
    pub log: &'a str,
}

/// What a call ended with.
#[derive(Drop)]
pub struct Ended {
    pub status: Status,
    pub out: MemSink,
    pub log: MemSink,
}

/// These two texts, and one write to each sink.
pub fn honest<'a>(database: &'a [u8], sheet: &'a [u8]) -> Outside<'a> {
    Outside {
        database,
        sheet,
        store_fails: &[],
        out_fails: &[2],
        log_fails: &[2],
    }
}

/// Nothing in the output.
pub fn refused<'a>(status: Status, log: &'a str) -> Want<'a> {
    Want {
        status,
        out: b"",
        log,
    }
}

/// Texts, one behind the other.
pub fn joined(alloc: Global, parts: &[&str]) -> Result<Vec<u8>, AllocError> {
    let mut text = Vec::new(alloc);
    for part in parts {
        text.extend_from_slice(part.as_bytes())?;
    }
    Ok(text)
}

/// The words of a command: the first, its options, and those behind them.
pub fn command(
    alloc: Global,
    first: &'static str,
    options: &[&'static str],
    behind: &[&'static str],
) -> Result<Vec<&'static str>, AllocError> {
    let mut words = Vec::new(alloc);
    words.push(first)?;
    words.extend_from_slice(options)?;
    words.extend_from_slice(behind)?;
    Ok(words)
}

/// The text of a worksheet: what its header says of the theorem and its place, and the lines up to the footer.
pub fn sheet(alloc: Global, header: &str, lines: &[&str]) -> Result<Vec<u8>, AllocError> {
    let mut text = joined(alloc, &["$( <MM> <PROOF_ASST> THEOREM=", header, "\n"])?;
    for part in lines {
        text.extend_from_slice(part.as_bytes())?;
    }
    text.extend_from_slice(b"$)\n")?;
    Ok(text)
}

fn words_of(alloc: Global, words: &[&str]) -> Result<Vec<String>, AllocError> {
    let mut all = Vec::new(alloc);
    for word in words {
        all.push(word.to_string(alloc)?)?;
    }
    Ok(all)
}

fn bytes_of(alloc: Global, text: &[u8]) -> Result<List<u8>, AllocError> {
    Ok(List::from_vec(Vec::from_slice(alloc, text)?))
}

// Room for each text of these tests.
const ROOM: u64 = 4000;

fn sink(alloc: Global, fails: &[u64]) -> Result<MemSink, Memory> {
    MemSink::new(alloc, ROOM, List::from_vec(Vec::from_slice(alloc, fails)?))
}

// The store with the two texts.
fn store_of(alloc: Global, outside: Outside<'_>) -> Result<MemStore, Memory> {
    let mut files = Vec::new(alloc);
    files.push((
        bytes_of(alloc, b"P.mm")?,
        bytes_of(alloc, outside.database)?,
    ))?;
    files.push((bytes_of(alloc, b"r.mmp")?, bytes_of(alloc, outside.sheet)?))?;
    let fails = List::from_vec(Vec::from_slice(alloc, outside.store_fails)?);
    MemStore::new(alloc, List::from_vec(files), ROOM, fails)
}

/// Calls the program with these words over the store with the two texts.
pub fn call_over(alloc: Global, words: &[&str], outside: Outside<'_>) -> Result<Ended, Memory> {
    let words = words_of(alloc, words)?;
    let mut store = store_of(alloc, outside)?;
    let mut out = sink(alloc, outside.out_fails)?;
    let mut log = sink(alloc, outside.log_fails)?;
    let status = run(alloc, &words, &mut store, &mut out, &mut log);
    Ok(Ended { status, out, log })
}

/// The bytes as a text, so that a failed assertion shows it. What is wanted is always a text.
pub fn text_of(bytes: &[u8]) -> &str {
    match str::from_utf8(bytes) {
        Ok(text) => text,
        Err(_) => "bytes that are no text",
    }
}

/// Compares what a call ended with, and tells at which row it differs.
pub fn compare_row(rt: &impl Abort, row: &str, ended: &Ended, want: Want<'_>) {
    assert_eq!(rt; text_of(ended.log.bytes()), want.log, "log: {row}");
    assert_eq!(rt;
        text_of(ended.out.bytes()),
        text_of(want.out),
        "output: {row}"
    );
    assert_eq!(rt; ended.status, want.status, "status: {row}");
}

/// Compares what a call ended with.
pub fn compare(rt: &impl Abort, ended: &Ended, want: Want<'_>) {
    compare_row(rt, "the call", ended, want);
}

/// Calls the program with these words, and compares.
pub fn check(
    rt: &impl Abort,
    alloc: Global,
    words: &[&str],
    outside: Outside<'_>,
    want: Want<'_>,
) -> Result<(), Fail> {
    let ended = call_over(alloc, words, outside)?;
    compare(rt, &ended, want);
    Ok(())
}
