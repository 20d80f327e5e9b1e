//! A call of the program over any store, and what is wanted of it.

use mm_base::{List, MemSink, MemStore, Memory, Status, Store};
use mmp_run::run;
use std::alloc::{AllocError, Global};
use std::process::Abort;
use std::test::Fail;

/// A device in memory.
#[derive(Clone, Copy)]
pub enum Device {
    /// Has room for each small text, and no call fails.
    Sound,
    /// The same, but the call with this number fails. They are counted from 1.
    Fails(u64),
    /// Has room for so many bytes, and no call fails.
    Room(u64),
}

impl Device {
    fn room(self) -> u64 {
        match self {
            Device::Room(room) => room,
            _ => 4000,
        }
    }

    // The numbers of the calls that fail.
    fn fails(self, alloc: Global) -> Result<List<u64>, AllocError> {
        let mut fails = Vec::new(alloc);
        if let Device::Fails(call) = self {
            fails.push(call)?;
        }
        Ok(List::from_vec(fails))
    }
}

/// What a call ended with.
#[derive(Drop)]
pub struct Ended {
    pub status: Status,
    pub out: MemSink,
    pub log: MemSink,
}

/// What a call is to end with, and what the output and the log then have.
#[derive(Clone, Copy)]
pub struct Want<'a> {
    pub status: Status,
    pub out: &'a [u8],
    pub log: &'a str,
}

/// Nothing in the output.
pub fn refused<'a>(status: Status, log: &'a str) -> Want<'a> {
    Want {
        status,
        out: b"",
        log,
    }
}

fn words_of(alloc: Global, words: &[&str]) -> Result<Vec<String>, AllocError> {
    let mut all = Vec::new(alloc);
    for word in words {
        all.push(word.to_string(alloc)?)?;
    }
    Ok(all)
}

fn bytes_of(alloc: Global, text: &[u8]) -> Result<List<u8>, AllocError> {
    Ok(List::from_vec(Vec::from_slice(alloc, text)?))
}

fn sink(alloc: Global, device: Device) -> Result<MemSink, Memory> {
    MemSink::new(alloc, device.room(), device.fails(alloc)?)
}

/// A store with these two texts, under `P.mm` and `r.mmp`.
pub fn store_of(
    alloc: Global,
    database: &[u8],
    sheet: &[u8],
    device: Device,
) -> Result<MemStore, Memory> {
    let mut files = Vec::new(alloc);
    files.push((bytes_of(alloc, b"P.mm")?, bytes_of(alloc, database)?))?;
    files.push((bytes_of(alloc, b"r.mmp")?, bytes_of(alloc, sheet)?))?;
    let fails = device.fails(alloc)?;
    MemStore::new(alloc, List::from_vec(files), device.room(), fails)
}

/// Calls the program with these words.
pub fn call<S: Store>(
    alloc: Global,
    words: &[&str],
    store: &mut S,
    out: Device,
    log: Device,
) -> Result<Ended, Memory> {
    let words = words_of(alloc, words)?;
    let mut out = sink(alloc, out)?;
    let mut log = sink(alloc, log)?;
    let status = run(alloc, &words, store, &mut out, &mut log);
    Ok(Ended { status, out, log })
}

/// Calls it with these words over the two texts, where nothing fails.
pub fn call_over(
    alloc: Global,
    words: &[&str],
    database: &[u8],
    sheet: &[u8],
) -> Result<Ended, Memory> {
    let mut store = store_of(alloc, database, sheet, Device::Sound)?;
    call(
        alloc,
        words,
        &mut store,
        Device::Room(1 << 22),
        Device::Sound,
    )
}

/// The bytes as a text, so that a failed assertion shows it. What is wanted is always a text.
pub fn text_of(bytes: &[u8]) -> &str {
    match str::from_utf8(bytes) {
        Ok(text) => text,
        Err(_) => "bytes that are no text",
    }
}

/// Compares what a call ended with, and tells at which row it differs.
pub fn compare(rt: &impl Abort, row: &str, ended: &Ended, want: Want<'_>) {
    assert_eq!(rt; text_of(ended.log.bytes()), want.log, "log: {row}");
    assert_eq!(rt;
        text_of(ended.out.bytes()),
        text_of(want.out),
        "output: {row}"
    );
    assert_eq!(rt; ended.status, want.status, "status: {row}");
}

/// Unifies a worksheet over a database, where nothing fails, and compares.
pub fn check(
    rt: &impl Abort,
    alloc: Global,
    row: &str,
    database: &[u8],
    sheet: &[u8],
    want: Want<'_>,
) -> Result<(), Fail> {
    let ended = call_over(alloc, &["unify", "P.mm", "r.mmp"], database, sheet)?;
    compare(rt, row, &ended, want);
    Ok(())
}
