//! Sinks with room for a part of their text.

use crate::calls::{Device, Ended, Want, call, compare, store_of, text_of};
use crate::given::{IN_PLACE, PROP, REPORT, SHEET, TO_OUTPUT, WRITTEN};
use mm_base::{Memory, Status};
use std::alloc::Global;
use std::process::Abort;
use std::test::Fail;

// Unifies the worksheet with these rooms of the output and of the log.
fn unified(
    alloc: Global,
    words: &[&str],
    out_room: usize,
    log_room: usize,
) -> Result<Ended, Memory> {
    let mut store = store_of(alloc, PROP.as_bytes(), SHEET.as_bytes(), Device::Sound)?;
    let out = Device::Room(out_room as u64);
    let log = Device::Room(log_room as u64);
    call(alloc, words, &mut store, out, log)
}

// What a room takes of a text.
fn front(text: &str, room: usize) -> &[u8] {
    let bytes = text.as_bytes();
    bytes.get(..room).unwrap_or(bytes)
}

fn status_of(whole: bool) -> Status {
    if whole {
        Status::Finished
    } else {
        Status::Write
    }
}

// The output takes what it has room for, and the log nothing unless that is the whole text.
fn check_output(rt: &impl Abort, alloc: Global, room: usize) -> Result<(), Fail> {
    let ended = unified(alloc, TO_OUTPUT, room, 4000)?;
    let whole = room >= WRITTEN.len();
    let want = Want {
        status: status_of(whole),
        out: front(WRITTEN, room),
        log: if whole { REPORT } else { "" },
    };
    compare(rt, "an output of this room", &ended, want);
    Ok(())
}

// The log takes what it has room for, behind the whole output.
fn check_log(
    rt: &impl Abort,
    alloc: Global,
    words: &[&str],
    written: &str,
    room: usize,
) -> Result<(), Fail> {
    let ended = unified(alloc, words, 4000, room)?;
    let want = Want {
        status: status_of(room >= REPORT.len()),
        out: written.as_bytes(),
        log: text_of(front(REPORT, room)),
    };
    compare(rt, "a log of this room", &ended, want);
    Ok(())
}

#[test]
fn outputs_are_cut_at_each_byte(rt: HostRuntime) -> Result<(), Fail> {
    for room in 0..=WRITTEN.len() {
        check_output(&rt, rt.alloc(), room)?;
    }
    Ok(())
}

#[test]
fn logs_are_cut_at_each_byte(rt: HostRuntime) -> Result<(), Fail> {
    for room in 0..=REPORT.len() {
        check_log(&rt, rt.alloc(), TO_OUTPUT, WRITTEN, room)?;
        check_log(&rt, rt.alloc(), IN_PLACE, "", room)?;
    }
    Ok(())
}
