//! Files that vanish or change between two calls of the store, and calls that want memory.

use crate::calls::{Device, Want, call, compare, text_of};
use crate::given::{
    FILLED, IN_PLACE, INTO_DATABASE, LABELS, PROP, REPORT, SHEET, TO_OUTPUT, WRITTEN,
};
use crate::scripted::{Answer, ScriptedStore};
use mm_base::Status;
use std::alloc::Global;
use std::process::Abort;
use std::test::Fail;

// What each call of the store finds, and what comes of it; at the end the calls, and what was put in the place of a file.
#[derive(Clone, Copy)]
struct Row {
    name: &'static str,
    words: &'static [&'static str],
    finds: &'static [Answer],
    status: Status,
    out: &'static str,
    log: &'static str,
    asked: &'static str,
    put: &'static str,
}

const BOTH_READ: &str = "read P.mm\nread r.mmp\n";

const AND_REPLACED: &str = "read P.mm\nread r.mmp\nreplace r.mmp\n";

// The worksheet is written in its own place.
const REPLACED: Row = Row {
    name: "files that stay",
    words: IN_PLACE,
    finds: &[Answer::Text(PROP), Answer::Text(SHEET), Answer::Place],
    status: Status::Finished,
    out: "",
    log: REPORT,
    asked: AND_REPLACED,
    put: WRITTEN,
};

// Nothing is written or put.
const NOTHING: Row = Row {
    name: "no files",
    words: IN_PLACE,
    finds: &[],
    status: Status::Read,
    out: "",
    log: "read fault P.mm\n",
    asked: "read P.mm\n",
    put: "",
};

const VANISHING: &[Row] = &[
    REPLACED,
    NOTHING,
    Row {
        name: "the database is gone, and not the worksheet",
        finds: &[Answer::Gone, Answer::Text(SHEET), Answer::Place],
        ..NOTHING
    },
    Row {
        name: "the worksheet is gone once the database is read",
        finds: &[Answer::Text(PROP), Answer::Gone, Answer::Place],
        log: "read fault r.mmp\n",
        asked: BOTH_READ,
        ..NOTHING
    },
    Row {
        name: "the worksheet is gone before it is replaced",
        finds: &[Answer::Text(PROP), Answer::Text(SHEET), Answer::Gone],
        status: Status::Write,
        log: "",
        asked: AND_REPLACED,
        ..NOTHING
    },
    Row {
        name: "all is gone once it is read, and the output is elsewhere",
        words: TO_OUTPUT,
        finds: &[Answer::Text(PROP), Answer::Text(SHEET)],
        out: WRITTEN,
        asked: BOTH_READ,
        put: "",
        ..REPLACED
    },
    Row {
        name: "the database of a check is gone",
        words: &["verify", "P.mm", "th"],
        ..NOTHING
    },
];

const WANTING: &[Row] = &[
    Row {
        name: "no memory for the database",
        finds: &[Answer::NoMemory, Answer::Text(SHEET), Answer::Place],
        status: Status::Memory,
        log: "",
        ..NOTHING
    },
    Row {
        name: "no memory for the worksheet",
        finds: &[Answer::Text(PROP), Answer::NoMemory, Answer::Place],
        status: Status::Memory,
        log: "",
        asked: BOTH_READ,
        ..NOTHING
    },
    Row {
        name: "no memory for the replacement",
        finds: &[Answer::Text(PROP), Answer::Text(SHEET), Answer::NoMemory],
        status: Status::Memory,
        log: "",
        asked: AND_REPLACED,
        ..NOTHING
    },
    Row {
        name: "no memory for the database of a check",
        words: &["verify", "P.mm", "th"],
        finds: &[Answer::NoMemory],
        status: Status::Memory,
        log: "",
        ..NOTHING
    },
    Row {
        name: "no memory for the database of an export",
        words: &["export", "P.mm", "th"],
        finds: &[Answer::NoMemory],
        status: Status::Memory,
        log: "",
        ..NOTHING
    },
    Row {
        name: "no memory for a worksheet that is to be put in",
        words: INTO_DATABASE,
        finds: &[Answer::Text(PROP), Answer::NoMemory],
        status: Status::Memory,
        log: "",
        asked: BOTH_READ,
        ..NOTHING
    },
    Row {
        name: "no memory for a worksheet of which a step is asked about",
        words: LABELS,
        finds: &[Answer::Text(PROP), Answer::NoMemory],
        status: Status::Memory,
        log: "",
        asked: BOTH_READ,
        ..NOTHING
    },
    Row {
        name: "no memory for a worksheet that is to be filled",
        words: FILLED,
        finds: &[Answer::Text(PROP), Answer::NoMemory],
        status: Status::Memory,
        log: "",
        asked: BOTH_READ,
        ..NOTHING
    },
];

const CHANGING: &[Row] = &[
    Row {
        name: "one file is a database, and then a worksheet",
        words: &["unify", "--proof=normal", "a", "a"],
        finds: &[Answer::Text(PROP), Answer::Text(SHEET)],
        out: WRITTEN,
        asked: "read a\nread a\n",
        put: "",
        ..REPLACED
    },
    Row {
        name: "one file is a worksheet, and then a database",
        words: &["unify", "--in-place", "a", "a"],
        finds: &[Answer::Text(SHEET), Answer::Text(PROP), Answer::Place],
        status: Status::Sheet,
        log: "sheet error 40 NoHeader at line 1\n",
        asked: "read a\nread a\n",
        ..NOTHING
    },
    Row {
        name: "the worksheet is emptied before it is read",
        finds: &[Answer::Text(PROP), Answer::Text(""), Answer::Place],
        status: Status::Sheet,
        log: "sheet error 40 NoHeader at line 1\n",
        asked: BOTH_READ,
        ..NOTHING
    },
    Row {
        name: "the database is emptied before it is read",
        finds: &[Answer::Text(""), Answer::Text(SHEET), Answer::Place],
        status: Status::Sheet,
        log: "sheet error 66 UnknownSymbol at line 2\n",
        asked: BOTH_READ,
        ..NOTHING
    },
    Row {
        name: "the worksheet is written before it is read",
        finds: &[Answer::Text(PROP), Answer::Text(WRITTEN), Answer::Place],
        ..REPLACED
    },
];

fn check_row(rt: &impl Abort, alloc: Global, row: Row) -> Result<(), Fail> {
    let mut store = ScriptedStore::new(alloc, row.finds);
    let ended = call(alloc, row.words, &mut store, Device::Sound, Device::Sound)?;
    let want = Want {
        status: row.status,
        out: row.out.as_bytes(),
        log: row.log,
    };
    compare(rt, row.name, &ended, want);
    assert_eq!(rt; text_of(store.asked()), row.asked, "calls: {}", row.name);
    assert_eq!(rt; text_of(store.put()), row.put, "replaced: {}", row.name);
    Ok(())
}

fn check_rows(rt: &impl Abort, alloc: Global, rows: &[Row]) -> Result<(), Fail> {
    for row in rows {
        check_row(rt, alloc, *row)?;
    }
    Ok(())
}

#[test]
fn files_vanish(rt: HostRuntime) -> Result<(), Fail> {
    check_rows(&rt, rt.alloc(), VANISHING)
}

#[test]
fn the_store_wants_memory(rt: HostRuntime) -> Result<(), Fail> {
    check_rows(&rt, rt.alloc(), WANTING)
}

// Each file is read once, and what it is later changes nothing.
#[test]
fn files_change(rt: HostRuntime) -> Result<(), Fail> {
    check_rows(&rt, rt.alloc(), CHANGING)
}
