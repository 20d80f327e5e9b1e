//! A worksheet over devices of which each call fails in turn.

use crate::calls::{Device, Want, call, compare, store_of, text_of};
use crate::given::{
    BLOCK, FILLED, IN_PLACE, INTO_DATABASE, LABELS, PROP, REPORT, SHEET, TO_OUTPUT, WRITTEN,
};
use mm_base::{MemStore, Status};
use std::alloc::Global;
use std::process::Abort;
use std::test::Fail;

// Devices of which some fail, and what the output, the log and the worksheet's file then have.
#[derive(Clone, Copy)]
struct Row {
    name: &'static str,
    store: Device,
    out: Device,
    log: Device,
    status: Status,
    // A text before what is written, or none.
    front: &'static str,
    written: &'static str,
    told: &'static str,
    file: &'static str,
}

// The worksheet is written to the output.
const OUTPUT: Row = Row {
    name: "nothing fails",
    store: Device::Sound,
    out: Device::Sound,
    log: Device::Sound,
    status: Status::Finished,
    front: "",
    written: WRITTEN,
    told: REPORT,
    file: SHEET,
};

const OUTPUT_ROWS: &[Row] = &[
    OUTPUT,
    Row {
        name: "the read of the database",
        store: Device::Fails(1),
        status: Status::Read,
        written: "",
        told: "read fault P.mm\n",
        ..OUTPUT
    },
    Row {
        name: "the read of the worksheet",
        store: Device::Fails(2),
        status: Status::Read,
        written: "",
        told: "read fault r.mmp\n",
        ..OUTPUT
    },
    Row {
        name: "a call of the store that does not come",
        store: Device::Fails(3),
        ..OUTPUT
    },
    Row {
        name: "the write to the output",
        out: Device::Fails(1),
        status: Status::Write,
        written: "",
        told: "",
        ..OUTPUT
    },
    Row {
        name: "a write to the output that does not come",
        out: Device::Fails(2),
        ..OUTPUT
    },
    Row {
        name: "the write to the log",
        log: Device::Fails(1),
        status: Status::Write,
        told: "",
        ..OUTPUT
    },
    Row {
        name: "a write to the log that does not come",
        log: Device::Fails(2),
        ..OUTPUT
    },
    Row {
        name: "the read of the database and the write to the log",
        store: Device::Fails(1),
        log: Device::Fails(1),
        status: Status::Write,
        written: "",
        told: "",
        ..OUTPUT
    },
    Row {
        name: "the write to the output and that to the log",
        out: Device::Room(10),
        log: Device::Fails(1),
        status: Status::Write,
        written: "$( <MM> <P",
        told: "",
        ..OUTPUT
    },
];

// The worksheet is written in its own place.
const PLACE: Row = Row {
    written: "",
    file: WRITTEN,
    ..OUTPUT
};

const PLACE_ROWS: &[Row] = &[
    PLACE,
    Row {
        name: "the read of the database",
        store: Device::Fails(1),
        status: Status::Read,
        told: "read fault P.mm\n",
        file: SHEET,
        ..PLACE
    },
    Row {
        name: "the read of the worksheet",
        store: Device::Fails(2),
        status: Status::Read,
        told: "read fault r.mmp\n",
        file: SHEET,
        ..PLACE
    },
    Row {
        name: "the replacement of the worksheet",
        store: Device::Fails(3),
        status: Status::Write,
        told: "",
        file: SHEET,
        ..PLACE
    },
    Row {
        name: "a call of the store that does not come",
        store: Device::Fails(4),
        ..PLACE
    },
    Row {
        name: "no room for what replaces the worksheet",
        store: Device::Room(0),
        status: Status::Write,
        told: "",
        file: SHEET,
        ..PLACE
    },
    Row {
        name: "a write to the output, which does not come",
        out: Device::Fails(1),
        ..PLACE
    },
    Row {
        name: "the write to the log",
        log: Device::Fails(1),
        status: Status::Write,
        told: "",
        ..PLACE
    },
    Row {
        name: "the write to the log, after a part",
        log: Device::Room(8),
        status: Status::Write,
        told: "1 hyp\n2 ",
        ..PLACE
    },
    Row {
        name: "the replacement and the write to the log",
        store: Device::Fails(3),
        log: Device::Fails(1),
        status: Status::Write,
        told: "",
        file: SHEET,
        ..PLACE
    },
];

// The database is written with the theorem of the worksheet.
const INSTALLED: Row = Row {
    front: PROP,
    written: BLOCK,
    ..OUTPUT
};

const INSTALLED_ROWS: &[Row] = &[
    INSTALLED,
    Row {
        name: "the read of the database",
        store: Device::Fails(1),
        status: Status::Read,
        front: "",
        written: "",
        told: "read fault P.mm\n",
        ..INSTALLED
    },
    Row {
        name: "the read of the worksheet",
        store: Device::Fails(2),
        status: Status::Read,
        front: "",
        written: "",
        told: "read fault r.mmp\n",
        ..INSTALLED
    },
    Row {
        name: "a call of the store that does not come",
        store: Device::Fails(3),
        ..INSTALLED
    },
    Row {
        name: "the write to the output",
        out: Device::Fails(1),
        status: Status::Write,
        front: "",
        written: "",
        told: "",
        ..INSTALLED
    },
    Row {
        name: "the write to the output, after a part",
        out: Device::Room(7),
        status: Status::Write,
        front: "",
        written: "$c ( ) ",
        told: "",
        ..INSTALLED
    },
    Row {
        name: "the write to the log",
        log: Device::Fails(1),
        status: Status::Write,
        told: "",
        ..INSTALLED
    },
];

// The labels that fit its last step are listed, and nothing is told.
const LISTED: Row = Row {
    log: Device::Fails(1),
    written: "ax-mp\n",
    told: "",
    ..OUTPUT
};

const LISTED_ROWS: &[Row] = &[
    LISTED,
    Row {
        name: "the read of the worksheet",
        store: Device::Fails(2),
        log: Device::Sound,
        status: Status::Read,
        written: "",
        told: "read fault r.mmp\n",
        ..LISTED
    },
    Row {
        name: "a call of the store that does not come",
        store: Device::Fails(3),
        ..LISTED
    },
    Row {
        name: "the write to the output",
        out: Device::Fails(1),
        status: Status::Write,
        written: "",
        ..LISTED
    },
    Row {
        name: "the write to the output, after a part",
        out: Device::Room(3),
        status: Status::Write,
        written: "ax-",
        ..LISTED
    },
];

// Calls the program over a store, and compares with the row.
fn check_over(
    rt: &impl Abort,
    alloc: Global,
    words: &[&str],
    row: Row,
    store: &mut MemStore,
) -> Result<(), Fail> {
    let ended = call(alloc, words, store, row.out, row.log)?;
    let mut written = Vec::from_slice(alloc, row.front.as_bytes())?;
    written.extend_from_slice(row.written.as_bytes())?;
    let want = Want {
        status: row.status,
        out: written.as_slice(),
        log: row.told,
    };
    compare(rt, row.name, &ended, want);
    let file = store.file("r.mmp").unwrap_or(b"");
    assert_eq!(rt;
        text_of(file),
        row.file,
        "the worksheet's file: {}",
        row.name
    );
    assert!(rt; store.file("P.mm").unwrap_or(b"") == PROP.as_bytes());
    Ok(())
}

fn store(alloc: Global, row: Row) -> Result<MemStore, Fail> {
    Ok(store_of(alloc, PROP.as_bytes(), SHEET.as_bytes(), row.store)?)
}

fn check_rows(rt: &impl Abort, alloc: Global, words: &[&str], rows: &[Row]) -> Result<(), Fail> {
    for row in rows {
        let mut store = store(alloc, *row)?;
        check_over(rt, alloc, words, *row, &mut store)?;
    }
    Ok(())
}

// A failed call leaves all files as they were.
#[test]
fn worksheets_to_the_output(rt: HostRuntime) -> Result<(), Fail> {
    check_rows(&rt, rt.alloc(), TO_OUTPUT, OUTPUT_ROWS)?;
    check_rows(&rt, rt.alloc(), FILLED, OUTPUT_ROWS)
}

// A failed call leaves the files as they were, or the worksheet's with its whole text.
#[test]
fn worksheets_in_place(rt: HostRuntime) -> Result<(), Fail> {
    check_rows(&rt, rt.alloc(), IN_PLACE, PLACE_ROWS)
}

// The database that is read stays as it was.
#[test]
fn databases_with_a_theorem(rt: HostRuntime) -> Result<(), Fail> {
    check_rows(&rt, rt.alloc(), INTO_DATABASE, INSTALLED_ROWS)
}

#[test]
fn labels_that_fit_a_step(rt: HostRuntime) -> Result<(), Fail> {
    check_rows(&rt, rt.alloc(), LABELS, LISTED_ROWS)
}

// What was put in its own place is put there again.
#[test]
fn in_place_twice(rt: HostRuntime) -> Result<(), Fail> {
    let mut store = store(rt.alloc(), PLACE)?;
    check_over(&rt, rt.alloc(), IN_PLACE, PLACE, &mut store)?;
    check_over(&rt, rt.alloc(), IN_PLACE, PLACE, &mut store)
}
