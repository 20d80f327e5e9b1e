//! Commands over devices that fail, but for worksheets and databases that are written.

use crate::calls::{Device, Want, call, compare, store_of};
use mm_base::Status;
use std::alloc::Global;
use std::process::Abort;
use std::test::Fail;

// A theorem with a right proof, and one with a wrong one.
const THEOREMS: &str = "$c |- wff $. $v ph $. wph $f wff ph $. any $a |- ph $.
good $p |- ph $= ( any ) AB $. bad $p |- ph $= ( ) ZA $.
";

const NO_SHEET: &[u8] = b"no worksheet\n";

// Words over devices of which some fail, and what comes of it.
#[derive(Clone, Copy)]
struct Row {
    name: &'static str,
    words: &'static [&'static str],
    store: Device,
    out: Device,
    log: Device,
    status: Status,
    written: &'static str,
    told: &'static str,
}

// Of each device the calls fail that do not come.
const ACCEPTED: Row = Row {
    name: "a right proof",
    words: &["verify", "P.mm", "good"],
    store: Device::Fails(2),
    out: Device::Fails(2),
    log: Device::Fails(1),
    status: Status::Finished,
    written: "good accepted\n",
    told: "",
};

const VERIFYING: &[Row] = &[
    ACCEPTED,
    Row {
        name: "no database for a right proof",
        store: Device::Fails(1),
        log: Device::Sound,
        status: Status::Read,
        written: "",
        told: "read fault P.mm\n",
        ..ACCEPTED
    },
    Row {
        name: "a database that is not there",
        words: &["verify", "Q.mm", "good"],
        log: Device::Sound,
        status: Status::Read,
        written: "",
        told: "read fault Q.mm\n",
        ..ACCEPTED
    },
    Row {
        name: "no output for a right proof",
        out: Device::Fails(1),
        status: Status::Write,
        written: "",
        ..ACCEPTED
    },
    Row {
        name: "room for a part of what is said of a right proof",
        out: Device::Room(4),
        status: Status::Write,
        written: "good",
        ..ACCEPTED
    },
    Row {
        name: "a wrong proof",
        words: &["verify", "P.mm", "bad"],
        out: Device::Fails(1),
        log: Device::Fails(2),
        status: Status::Proof,
        written: "",
        told: "code error 3 MarkAtStart at 0\n",
        ..ACCEPTED
    },
    Row {
        name: "no log for a wrong proof",
        words: &["verify", "P.mm", "bad"],
        status: Status::Write,
        written: "",
        ..ACCEPTED
    },
    Row {
        name: "room for a part of what is said of a wrong proof",
        words: &["verify", "P.mm", "bad"],
        log: Device::Room(10),
        status: Status::Write,
        written: "",
        told: "code error",
        ..ACCEPTED
    },
];

const EXPORTED: Row = Row {
    name: "the worksheet of a right proof",
    words: &["export", "P.mm", "good"],
    store: Device::Fails(2),
    out: Device::Fails(2),
    log: Device::Fails(2),
    status: Status::Finished,
    written: "$( <MM> <PROOF_ASST> THEOREM=good LOC_AFTER=?
qed::any |- ph
$= ( any ) AB $.
$)
",
    told: "qed fits any
finished
",
};

const EXPORTING: &[Row] = &[
    EXPORTED,
    Row {
        name: "no database for the worksheet of a right proof",
        store: Device::Fails(1),
        status: Status::Read,
        written: "",
        told: "read fault P.mm\n",
        ..EXPORTED
    },
    Row {
        name: "no output for the worksheet of a right proof",
        out: Device::Fails(1),
        status: Status::Write,
        written: "",
        told: "",
        ..EXPORTED
    },
    Row {
        name: "room for a part of the worksheet of a right proof",
        out: Device::Room(7),
        status: Status::Write,
        written: "$( <MM>",
        told: "",
        ..EXPORTED
    },
    Row {
        name: "no log for the worksheet of a right proof",
        log: Device::Fails(1),
        status: Status::Write,
        told: "",
        ..EXPORTED
    },
    Row {
        name: "a wrong proof that is to be a worksheet",
        words: &["export", "P.mm", "bad"],
        out: Device::Fails(1),
        status: Status::Proof,
        written: "",
        told: "code error 3 MarkAtStart at 0\n",
        ..EXPORTED
    },
    Row {
        name: "no log for a wrong proof that is to be a worksheet",
        words: &["export", "P.mm", "bad"],
        log: Device::Fails(1),
        status: Status::Write,
        written: "",
        told: "",
        ..EXPORTED
    },
];

const TRIAL: Row = Row {
    name: "a trial",
    words: &["trial", "1"],
    store: Device::Fails(1),
    out: Device::Fails(2),
    log: Device::Fails(1),
    status: Status::Finished,
    written: "steps 5\nfits 5\nletters 28\nfinished\n",
    told: "",
};

const OTHERS: &[Row] = &[
    TRIAL,
    Row {
        name: "no output for a trial",
        out: Device::Fails(1),
        status: Status::Write,
        written: "",
        ..TRIAL
    },
    Row {
        name: "room for a part of a trial",
        out: Device::Room(7),
        status: Status::Write,
        written: "steps 5",
        ..TRIAL
    },
    Row {
        name: "no log for the usage",
        words: &["check"],
        status: Status::Write,
        written: "",
        ..TRIAL
    },
    Row {
        name: "room for a part of the usage",
        words: &[],
        out: Device::Fails(1),
        log: Device::Room(10),
        status: Status::Write,
        written: "",
        told: "usage: mmp",
        ..TRIAL
    },
    Row {
        name: "a text that is no worksheet",
        words: &["unify", "--in-place", "P.mm", "r.mmp"],
        store: Device::Fails(3),
        out: Device::Fails(1),
        log: Device::Fails(2),
        status: Status::Sheet,
        written: "",
        told: "sheet error 40 NoHeader at line 1\n",
        ..TRIAL
    },
    Row {
        name: "a worksheet that is not there",
        words: &["unify", "P.mm", "s.mmp"],
        store: Device::Fails(3),
        log: Device::Sound,
        status: Status::Read,
        written: "",
        told: "read fault s.mmp\n",
        ..TRIAL
    },
    Row {
        name: "no log for a text that is no worksheet",
        words: &["unify", "P.mm", "r.mmp"],
        store: Device::Fails(3),
        status: Status::Write,
        written: "",
        ..TRIAL
    },
    Row {
        name: "a text that is no worksheet, to be put in",
        words: &["install", "P.mm", "r.mmp"],
        store: Device::Fails(3),
        out: Device::Fails(1),
        log: Device::Fails(2),
        status: Status::Sheet,
        written: "",
        told: "sheet error 40 NoHeader at line 1\n",
        ..TRIAL
    },
    Row {
        name: "a text that is no worksheet, with a step that is asked about",
        words: &["select", "P.mm", "r.mmp", "qed"],
        store: Device::Fails(3),
        out: Device::Fails(1),
        log: Device::Fails(2),
        status: Status::Sheet,
        written: "",
        told: "sheet error 40 NoHeader at line 1\n",
        ..TRIAL
    },
    Row {
        name: "no log for a text that is no worksheet, with a step that is asked about",
        words: &["select", "P.mm", "r.mmp", "qed"],
        store: Device::Fails(3),
        status: Status::Write,
        written: "",
        ..TRIAL
    },
    Row {
        name: "no log for a text that is no database",
        words: &["unify", "r.mmp", "P.mm"],
        store: Device::Fails(2),
        status: Status::Write,
        written: "",
        ..TRIAL
    },
];

fn check_row(rt: &impl Abort, alloc: Global, row: Row) -> Result<(), Fail> {
    let mut store = store_of(alloc, THEOREMS.as_bytes(), NO_SHEET, row.store)?;
    let ended = call(alloc, row.words, &mut store, row.out, row.log)?;
    let want = Want {
        status: row.status,
        out: row.written.as_bytes(),
        log: row.told,
    };
    compare(rt, row.name, &ended, want);
    assert!(rt; store.file("P.mm").unwrap_or(b"") == THEOREMS.as_bytes());
    assert!(rt; store.file("r.mmp").unwrap_or(b"") == NO_SHEET);
    Ok(())
}

fn check_rows(rt: &impl Abort, alloc: Global, rows: &[Row]) -> Result<(), Fail> {
    for row in rows {
        check_row(rt, alloc, *row)?;
    }
    Ok(())
}

#[test]
fn proofs_over_failing_devices(rt: HostRuntime) -> Result<(), Fail> {
    check_rows(&rt, rt.alloc(), VERIFYING)
}

#[test]
fn worksheets_of_proofs_over_failing_devices(rt: HostRuntime) -> Result<(), Fail> {
    check_rows(&rt, rt.alloc(), EXPORTING)
}

#[test]
fn other_words_over_failing_devices(rt: HostRuntime) -> Result<(), Fail> {
    check_rows(&rt, rt.alloc(), OTHERS)
}
