use crate::databases::{DEMO, PROP};
use crate::row::{NORMAL, Row, USUAL};
use crate::rows::{DEMO_LABELS, DEMO_PROOF, DEMO_REPORT, DEMO_STEPS, MODUS_PONENS};
use mm_base::Status;

/// Modus ponens, a conclusion that does not fit, a comment, and a theorem of its database.
pub const FITTING: &[Row] = &[
    // Modus ponens.
    Row {
        database: &[PROP],
        header: "r LOC_AFTER=?",
        lines: MODUS_PONENS,
        options: NORMAL,
        status: Status::Finished,
        written: None,
        tail: "$= wph wps r.1 r.2 ax-mp $.
",
        log: "1 hyp
2 hyp
qed fits ax-mp
finished
",
    },
    Row {
        database: &[PROP],
        header: "r LOC_AFTER=?",
        lines: MODUS_PONENS,
        options: USUAL,
        status: Status::Finished,
        written: None,
        tail: "$= ( ax-mp ) ABCDE $.
",
        log: "1 hyp
2 hyp
qed fits ax-mp
finished
",
    },
    // A conclusion that does not fit.
    Row {
        database: &[PROP],
        header: "r LOC_AFTER=?",
        lines: "h1::r.1 |- ph
h2::r.2 |- ( ph -> ps )
qed:1,2:ax-mp |- ch
",
        options: USUAL,
        status: Status::Unfinished,
        written: None,
        tail: "",
        log: "1 hyp
2 hyp
qed no fit ax-mp
not finished
",
    },
    // A comment stays before its step.
    Row {
        database: &[PROP],
        header: "r LOC_AFTER=?",
        lines: "* hello
h1::r.1 |- ph
h2::r.2 |- ( ph -> ps )
qed:1,2:ax-mp |- ps
",
        options: USUAL,
        status: Status::Finished,
        written: None,
        tail: "$= ( ax-mp ) ABCDE $.
",
        log: "1 hyp
2 hyp
qed fits ax-mp
finished
",
    },
    // The first example of the book, a theorem of its database.
    Row {
        database: &[DEMO],
        header: "th1 LOC_AFTER=?",
        lines: DEMO_STEPS,
        options: USUAL,
        status: Status::Finished,
        written: None,
        tail: DEMO_PROOF,
        log: DEMO_REPORT,
    },
    Row {
        database: &[DEMO],
        header: "th1 LOC_AFTER=?",
        lines: DEMO_STEPS,
        options: NORMAL,
        status: Status::Finished,
        written: None,
        tail: DEMO_LABELS,
        log: DEMO_REPORT,
    },
];
