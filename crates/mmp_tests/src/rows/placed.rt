use crate::databases::{PROP, Q};
use crate::row::{Row, USUAL};
use crate::rows::MODUS_PONENS;
use mm_base::Status;

/// Other verdicts, the place of the worksheet, and the order of a frame.
pub const PLACED: &[Row] = &[
    // Other verdicts.
    Row {
        database: &[PROP],
        header: "k LOC_AFTER=?",
        lines: "h1::k.1 |- ph
qed:1,1,1:ax-mp |- ps
",
        options: USUAL,
        status: Status::Unfinished,
        written: None,
        tail: "",
        log: "1 hyp
qed too many hypotheses ax-mp
not finished
",
    },
    Row {
        database: &[PROP],
        header: "k LOC_AFTER=?",
        lines: "qed::nosuch |- ps
",
        options: USUAL,
        status: Status::Unfinished,
        written: None,
        tail: "",
        log: "qed unknown nosuch
not finished
",
    },
    // The place.
    Row {
        database: &[PROP],
        header: "l LOC_AFTER=ax-1",
        lines: "qed::ax-2 |- ( ( ph -> ( ps -> ch ) ) -> ( ( ph -> ps ) -> ( ph -> ch ) ) )
",
        options: USUAL,
        status: Status::Unfinished,
        written: None,
        tail: "",
        log: "qed not usable ax-2
not finished
",
    },
    Row {
        database: &[PROP],
        header: "r LOC_AFTER=min",
        lines: MODUS_PONENS,
        options: USUAL,
        status: Status::Finished,
        written: None,
        tail: "$= ( ax-mp ) ABCDE $.
",
        log: "1 hyp
2 hyp
qed fits ax-mp
finished
",
    },
    Row {
        database: &[PROP],
        header: "r LOC_AFTER=none",
        lines: MODUS_PONENS,
        options: USUAL,
        status: Status::Sheet,
        written: None,
        tail: "",
        log: "sheet error 60 LocUnknown at line 1
",
    },
    // The order of a frame is not that of the text.
    Row {
        database: Q,
        header: "abid LOC_AFTER=?",
        lines: "qed::eqid |- { x | ph } = { x | ph }
",
        options: USUAL,
        status: Status::Finished,
        written: None,
        tail: "$= ( cab eqid ) ABCD $.
",
        log: "qed fits eqid
finished
",
    },
];
