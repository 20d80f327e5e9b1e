use crate::databases::{PROP, Q};
use crate::row::{Row, USUAL};
use crate::rows::MODUS_PONENS;
use mm_base::Status;

/// Derived steps, and references that are found.
pub const DERIVED: &[Row] = &[
    // Derived steps.
    Row {
        database: &[PROP],
        header: "g LOC_AFTER=?",
        lines: "qed::ax-mp |- ps
",
        options: USUAL,
        status: Status::Unfinished,
        written: Some(
            "d1:: |- &W1
d2:: |- ( &W1 -> ps )
qed:d1,d2:ax-mp |- ps
",
        ),
        tail: "",
        log: "d1 no reference
d2 no reference
qed fits ax-mp
not finished
",
    },
    Row {
        database: &[PROP],
        header: "r LOC_AFTER=?",
        lines: "h1::r.1 |- ph
h2::r.2 |- ( ph -> ps )
qed:1:ax-mp |- ps
",
        options: USUAL,
        status: Status::Finished,
        written: Some(MODUS_PONENS),
        tail: "$= ( ax-mp ) ABCDE $.
",
        log: "1 hyp
2 hyp
qed fits ax-mp
finished
",
    },
    Row {
        database: &[PROP],
        header: "u LOC_AFTER=?",
        lines: "h1::u.1 |- ph
qed:1:ax-mp |- ( ps -> ph )
",
        options: USUAL,
        status: Status::Finished,
        written: Some(
            "h1::u.1 |- ph
d1::ax-1 |- ( ph -> ( ps -> ph ) )
qed:1,d1:ax-mp |- ( ps -> ph )
",
        ),
        tail: "$= ( wi ax-1 ax-mp ) ABADCABEF $.
",
        log: "1 hyp
d1 found ax-1
qed fits ax-mp
finished
",
    },
    Row {
        database: &[PROP],
        header: "o LOC_AFTER=?",
        lines: "qed:?:ax-mp |- ps
",
        options: USUAL,
        status: Status::Unfinished,
        written: Some(
            "d1:: |- ( &W1 -> ps )
qed:?,d1:ax-mp |- ps
",
        ),
        tail: "",
        log: "d1 no reference
qed fits ax-mp
not finished
",
    },
    // The first of two equal assertions is found.
    Row {
        database: Q,
        header: "s LOC_AFTER=?",
        lines: "qed:: |- ( ph -> ( ps -> ph ) )
",
        options: USUAL,
        status: Status::Finished,
        written: Some(
            "qed::ax-1 |- ( ph -> ( ps -> ph ) )
",
        ),
        tail: "$= ( ax-1 ) ABC $.
",
        log: "qed found ax-1
finished
",
    },
];
