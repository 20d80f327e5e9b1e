use crate::databases::{ANY, DEMO, FORMS, PROP, SETS};
use crate::row::{NAMED, Row, USUAL};
use crate::rows::MODUS_PONENS;
use mm_base::Status;

// Modus ponens with other typecodes.
const NAMED_STEPS: &str = "h1::r.1 T ph
h2::r.2 T ( ph -> ps )
qed:1,2:ax-mp T ps
";

/// Other typecodes, an assertion that any formula fits, and places in another order.
pub const TYPED: &[Row] = &[
    // Work variables of another typecode.
    Row {
        database: &[DEMO],
        header: "z LOC_AFTER=?",
        lines: "qed::a2 |- ( &term.1 + 0 ) = t
",
        options: USUAL,
        status: Status::Finished,
        written: Some(
            "qed::a2 |- ( t + 0 ) = t
",
        ),
        tail: "$= ( a2 ) AB $.
",
        log: "qed fits a2
finished
",
    },
    // An assertion that any formula fits.
    Row {
        database: &[PROP, SETS, ANY],
        header: "n LOC_AFTER=?",
        lines: "qed:: |- -. ps
",
        options: USUAL,
        status: Status::Finished,
        written: Some(
            "qed::any |- -. ps
",
        ),
        tail: "$= ( wn any ) ABC $.
",
        log: "qed found any
finished
",
    },
    Row {
        database: &[PROP, SETS, ANY],
        header: "n LOC_AFTER=?",
        lines: "qed:: |- ( ph -> ( ps -> ph ) )
",
        options: USUAL,
        status: Status::Finished,
        written: Some(
            "qed::ax-1 |- ( ph -> ( ps -> ph ) )
",
        ),
        tail: "$= ( ax-1 ) ABC $.
",
        log: "qed found ax-1
finished
",
    },
    // Places in another order.
    Row {
        database: &[PROP],
        header: "r LOC_AFTER=?",
        lines: "h1::r.1 |- ph
h2::r.2 |- ( ph -> ps )
qed:2,1:ax-mp |- ps
",
        options: USUAL,
        status: Status::Finished,
        written: Some(MODUS_PONENS),
        tail: "$= ( ax-mp ) ABCDE $.
",
        log: "1 hyp
2 hyp
qed fits ax-mp
finished
",
    },
    Row {
        database: &[PROP],
        header: "r LOC_AFTER=?",
        lines: "h1::r.1 |- ph
h2::r.2 |- ( ph -> ps )
qed:2,1: |- ps
",
        options: USUAL,
        status: Status::Finished,
        written: Some(MODUS_PONENS),
        tail: "$= ( ax-mp ) ABCDE $.
",
        log: "1 hyp
2 hyp
qed found ax-mp
finished
",
    },
    Row {
        database: &[PROP],
        header: "o2 LOC_AFTER=?",
        lines: "h1::o.1 |- &W1
h2::o.2 |- &W2
qed:2,1:ax-mp |- ps
",
        options: USUAL,
        status: Status::Unfinished,
        written: Some(
            "h1::o.1 |- ( &W2 -> ps )
h2::o.2 |- &W2
qed:2,1:ax-mp |- ps
",
        ),
        tail: "",
        log: "1 hyp
2 hyp
qed fits ax-mp
not finished
",
    },
    // Other typecodes.
    Row {
        database: &[FORMS],
        header: "r LOC_AFTER=?",
        lines: NAMED_STEPS,
        options: NAMED,
        status: Status::Finished,
        written: None,
        tail: "$= ( ax-mp ) ABCDE $.
",
        log: "1 hyp
2 hyp
qed fits ax-mp
finished
",
    },
    Row {
        database: &[FORMS],
        header: "r LOC_AFTER=?",
        lines: NAMED_STEPS,
        options: USUAL,
        status: Status::Sheet,
        written: None,
        tail: "",
        log: "sheet error 65 NotProvable at line 2
",
    },
];
