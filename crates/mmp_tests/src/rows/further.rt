use crate::databases::{DECLARED, GOOD, PROP, Q, TURNED};
use crate::row::{Row, USUAL};
use mm_base::Status;

/// Further worksheets: what is not below `qed`, names of new steps and new work variables, a theorem of the database.
pub const FURTHER: &[Row] = &[
    // Steps that `qed` does not rest on.
    Row {
        database: &[PROP],
        header: "un LOC_AFTER=?",
        lines: "1::ax-1 |- ( ( ph -> ps ) -> ( ph -> ( ph -> ps ) ) )
qed::ax-1 |- ( ph -> ( ps -> ph ) )
",
        options: USUAL,
        status: Status::Finished,
        written: None,
        tail: "$= ( ax-1 ) ABC $.
",
        log: "1 fits ax-1
qed fits ax-1
finished
",
    },
    Row {
        database: &[PROP],
        header: "un LOC_AFTER=?",
        lines: "1:: |- ps
2:?:ax-mp |- ps
qed::ax-1 |- ( ph -> ( ps -> ph ) )
",
        options: USUAL,
        status: Status::Finished,
        written: Some(
            "1:: |- ps
d1:: |- ( &W1 -> ps )
2:?,d1:ax-mp |- ps
qed::ax-1 |- ( ph -> ( ps -> ph ) )
",
        ),
        tail: "$= ( ax-1 ) ABC $.
",
        log: "1 no reference
d1 no reference
2 fits ax-mp
qed fits ax-1
finished
",
    },
    // A hypothesis with a work variable.
    Row {
        database: &[PROP],
        header: "wh LOC_AFTER=?",
        lines: "h1::wh.1 |- &W1
qed::ax-1 |- ( ph -> ( ps -> ph ) )
",
        options: USUAL,
        status: Status::Unfinished,
        written: None,
        tail: "",
        log: "1 hyp
qed fits ax-1
not finished
",
    },
    // Names of derived steps.
    Row {
        database: &[PROP],
        header: "g2 LOC_AFTER=?",
        lines: "d1:: |- ph
qed::ax-mp |- ps
",
        options: USUAL,
        status: Status::Unfinished,
        written: Some(
            "d1:: |- ph
d2:: |- &W1
d3:: |- ( &W1 -> ps )
qed:d2,d3:ax-mp |- ps
",
        ),
        tail: "",
        log: "d1 no reference
d2 no reference
d3 no reference
qed fits ax-mp
not finished
",
    },
    Row {
        database: &[PROP],
        header: "g2 LOC_AFTER=?",
        lines: "d2::ax-mp |- ps
qed:: |- ph
",
        options: USUAL,
        status: Status::Unfinished,
        written: Some(
            "d1:: |- &W1
d3:: |- ( &W1 -> ps )
d2:d1,d3:ax-mp |- ps
qed:: |- ph
",
        ),
        tail: "",
        log: "d1 no reference
d3 no reference
d2 fits ax-mp
qed no reference
not finished
",
    },
    Row {
        database: &[PROP],
        header: "g3 LOC_AFTER=?",
        lines: "* one
  two
qed::ax-mp |- ps
* three
",
        options: USUAL,
        status: Status::Unfinished,
        written: Some(
            "* one
  two
d1:: |- &W1
d2:: |- ( &W1 -> ps )
qed:d1,d2:ax-mp |- ps
* three
",
        ),
        tail: "",
        log: "d1 no reference
d2 no reference
qed fits ax-mp
not finished
",
    },
    Row {
        database: Q,
        header: "two LOC_AFTER=?",
        lines: "1::a1i |- ( ch -> ps )
2::a1i |- ( ph -> ps )
qed:: |- ph
",
        options: USUAL,
        status: Status::Unfinished,
        written: Some(
            "d1:: |- ps
1:d1:a1i |- ( ch -> ps )
2:d1:a1i |- ( ph -> ps )
qed:: |- ph
",
        ),
        tail: "",
        log: "d1 no reference
1 fits a1i
2 fits a1i
qed no reference
not finished
",
    },
    // A name of a work variable that the database declares.
    Row {
        database: &[PROP, DECLARED],
        header: "g LOC_AFTER=?",
        lines: "qed::ax-mp |- ps
",
        options: USUAL,
        status: Status::Unfinished,
        written: Some(
            "d1:: |- &W2
d2:: |- ( &W2 -> ps )
qed:d1,d2:ax-mp |- ps
",
        ),
        tail: "",
        log: "d1 no reference
d2 no reference
qed fits ax-mp
not finished
",
    },
    // New work variables are numbered in the order of the text.
    Row {
        database: &[TURNED],
        header: "t LOC_AFTER=?",
        lines: "1::ax
qed:: |- p
",
        options: USUAL,
        status: Status::Unfinished,
        written: Some(
            "1::ax |- ( &W1 ~> &W2 )
qed:: |- p
",
        ),
        tail: "",
        log: "1 fits ax
qed no reference
not finished
",
    },
    // A theorem of the database.
    Row {
        database: &[PROP, GOOD],
        header: "good LOC_AFTER=?",
        lines: "qed:: |- ( ph -> ( ps -> ph ) )
",
        options: USUAL,
        status: Status::Finished,
        written: Some(
            "qed::ax-1 |- ( ph -> ( ps -> ph ) )
",
        ),
        tail: "$= ( ax-1 ) ABC $.
",
        log: "qed found ax-1
finished
",
    },
];
