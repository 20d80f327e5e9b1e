use crate::databases::PROP;
use crate::row::{Row, USUAL};
use mm_base::Status;

/// Cycles, a step in the middle that is set aside, and work variables that fall together.
pub const TOGETHER: &[Row] = &[
    // A cycle.
    Row {
        database: &[PROP],
        header: "c LOC_AFTER=?",
        lines: "h1::c.1 |- &W1
qed:1,1:ax-mp |- ps
",
        options: USUAL,
        status: Status::Unfinished,
        written: None,
        tail: "",
        log: "1 hyp
qed no fit ax-mp
not finished
",
    },
    // A cycle over two steps.
    Row {
        database: &[PROP],
        header: "c2 LOC_AFTER=?",
        lines: "1::ax-1 |- ( &W1 -> &W2 )
2::ax-1 |- ( &W2 -> &W1 )
qed:: |- ph
",
        options: USUAL,
        status: Status::Unfinished,
        written: Some(
            "1::ax-1 |- ( &W1 -> ( &W3 -> &W1 ) )
2::ax-1 |- ( ( &W3 -> &W1 ) -> &W1 )
qed:: |- ph
",
        ),
        tail: "",
        log: "1 fits ax-1
2 no fit ax-1
qed no reference
not finished
",
    },
    // A step in the middle is set aside.
    Row {
        database: &[PROP],
        header: "u9 LOC_AFTER=?",
        lines: "1::ax-1 |- ( ph -> &W1 )
2:1,1:ax-mp |- &W2
3::ax-1 |- ( &W2 -> ( ps -> &W2 ) )
qed:: |- ( ph -> ps )
",
        options: USUAL,
        status: Status::Unfinished,
        written: Some(
            "1::ax-1 |- ( ph -> ( &W3 -> ph ) )
2:1,1:ax-mp |- &W2
3::ax-1 |- ( &W2 -> ( ps -> &W2 ) )
qed:: |- ( ph -> ps )
",
        ),
        tail: "",
        log: "1 fits ax-1
2 no fit ax-mp
3 fits ax-1
qed no reference
not finished
",
    },
    // Work variables that fall together.
    Row {
        database: &[PROP],
        header: "f LOC_AFTER=?",
        lines: "qed::ax-1 |- ( &W3 -> ( ps -> &W1 ) )
",
        options: USUAL,
        status: Status::Unfinished,
        written: Some(
            "qed::ax-1 |- ( &W1 -> ( ps -> &W1 ) )
",
        ),
        tail: "",
        log: "qed fits ax-1
not finished
",
    },
];
