use crate::databases::Q;
use crate::row::{GIVEN, Row, USUAL};
use mm_base::Status;

// A step that asks that two variables differ, and one that leaves it out.
const DROPPED: &str = "1::ax-5 |- ( ph -> A. x ph )
qed:1:drop |- ( ph -> ph )
";

/// Distinct variables.
pub const DISTINCT: &[Row] = &[
    // Distinct variables.
    Row {
        database: Q,
        header: "dm LOC_AFTER=?",
        lines: DROPPED,
        options: USUAL,
        status: Status::Finished,
        written: None,
        tail: "$= ( vx ax-5 drop ) ABABCD $.
$d ph x
",
        log: "1 fits ax-5
qed fits drop
finished
",
    },
    Row {
        database: Q,
        header: "cl LOC_AFTER=?",
        lines: "qed::ax-5 |- ( A. x ph -> A. x A. x ph )
",
        options: USUAL,
        status: Status::Unfinished,
        written: None,
        tail: "$d ph x
",
        log: "qed fits ax-5 clash x
not finished
",
    },
    Row {
        database: Q,
        header: "g5 LOC_AFTER=?",
        lines: "qed:: |- ( ph -> A. x ph )
",
        options: USUAL,
        status: Status::Finished,
        written: Some(
            "qed::ax-5 |- ( ph -> A. x ph )
",
        ),
        tail: "$= ( ax-5 ) ABC $.
$d ph x
",
        log: "qed found ax-5
finished
",
    },
    // Only given pairs are allowed.
    Row {
        database: Q,
        header: "dm LOC_AFTER=?",
        lines: DROPPED,
        options: GIVEN,
        status: Status::Unfinished,
        written: None,
        tail: "",
        log: "1 fits ax-5 needs ph x
qed fits drop
not finished
",
    },
    Row {
        database: Q,
        header: "dm LOC_AFTER=?",
        lines: "1::ax-5 |- ( ph -> A. x ph )
qed:1:drop |- ( ph -> ph )
$d x ph
",
        options: GIVEN,
        status: Status::Finished,
        written: Some(DROPPED),
        tail: "$= ( vx ax-5 drop ) ABABCD $.
$d ph x
",
        log: "1 fits ax-5
qed fits drop
finished
",
    },
    Row {
        database: Q,
        header: "g5 LOC_AFTER=?",
        lines: "qed:: |- ( ph -> A. x ph )
",
        options: GIVEN,
        status: Status::Unfinished,
        written: None,
        tail: "",
        log: "qed no reference
not finished
",
    },
];
