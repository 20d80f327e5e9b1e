use crate::databases::{DEMO, Q_TWICE};
use crate::row::{Row, USUAL};
use crate::rows::{DEMO_STEPS, MODUS_PONENS};
use mm_base::Status;

/// Formulas with two trees, and other faults.
pub const REFUSED: &[Row] = &[
    // Formulas with two trees.
    Row {
        database: Q_TWICE,
        header: "w LOC_AFTER=?",
        lines: "qed:: |- x = y
",
        options: USUAL,
        status: Status::Sheet,
        written: None,
        tail: "",
        log: "sheet error 68 TwoTrees at line 2
",
    },
    Row {
        database: Q_TWICE,
        header: "w LOC_AFTER=?",
        lines: "qed::eqv |- A = A
",
        options: USUAL,
        status: Status::Unfinished,
        written: None,
        tail: "",
        log: "qed not usable eqv
not finished
",
    },
    Row {
        database: Q_TWICE,
        header: "v LOC_AFTER=?",
        lines: "qed::sel |- { x | ph } = y
",
        options: USUAL,
        status: Status::Sheet,
        written: None,
        tail: "",
        log: "sheet error 78 WrittenTwoTrees step d1
",
    },
    // Other faults.
    Row {
        database: &[],
        header: "th1 LOC_AFTER=?",
        lines: DEMO_STEPS,
        options: USUAL,
        status: Status::Sheet,
        written: None,
        tail: "",
        log: "sheet error 66 UnknownSymbol at line 2
",
    },
    Row {
        database: &[DEMO],
        header: "r LOC_AFTER=?",
        lines: MODUS_PONENS,
        options: USUAL,
        status: Status::Sheet,
        written: None,
        tail: "",
        log: "sheet error 66 UnknownSymbol at line 2
",
    },
    Row {
        database: &[DEMO],
        header: "th1 LOC_AFTER=?",
        lines: "qed:: |- t = r
",
        options: USUAL,
        status: Status::Sheet,
        written: None,
        tail: "",
        log: "sheet error 62 HypsDiffer at line 2
",
    },
    Row {
        database: &[DEMO],
        header: "a1 LOC_AFTER=?",
        lines: "qed:: |- t = r
",
        options: USUAL,
        status: Status::Sheet,
        written: None,
        tail: "",
        log: "sheet error 61 TheoremTaken at line 1
",
    },
];
