use crate::databases::{DEMO, PROP};
use crate::row::{Row, USUAL};
use crate::rows::{DEMO_PROOF, DEMO_REPORT, DEMO_STEPS, IDENTITY_STEPS};
use mm_base::Status;

/// Formulas that are left out, and what a proof leaves open.
pub const BLANK: &[Row] = &[
    // Its formulas are left out.
    Row {
        database: &[DEMO],
        header: "th1 LOC_AFTER=?",
        lines: "1::a2
2::a1
3:1,2:mp
qed:1,3:mp |- t = t
",
        options: USUAL,
        status: Status::Finished,
        written: Some(DEMO_STEPS),
        tail: DEMO_PROOF,
        log: DEMO_REPORT,
    },
    // The identity; what its proof leaves open stays a work variable.
    Row {
        database: &[PROP],
        header: "id LOC_AFTER=?",
        lines: "1::ax-1
2::ax-1
3::ax-2
4:2,3:ax-mp
qed:1,4:ax-mp |- ( ph -> ph )
",
        options: USUAL,
        status: Status::Unfinished,
        written: Some(
            "1::ax-1 |- ( ph -> ( &W1 -> ph ) )
2::ax-1 |- ( ph -> ( ( &W1 -> ph ) -> ph ) )
3::ax-2 |- ( ( ph -> ( ( &W1 -> ph ) -> ph ) ) -> ( ( ph -> ( &W1 -> ph ) ) -> ( ph -> ph ) ) )
4:2,3:ax-mp |- ( ( ph -> ( &W1 -> ph ) ) -> ( ph -> ph ) )
qed:1,4:ax-mp |- ( ph -> ph )
",
        ),
        tail: "",
        log: "1 fits ax-1
2 fits ax-1
3 fits ax-2
4 fits ax-mp
qed fits ax-mp
not finished
",
    },
    Row {
        database: &[PROP],
        header: "id LOC_AFTER=?",
        lines: "1::ax-1 |- ( ph -> ( &W1 -> ph ) )
2::ax-1 |- ( ph -> ( ( &W1 -> ph ) -> ph ) )
3::ax-2 |- ( ( ph -> ( ( &W1 -> ph ) -> ph ) ) -> ( ( ph -> ( &W1 -> ph ) ) -> ( ph -> ph ) ) )
4:2,3:ax-mp |- ( ( ph -> ( &W1 -> ph ) ) -> ( ph -> ph ) )
qed:1,4:ax-mp |- ( ph -> ph )
",
        options: USUAL,
        status: Status::Unfinished,
        written: None,
        tail: "",
        log: "1 fits ax-1
2 fits ax-1
3 fits ax-2
4 fits ax-mp
qed fits ax-mp
not finished
",
    },
    Row {
        database: &[PROP],
        header: "id LOC_AFTER=?",
        lines: "1::ax-1 |- ( ph -> ( ph -> ph ) )
2::ax-1
3::ax-2
4:2,3:ax-mp
qed:1,4:ax-mp |- ( ph -> ph )
",
        options: USUAL,
        status: Status::Finished,
        written: Some(IDENTITY_STEPS),
        tail: "$= ( wi ax-1 ax-2 ax-mp ) AAABZBZFAACAFABBGFBAFCAFADEE $.
",
        log: "1 fits ax-1
2 fits ax-1
3 fits ax-2
4 fits ax-mp
qed fits ax-mp
finished
",
    },
];
