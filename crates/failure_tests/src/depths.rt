//! Formulas as deep as they may be.

use crate::calls::{Want, check, refused};
use crate::given::PROP;
use crate::texts::negations;
use mm_base::Status;
use std::test::Fail;

// 4,096 tokens are a formula.
#[test]
fn the_deepest_formula(rt: HostRuntime) -> Result<(), Fail> {
    let text = negations(rt.alloc(), 4_094)?;
    let want = Want {
        status: Status::Unfinished,
        out: text.as_slice(),
        log: "qed no reference\nnot finished\n",
    };
    check(
        &rt,
        rt.alloc(),
        "4,094 signs",
        PROP.as_bytes(),
        text.as_slice(),
        want,
    )
}

// One more is too long.
#[test]
fn a_deeper_formula(rt: HostRuntime) -> Result<(), Fail> {
    let text = negations(rt.alloc(), 4_095)?;
    let want = refused(Status::Sheet, "sheet error 71 FormulaLong at line 2\n");
    check(
        &rt,
        rt.alloc(),
        "4,095 signs",
        PROP.as_bytes(),
        text.as_slice(),
        want,
    )
}
