//! Texts that are larger than a limit, or end with all of their blocks open.

use crate::calls::{check, refused};
use crate::given::PROP;
use crate::texts::{big_steps, repeated, spaces, with_big};
use mm_base::Status;
use std::test::Fail;

// One space more than a worksheet may have bytes.
#[test]
fn a_worksheet_is_too_big(rt: HostRuntime) -> Result<(), Fail> {
    let mut text = spaces(rt.alloc())?;
    text.push(b' ')?;
    let want = refused(Status::Sheet, "sheet error 50 TooBig at line 1\n");
    check(
        &rt,
        rt.alloc(),
        "too many spaces",
        PROP.as_bytes(),
        text.as_slice(),
        want,
    )
}

// As many spaces as it may have are one line without a header.
#[test]
fn a_worksheet_of_spaces(rt: HostRuntime) -> Result<(), Fail> {
    let text = spaces(rt.alloc())?;
    let want = refused(Status::Sheet, "sheet error 40 NoHeader at line 2\n");
    check(
        &rt,
        rt.alloc(),
        "spaces",
        PROP.as_bytes(),
        text.as_slice(),
        want,
    )
}

#[test]
fn blocks_stay_open(rt: HostRuntime) -> Result<(), Fail> {
    let text = repeated(rt.alloc(), b"${ ", 100_000)?;
    let want = refused(
        Status::Database,
        "database error 22 BlockOpen at byte 300000\n",
    );
    check(&rt, rt.alloc(), "open blocks", text.as_slice(), b"", want)
}

// 4,193 steps whose trees have some 4,000 nodes each.
#[test]
fn work_is_limited(rt: HostRuntime) -> Result<(), Fail> {
    let database = with_big(rt.alloc(), PROP, 4_000)?;
    let text = big_steps(rt.alloc(), 4_193)?;
    let want = refused(Status::Sheet, "sheet error 74 TooMuch size 16780387\n");
    check(
        &rt,
        rt.alloc(),
        "big steps",
        database.as_slice(),
        text.as_slice(),
        want,
    )
}
