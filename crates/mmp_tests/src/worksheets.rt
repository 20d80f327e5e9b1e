//! Worksheets that are unified: what is written, what is told, and with which status; and that what is written is written
//! again as it is.

use crate::calls::{Outside, Want, call_over, check, command, compare, honest, joined, sheet};
use crate::databases::Q;
use crate::row::Row;
use crate::rows::{BLANK, DERIVED, DISTINCT, FITTING, FURTHER, PLACED, REFUSED, TOGETHER, TYPED};
use mm_base::Status;
use std::alloc::{AllocError, Global};
use std::process::Abort;
use std::test::Fail;

// The text that is to be written.
fn wanted(alloc: Global, row: Row) -> Result<Vec<u8>, AllocError> {
    if row.status == Status::Sheet {
        return Ok(Vec::new(alloc));
    }
    let lines = row.written.unwrap_or(row.lines);
    sheet(alloc, row.header, &[lines, row.tail])
}

// Unifies what was written again.
fn check_again(
    rt: &impl Abort,
    alloc: Global,
    words: &[&str],
    outside: Outside<'_>,
    status: Status,
) -> Result<(), Fail> {
    let again = call_over(alloc, words, outside)?;
    assert_eq!(rt; again.out.bytes(), outside.sheet);
    assert_eq!(rt; again.status, status);
    Ok(())
}

// Unifies a text, and again what is written.
fn check_texts(
    rt: &impl Abort,
    alloc: Global,
    words: &[&str],
    outside: Outside<'_>,
    want: Want<'_>,
) -> Result<(), Fail> {
    check(rt, alloc, words, outside, want)?;
    if want.out.is_empty() {
        return Ok(());
    }
    let written = honest(outside.database, want.out);
    check_again(rt, alloc, words, written, want.status)
}

fn check_over(
    rt: &impl Abort,
    alloc: Global,
    words: &[&str],
    database: &[u8],
    row: Row,
) -> Result<(), Fail> {
    let given = sheet(alloc, row.header, &[row.lines])?;
    let text = wanted(alloc, row)?;
    let want = Want {
        status: row.status,
        out: text.as_slice(),
        log: row.log,
    };
    check_texts(rt, alloc, words, honest(database, given.as_slice()), want)
}

fn check_row(rt: &impl Abort, alloc: Global, first: &'static str, row: Row) -> Result<(), Fail> {
    let words = command(alloc, first, row.options, &["P.mm", "r.mmp"])?;
    let database = joined(alloc, row.database)?;
    check_over(rt, alloc, words.as_slice(), database.as_slice(), row)
}

/// Calls the command of that name over the worksheet of each row, and again over what it wrote.
pub fn check_rows(
    rt: &impl Abort,
    alloc: Global,
    first: &'static str,
    rows: &[Row],
) -> Result<(), Fail> {
    for row in rows {
        check_row(rt, alloc, first, *row)?;
    }
    Ok(())
}

#[test]
fn fitting_worksheets(rt: HostRuntime) -> Result<(), Fail> {
    check_rows(&rt, rt.alloc(), "unify", FITTING)
}

#[test]
fn blank_formulas(rt: HostRuntime) -> Result<(), Fail> {
    check_rows(&rt, rt.alloc(), "unify", BLANK)
}

#[test]
fn steps_together(rt: HostRuntime) -> Result<(), Fail> {
    check_rows(&rt, rt.alloc(), "unify", TOGETHER)
}

#[test]
fn derived_steps(rt: HostRuntime) -> Result<(), Fail> {
    check_rows(&rt, rt.alloc(), "unify", DERIVED)
}

#[test]
fn placed_worksheets(rt: HostRuntime) -> Result<(), Fail> {
    check_rows(&rt, rt.alloc(), "unify", PLACED)
}

#[test]
fn distinct_variables(rt: HostRuntime) -> Result<(), Fail> {
    check_rows(&rt, rt.alloc(), "unify", DISTINCT)
}

#[test]
fn refused_worksheets(rt: HostRuntime) -> Result<(), Fail> {
    check_rows(&rt, rt.alloc(), "unify", REFUSED)
}

#[test]
fn other_typecodes(rt: HostRuntime) -> Result<(), Fail> {
    check_rows(&rt, rt.alloc(), "unify", TYPED)
}

#[test]
fn further_worksheets(rt: HostRuntime) -> Result<(), Fail> {
    check_rows(&rt, rt.alloc(), "unify", FURTHER)
}

// In the style of mmj2: with blank lines, indented formulas, a formula over two lines and a proof that is passed over.
const INDENTED: &[u8] = b"$( <MM> <PROOF_ASST> THEOREM=syl  LOC_AFTER=?

* An inference version of the transitive laws for implication.

h1::syl.1           |- ( ph -> ps )
h2::syl.2           |- ( ps -> ch )
3:2:a1i            |- ( ph ->
                       ( ps -> ch ) )
4:3:a2i           |- ( ( ph -> ps ) -> ( ph -> ch ) )
qed:1,4:ax-mp    |- ( ph -> ch )

$=  wph wps wi
    ax-mp $.

$)
";

const LAID_OUT: &[u8] = b"$( <MM> <PROOF_ASST> THEOREM=syl LOC_AFTER=?
* An inference version of the transitive laws for implication.
h1::syl.1 |- ( ph -> ps )
h2::syl.2 |- ( ps -> ch )
3:2:a1i |- ( ph -> ( ps -> ch ) )
4:3:a2i |- ( ( ph -> ps ) -> ( ph -> ch ) )
qed:1,4:ax-mp |- ( ph -> ch )
$= ( wi a1i a2i ax-mp ) ABFACFDABCBCFAEGHI $.
$)
";

#[test]
fn an_indented_worksheet(rt: HostRuntime) -> Result<(), Fail> {
    let words = ["unify", "P.mm", "r.mmp"];
    let database = joined(rt.alloc(), Q)?;
    let want = Want {
        status: Status::Finished,
        out: LAID_OUT,
        log: "1 hyp\n2 hyp\n3 fits a1i\n4 fits a2i\nqed fits ax-mp\nfinished\n",
    };
    for sheet in [INDENTED, LAID_OUT] {
        let outside = honest(database.as_slice(), sheet);
        let ended = call_over(rt.alloc(), words.as_slice(), outside)?;
        compare(&rt, &ended, want);
    }
    Ok(())
}
