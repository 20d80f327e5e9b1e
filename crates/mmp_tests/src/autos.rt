//! Worksheets whose steps are filled: what is filled in, what is left, and which fault is told. What is written is its own answer.

use crate::calls::{call_over, compare_row, honest, refused};
use crate::databases::{FORMS, PROP, Q, Q_TWICE, SETS};
use crate::row::{GIVEN, NAMED, NORMAL, Row, USUAL};
use crate::worksheets::check_rows;
use mm_base::Status;
use std::test::Fail;

// Behind `PROP`: assertions with two and three `$e`.
const COUNTED: &str = "${
  two.1 $e |- ph $.
  two.2 $e |- ph $.
  two $a |- ( ph -> ph ) $.
$}
${
  three.1 $e |- ph $.
  three.2 $e |- ps $.
  three.3 $e |- ch $.
  three $a |- ( ph -> ( ps -> ch ) ) $.
$}
";

// Behind `PROP`: one with four.
const FOUR: &str = "${
  four.1 $e |- ph $.
  four.2 $e |- ph $.
  four.3 $e |- ph $.
  four.4 $e |- ph $.
  four $a |- -. ph $.
$}
";

// Behind `PROP`: a negation over one formula, twice.
const NEGATED: &str = "${
  not.1 $e |- ph $.
  not.2 $e |- ph $.
  not $a |- -. ph $.
$}
";

// An assertion that needs a pair, before one that needs none.
const PAIRED: &[&str] = &[
    PROP,
    SETS,
    "${
  $d x ph $.
  apart.1 $e |- ph $.
  apart $a |- A. x ph $.
$}
${
  gen.1 $e |- ph $.
  gen $a |- A. x ph $.
$}
",
];

// A formula, and each step one negation more.
const NEGATIONS: &str = "h1::s.1 |- ph
2:: |- -. ph
3:: |- -. -. ph
4:: |- -. -. -. ph
5:: |- -. -. -. -. ph
6:: |- -. -. -. -. -. ph
7:: |- -. -. -. -. -. -. ph
8:: |- -. -. -. -. -. -. -. ph
9:: |- -. -. -. -. -. -. -. -. ph
10:: |- -. -. -. -. -. -. -. -. -. ph
11:: |- -. -. -. -. -. -. -. -. -. -. ph
12:: |- -. -. -. -. -. -. -. -. -. -. -. ph
13:: |- -. -. -. -. -. -. -. -. -. -. -. -. ph
14:: |- -. -. -. -. -. -. -. -. -. -. -. -. -. ph
15:: |- -. -. -. -. -. -. -. -. -. -. -. -. -. -. ph
16:: |- -. -. -. -. -. -. -. -. -. -. -. -. -. -. -. ph
17:: |- -. -. -. -. -. -. -. -. -. -. -. -. -. -. -. -. ph
18:: |- -. -. -. -. -. -. -. -. -. -. -. -. -. -. -. -. -. ph
19:: |- -. -. -. -. -. -. -. -. -. -. -. -. -. -. -. -. -. -. ph
qed:: |- -. -. -. -. -. -. -. -. -. -. -. -. -. -. -. -. -. -. -. ph
";

const FILLED: &[Row] = &[
    // Modus ponens.
    Row {
        database: &[PROP],
        header: "r LOC_AFTER=?",
        lines: "h1::r.1 |- ph
h2::r.2 |- ( ph -> ps )
qed:: |- ps
",
        options: USUAL,
        status: Status::Finished,
        written: Some(
            "h1::r.1 |- ph
h2::r.2 |- ( ph -> ps )
qed:1,2:ax-mp |- ps
",
        ),
        tail: "$= ( ax-mp ) ABCDE $.
",
        log: "1 hyp
2 hyp
qed fits ax-mp
finished
",
    },
    // With a normal proof.
    Row {
        database: &[PROP],
        header: "r LOC_AFTER=?",
        lines: "h1::r.1 |- ph
h2::r.2 |- ( ph -> ps )
qed:: |- ps
",
        options: NORMAL,
        status: Status::Finished,
        written: Some(
            "h1::r.1 |- ph
h2::r.2 |- ( ph -> ps )
qed:1,2:ax-mp |- ps
",
        ),
        tail: "$= wph wps r.1 r.2 ax-mp $.
",
        log: "1 hyp
2 hyp
qed fits ax-mp
finished
",
    },
    // Other typecodes.
    Row {
        database: &[FORMS],
        header: "r LOC_AFTER=?",
        lines: "h1::r.1 T ph
h2::r.2 T ( ph -> ps )
qed:: T ps
",
        options: NAMED,
        status: Status::Finished,
        written: Some(
            "h1::r.1 T ph
h2::r.2 T ( ph -> ps )
qed:1,2:ax-mp T ps
",
        ),
        tail: "$= ( ax-mp ) ABCDE $.
",
        log: "1 hyp
2 hyp
qed fits ax-mp
finished
",
    },
    // One `$e`.
    Row {
        database: Q,
        header: "s LOC_AFTER=?",
        lines: "h1::s.1 |- ph
qed:: |- ( ps -> ph )
",
        options: USUAL,
        status: Status::Finished,
        written: Some(
            "h1::s.1 |- ph
qed:1:a1i |- ( ps -> ph )
",
        ),
        tail: "$= ( a1i ) ABCD $.
",
        log: "1 hyp
qed fits a1i
finished
",
    },
    // The first of two assertions, and of two steps, that serve.
    Row {
        database: Q,
        header: "s LOC_AFTER=?",
        lines: "h1::s.1 |- ph
h2::s.2 |- ph
qed:: |- ( ph -> ph )
",
        options: USUAL,
        status: Status::Finished,
        written: Some(
            "h1::s.1 |- ph
h2::s.2 |- ph
qed:1:a1i |- ( ph -> ph )
",
        ),
        tail: "$= ( a1i ) AABD $.
",
        log: "1 hyp
2 hyp
qed fits a1i
finished
",
    },
    // The first of two tuples that serve.
    Row {
        database: &[PROP],
        header: "s LOC_AFTER=?",
        lines: "h1::s.1 |- ph
h2::s.2 |- ( ph -> ps )
h3::s.3 |- ch
h4::s.4 |- ( ch -> ps )
qed:: |- ps
",
        options: USUAL,
        status: Status::Finished,
        written: Some(
            "h1::s.1 |- ph
h2::s.2 |- ( ph -> ps )
h3::s.3 |- ch
h4::s.4 |- ( ch -> ps )
qed:1,2:ax-mp |- ps
",
        ),
        tail: "$= ( ax-mp ) ABDEH $.
",
        log: "1 hyp
2 hyp
3 hyp
4 hyp
qed fits ax-mp
finished
",
    },
    // The first of two tuples, by the step of the first `$e`.
    Row {
        database: &[PROP],
        header: "s LOC_AFTER=?",
        lines: "h1::s.1 |- ( ph -> ps )
h2::s.2 |- ( ch -> ps )
h3::s.3 |- ch
h4::s.4 |- ph
qed:: |- ps
",
        options: USUAL,
        status: Status::Finished,
        written: Some(
            "h1::s.1 |- ( ph -> ps )
h2::s.2 |- ( ch -> ps )
h3::s.3 |- ch
h4::s.4 |- ph
qed:3,2:ax-mp |- ps
",
        ),
        tail: "$= ( ax-mp ) CBFEH $.
",
        log: "1 hyp
2 hyp
3 hyp
4 hyp
qed fits ax-mp
finished
",
    },
    // A step over one that is not proved.
    Row {
        database: Q,
        header: "s LOC_AFTER=?",
        lines: "1:: |- ch
qed:: |- ( ps -> ch )
",
        options: USUAL,
        status: Status::Unfinished,
        written: Some(
            "1:: |- ch
qed:1:a1i |- ( ps -> ch )
",
        ),
        tail: "",
        log: "1 no reference
qed fits a1i
not finished
",
    },
    // A tuple whose steps repeat.
    Row {
        database: &[PROP, COUNTED],
        header: "s LOC_AFTER=?",
        lines: "h1::s.1 |- ph
qed:: |- ( ph -> ph )
",
        options: USUAL,
        status: Status::Finished,
        written: Some(
            "h1::s.1 |- ph
qed:1,1:two |- ( ph -> ph )
",
        ),
        tail: "$= ( two ) ABBC $.
",
        log: "1 hyp
qed fits two
finished
",
    },
    // Three `$e`, in another order than the steps.
    Row {
        database: &[PROP, COUNTED],
        header: "s LOC_AFTER=?",
        lines: "h1::s.1 |- ps
h2::s.2 |- ph
h3::s.3 |- ch
qed:: |- ( ph -> ( ps -> ch ) )
",
        options: USUAL,
        status: Status::Finished,
        written: Some(
            "h1::s.1 |- ps
h2::s.2 |- ph
h3::s.3 |- ch
qed:2,1,3:three |- ( ph -> ( ps -> ch ) )
",
        ),
        tail: "$= ( three ) ABCEDFG $.
",
        log: "1 hyp
2 hyp
3 hyp
qed fits three
finished
",
    },
    // Three steps, each over earlier ones.
    Row {
        database: Q,
        header: "syl LOC_AFTER=?",
        lines: "h1::syl.1 |- ( ph -> ps )
h2::syl.2 |- ( ps -> ch )
3:: |- ( ph -> ( ps -> ch ) )
4:: |- ( ( ph -> ps ) -> ( ph -> ch ) )
qed:: |- ( ph -> ch )
",
        options: USUAL,
        status: Status::Finished,
        written: Some(
            "h1::syl.1 |- ( ph -> ps )
h2::syl.2 |- ( ps -> ch )
3:2:a1i |- ( ph -> ( ps -> ch ) )
4:3:a2i |- ( ( ph -> ps ) -> ( ph -> ch ) )
qed:1,4:ax-mp |- ( ph -> ch )
",
        ),
        tail: "$= ( wi a1i a2i ax-mp ) ABFACFDABCBCFAEGHI $.
",
        log: "1 hyp
2 hyp
3 fits a1i
4 fits a2i
qed fits ax-mp
finished
",
    },
    // A step that the worksheet did not have.
    Row {
        database: Q,
        header: "s LOC_AFTER=?",
        lines: "h1::s.1 |- ph
h2::s.2 |- ( ph -> ps )
qed::a1i |- ( ch -> ps )
",
        options: USUAL,
        status: Status::Finished,
        written: Some(
            "h1::s.1 |- ph
h2::s.2 |- ( ph -> ps )
d1:1,2:ax-mp |- ps
qed:d1:a1i |- ( ch -> ps )
",
        ),
        tail: "$= ( ax-mp a1i ) BCABDEFG $.
",
        log: "1 hyp
2 hyp
d1 fits ax-mp
qed fits a1i
finished
",
    },
    // A comment stays before its step.
    Row {
        database: &[PROP],
        header: "r LOC_AFTER=?",
        lines: "* one
h1::r.1 |- ph
h2::r.2 |- ( ph -> ps )
* two
qed:: |- ps
",
        options: USUAL,
        status: Status::Finished,
        written: Some(
            "* one
h1::r.1 |- ph
h2::r.2 |- ( ph -> ps )
* two
qed:1,2:ax-mp |- ps
",
        ),
        tail: "$= ( ax-mp ) ABCDE $.
",
        log: "1 hyp
2 hyp
qed fits ax-mp
finished
",
    },
    // A step that the search finds is none of those that are filled, though an assertion over a step would serve.
    Row {
        database: Q,
        header: "s LOC_AFTER=?",
        lines: "h1::s.1 |- ( ps -> ph )
qed:: |- ( ph -> ( ps -> ph ) )
",
        options: USUAL,
        status: Status::Finished,
        written: Some(
            "h1::s.1 |- ( ps -> ph )
qed::ax-1 |- ( ph -> ( ps -> ph ) )
",
        ),
        tail: "$= ( ax-1 ) ABD $.
",
        log: "1 hyp
qed fits ax-1
finished
",
    },
    // No step over one that stands behind it.
    Row {
        database: Q,
        header: "s LOC_AFTER=?",
        lines: "1:: |- ( ps -> ph )
h2::s.2 |- ph
qed:: |- ( ps -> ph )
",
        options: USUAL,
        status: Status::Finished,
        written: Some(
            "1:: |- ( ps -> ph )
h2::s.2 |- ph
qed:2:a1i |- ( ps -> ph )
",
        ),
        tail: "$= ( a1i ) ABCD $.
",
        log: "1 no reference
2 hyp
qed fits a1i
finished
",
    },
    // A pair that may be added.
    Row {
        database: PAIRED,
        header: "s LOC_AFTER=?",
        lines: "h1::s.1 |- ph
qed:: |- A. x ph
",
        options: USUAL,
        status: Status::Finished,
        written: Some(
            "h1::s.1 |- ph
qed:1:apart |- A. x ph
",
        ),
        tail: "$= ( apart ) ABCD $.
$d ph x
",
        log: "1 hyp
qed fits apart
finished
",
    },
    // A pair that is not given.
    Row {
        database: PAIRED,
        header: "s LOC_AFTER=?",
        lines: "h1::s.1 |- ph
qed:: |- A. x ph
",
        options: GIVEN,
        status: Status::Finished,
        written: Some(
            "h1::s.1 |- ph
qed:1:gen |- A. x ph
",
        ),
        tail: "$= ( gen ) ABCD $.
",
        log: "1 hyp
qed fits gen
finished
",
    },
    // A pair that is given.
    Row {
        database: PAIRED,
        header: "s LOC_AFTER=?",
        lines: "h1::s.1 |- ph
qed:: |- A. x ph
$d x ph
",
        options: GIVEN,
        status: Status::Finished,
        written: Some(
            "h1::s.1 |- ph
qed:1:apart |- A. x ph
",
        ),
        tail: "$= ( apart ) ABCD $.
$d ph x
",
        log: "1 hyp
qed fits apart
finished
",
    },
    // A clash.
    Row {
        database: PAIRED,
        header: "s LOC_AFTER=?",
        lines: "h1::s.1 |- A. x ph
qed:: |- A. x A. x ph
",
        options: USUAL,
        status: Status::Finished,
        written: Some(
            "h1::s.1 |- A. x ph
qed:1:gen |- A. x A. x ph
",
        ),
        tail: "$= ( wal gen ) ABDBCE $.
",
        log: "1 hyp
qed fits gen
finished
",
    },
];

const LEFT: &[Row] = &[
    // No assertion gives the formula from earlier steps.
    Row {
        database: &[PROP],
        header: "r LOC_AFTER=?",
        lines: "h1::r.1 |- ph
h2::r.2 |- ( ph -> ps )
qed:: |- ch
",
        options: USUAL,
        status: Status::Unfinished,
        written: None,
        tail: "",
        log: "1 hyp
2 hyp
qed no reference
not finished
",
    },
    // A step with a reference, which does not fit.
    Row {
        database: &[PROP],
        header: "r LOC_AFTER=?",
        lines: "h1::r.1 |- ph
h2::r.2 |- ( ph -> ps )
qed::ax-1 |- ps
",
        options: USUAL,
        status: Status::Unfinished,
        written: None,
        tail: "",
        log: "1 hyp
2 hyp
qed no fit ax-1
not finished
",
    },
    // A step that lists a place.
    Row {
        database: &[PROP],
        header: "r LOC_AFTER=?",
        lines: "h1::r.1 |- ph
h2::r.2 |- ( ph -> ps )
qed:1: |- ps
",
        options: USUAL,
        status: Status::Unfinished,
        written: None,
        tail: "",
        log: "1 hyp
2 hyp
qed no reference
not finished
",
    },
    // A step that lists an open place.
    Row {
        database: &[PROP],
        header: "r LOC_AFTER=?",
        lines: "h1::r.1 |- ph
h2::r.2 |- ( ph -> ps )
qed:?: |- ps
",
        options: USUAL,
        status: Status::Unfinished,
        written: None,
        tail: "",
        log: "1 hyp
2 hyp
qed no reference
not finished
",
    },
    // A step with a work variable.
    Row {
        database: Q,
        header: "s LOC_AFTER=?",
        lines: "h1::s.1 |- ph
qed:: |- ( &W1 -> ph )
",
        options: USUAL,
        status: Status::Unfinished,
        written: None,
        tail: "",
        log: "1 hyp
qed no reference
not finished
",
    },
    // A step over one with a work variable.
    Row {
        database: &[PROP],
        header: "s LOC_AFTER=?",
        lines: "h1::s.1 |- ph
2:: |- ( ph -> &W1 )
qed:: |- ps
",
        options: USUAL,
        status: Status::Unfinished,
        written: None,
        tail: "",
        log: "1 hyp
2 no reference
qed no reference
not finished
",
    },
    // An assertion behind the place.
    Row {
        database: Q,
        header: "s LOC_AFTER=ax-2",
        lines: "h1::s.1 |- ph
qed:: |- ( ps -> ph )
",
        options: USUAL,
        status: Status::Unfinished,
        written: None,
        tail: "",
        log: "1 hyp
qed no reference
not finished
",
    },
    // An assertion with four `$e`.
    Row {
        database: &[PROP, FOUR],
        header: "s LOC_AFTER=?",
        lines: "h1::s.1 |- ph
qed:: |- -. ph
",
        options: USUAL,
        status: Status::Unfinished,
        written: None,
        tail: "",
        log: "1 hyp
qed no reference
not finished
",
    },
];

const NOT_WRITTEN: &[Row] = &[
    // A line that is no step.
    Row {
        database: &[PROP],
        header: "r LOC_AFTER=?",
        lines: "h1::r.1 |- ph
qed |- ph
",
        options: USUAL,
        status: Status::Sheet,
        written: None,
        tail: "",
        log: "sheet error 44 BadStep at line 3
",
    },
    // A place that the database does not have.
    Row {
        database: &[PROP],
        header: "r LOC_AFTER=none",
        lines: "h1::r.1 |- ph
h2::r.2 |- ( ph -> ps )
qed:: |- ps
",
        options: USUAL,
        status: Status::Sheet,
        written: None,
        tail: "",
        log: "sheet error 60 LocUnknown at line 1
",
    },
    // A written formula that can be read in two ways.
    Row {
        database: Q_TWICE,
        header: "v LOC_AFTER=?",
        lines: "qed::sel |- { x | ph } = y
",
        options: USUAL,
        status: Status::Sheet,
        written: None,
        tail: "",
        log: "sheet error 78 WrittenTwoTrees step d1
",
    },
    // A proof of 4 * 2^n - n - 3 labels behind n negations, and so at most 2^20 of 18; that of 19 is too long. Without what is filled
    // in there is no proof.
    Row {
        database: &[PROP, NEGATED],
        header: "s LOC_AFTER=?",
        lines: NEGATIONS,
        options: NORMAL,
        status: Status::Sheet,
        written: None,
        tail: "",
        log: "sheet error 79 ProofTooLong labels 2097130
",
    },
];

#[test]
fn steps_are_filled(rt: HostRuntime) -> Result<(), Fail> {
    check_rows(&rt, rt.alloc(), "auto", FILLED)
}

#[test]
fn some_steps_are_left(rt: HostRuntime) -> Result<(), Fail> {
    check_rows(&rt, rt.alloc(), "auto", LEFT)
}

#[test]
fn faults_of_filled_worksheets(rt: HostRuntime) -> Result<(), Fail> {
    check_rows(&rt, rt.alloc(), "auto", NOT_WRITTEN)
}

#[test]
fn no_files_to_fill(rt: HostRuntime) -> Result<(), Fail> {
    for (words, line) in [
        (["auto", "Q.mm", "r.mmp"], "read fault Q.mm\n"),
        (["auto", "P.mm", "s.mmp"], "read fault s.mmp\n"),
    ] {
        let outside = honest(PROP.as_bytes(), b"");
        let ended = call_over(rt.alloc(), words.as_slice(), outside)?;
        compare_row(
            &rt,
            "a file that is not there",
            &ended,
            refused(Status::Read, line),
        );
    }
    Ok(())
}
