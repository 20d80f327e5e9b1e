//! Steps of worksheets that are asked about: the assertions that fit them, one on each line, or why none are told.

use crate::calls::{
    Ended, Outside, Want, call_over, command, compare_row, honest, joined, refused, sheet,
};
use crate::databases::{ANY, DEMO, FORMS, GOOD, PROP, Q, Q_TWICE, SETS};
use crate::row::{GIVEN, NAMED, NORMAL, USUAL};
use crate::rows::{DEMO_STEPS, MODUS_PONENS};
use mm_base::{Memory, Status};
use std::alloc::Global;
use std::process::Abort;
use std::test::Fail;

// A step of a worksheet over a database, and what is told of it.
#[derive(Clone, Copy)]
struct Row {
    shows: &'static str,
    // The parts of the database.
    database: &'static [&'static str],
    // What the header says of the theorem and its place.
    header: &'static str,
    steps: &'static str,
    options: &'static [&'static str],
    // The name of the step.
    step: &'static str,
    answer: Answer,
}

#[derive(Clone, Copy)]
enum Answer {
    // These labels fit the step.
    Fits(&'static str),
    // The worksheet or the step is refused.
    Refused(&'static str),
}

const AXIOM: &str = "qed:: |- ( ph -> ( ps -> ph ) )
";

const QUANTIFIED: &str = "qed:: |- ( ph -> A. x ph )
";

// Its first four formulas are left out, and what its proof leaves open is a work variable.
const BLANK_STEPS: &str = "1::ax-1
2::ax-1
3::ax-2
4:2,3:ax-mp
qed:1,4:ax-mp |- ( ph -> ph )
";

// It becomes `d1::ax-1 |- ( ph -> ( ps -> ph ) )` and `qed:1,d1:ax-mp |- ( ps -> ph )` behind the hypothesis.
const MISSING_STEP: &str = "h1::u.1 |- ph
qed:1:ax-mp |- ( ps -> ph )
";

// It becomes `d1:: |- ( &W1 -> ps )` and `qed:?,d1:ax-mp |- ps`.
const OPEN_PLACE: &str = "qed:?:ax-mp |- ps
";

// Steps over two hypotheses, without references.
const OVER_HYPOTHESES: &str = "h1::s.1 |- ph
h2::s.2 |- ( ph -> ps )
3:2,1: |- ps
4:1: |- ( ph -> ph )
5:1: |- ( ps -> ph )
6:1,1: |- ps
qed:1,2: |- ps
";

const FITTING: &[Row] = &[
    Row {
        shows: "an axiom and its copy",
        database: Q,
        header: "s LOC_AFTER=?",
        steps: AXIOM,
        options: USUAL,
        step: "qed",
        answer: Answer::Fits("ax-1\nax-1c\n"),
    },
    Row {
        shows: "the same as normal",
        database: Q,
        header: "s LOC_AFTER=?",
        steps: AXIOM,
        options: NORMAL,
        step: "qed",
        answer: Answer::Fits("ax-1\nax-1c\n"),
    },
    Row {
        shows: "a place before the copy",
        database: Q,
        header: "s LOC_AFTER=ax-2",
        steps: AXIOM,
        options: USUAL,
        step: "qed",
        answer: Answer::Fits("ax-1\n"),
    },
    Row {
        shows: "an assertion that any formula fits",
        database: &[PROP, ANY],
        header: "s LOC_AFTER=?",
        steps: AXIOM,
        options: USUAL,
        step: "qed",
        answer: Answer::Fits("ax-1\nany\n"),
    },
    Row {
        shows: "a theorem of the database for another one",
        database: &[PROP, GOOD],
        header: "s LOC_AFTER=?",
        steps: AXIOM,
        options: USUAL,
        step: "qed",
        answer: Answer::Fits("ax-1\ngood\n"),
    },
    Row {
        shows: "no theorem for itself",
        database: &[PROP, GOOD],
        header: "good LOC_AFTER=?",
        steps: AXIOM,
        options: USUAL,
        step: "qed",
        answer: Answer::Fits("ax-1\n"),
    },
    Row {
        shows: "other typecodes",
        database: &[FORMS],
        header: "s LOC_AFTER=?",
        steps: "qed:: T ( ph -> ( ps -> ph ) )
",
        options: NAMED,
        step: "qed",
        answer: Answer::Fits("ax-1\n"),
    },
    Row {
        shows: "a reference, and another label that fits",
        database: Q,
        header: "s LOC_AFTER=?",
        steps: "qed::ax-1c |- ( ph -> ( ps -> ph ) )
",
        options: USUAL,
        step: "qed",
        answer: Answer::Fits("ax-1\nax-1c\n"),
    },
    Row {
        shows: "a reference that does not fit",
        database: &[PROP],
        header: "s LOC_AFTER=?",
        steps: "qed::ax-2 |- ( ph -> ( ps -> ph ) )
",
        options: USUAL,
        step: "qed",
        answer: Answer::Fits("ax-1\n"),
    },
    Row {
        shows: "a step of the first example of the book, whose formula is left out",
        database: &[DEMO],
        header: "th1 LOC_AFTER=?",
        steps: "1::a2
2::a1
3:1,2:mp
qed:1,3:mp |- t = t
",
        options: USUAL,
        step: "3",
        answer: Answer::Fits("mp\n"),
    },
    Row {
        shows: "an axiom of the example",
        database: &[DEMO],
        header: "th1 LOC_AFTER=?",
        steps: DEMO_STEPS,
        options: USUAL,
        step: "2",
        answer: Answer::Fits("a1\n"),
    },
    Row {
        shows: "two places in their order",
        database: Q,
        header: "s LOC_AFTER=?",
        steps: OVER_HYPOTHESES,
        options: USUAL,
        step: "qed",
        answer: Answer::Fits("ax-mp\n"),
    },
    Row {
        shows: "two places in another order",
        database: Q,
        header: "s LOC_AFTER=?",
        steps: OVER_HYPOTHESES,
        options: USUAL,
        step: "3",
        answer: Answer::Fits("ax-mp\n"),
    },
    Row {
        shows: "two places that nothing fits",
        database: Q,
        header: "s LOC_AFTER=?",
        steps: OVER_HYPOTHESES,
        options: USUAL,
        step: "6",
        answer: Answer::Fits(""),
    },
    Row {
        shows: "one place, with two labels",
        database: Q,
        header: "s LOC_AFTER=?",
        steps: OVER_HYPOTHESES,
        options: USUAL,
        step: "4",
        answer: Answer::Fits("a1i\npair\n"),
    },
    Row {
        shows: "one place, with one label",
        database: Q,
        header: "s LOC_AFTER=?",
        steps: OVER_HYPOTHESES,
        options: USUAL,
        step: "5",
        answer: Answer::Fits("a1i\n"),
    },
    Row {
        shows: "a step that the worksheet did not have",
        database: &[PROP],
        header: "u LOC_AFTER=?",
        steps: MISSING_STEP,
        options: USUAL,
        step: "d1",
        answer: Answer::Fits("ax-1\n"),
    },
    Row {
        shows: "a step over it",
        database: &[PROP],
        header: "u LOC_AFTER=?",
        steps: MISSING_STEP,
        options: USUAL,
        step: "qed",
        answer: Answer::Fits("ax-mp\n"),
    },
    Row {
        shows: "a pair that may be added",
        database: &[PROP, SETS, ANY],
        header: "s LOC_AFTER=?",
        steps: QUANTIFIED,
        options: USUAL,
        step: "qed",
        answer: Answer::Fits("ax-5\nany\n"),
    },
    Row {
        shows: "a pair that is not given",
        database: &[PROP, SETS, ANY],
        header: "s LOC_AFTER=?",
        steps: QUANTIFIED,
        options: GIVEN,
        step: "qed",
        answer: Answer::Fits("any\n"),
    },
    Row {
        shows: "a pair that is given",
        database: &[PROP, SETS, ANY],
        header: "s LOC_AFTER=?",
        steps: "qed:: |- ( ph -> A. x ph )
$d x ph
",
        options: GIVEN,
        step: "qed",
        answer: Answer::Fits("ax-5\nany\n"),
    },
    Row {
        shows: "a clash",
        database: &[PROP, SETS, ANY],
        header: "s LOC_AFTER=?",
        steps: "qed::ax-5 |- ( A. x ph -> A. x A. x ph )
",
        options: USUAL,
        step: "qed",
        answer: Answer::Fits("any\n"),
    },
];

const NOT_TOLD: &[Row] = &[
    Row {
        shows: "a work variable in the formula",
        database: &[PROP],
        header: "id LOC_AFTER=?",
        steps: BLANK_STEPS,
        options: USUAL,
        step: "1",
        answer: Answer::Refused("sheet error 83 StepOpen step 1\n"),
    },
    Row {
        shows: "a work variable in the formula of a place",
        database: &[PROP],
        header: "id LOC_AFTER=?",
        steps: BLANK_STEPS,
        options: USUAL,
        step: "qed",
        answer: Answer::Refused("sheet error 83 StepOpen step qed\n"),
    },
    Row {
        shows: "a name that no step has",
        database: &[PROP],
        header: "id LOC_AFTER=?",
        steps: BLANK_STEPS,
        options: USUAL,
        step: "x",
        answer: Answer::Refused("sheet error 82 NoSuchStep step x\n"),
    },
    Row {
        shows: "a hypothesis",
        database: &[PROP],
        header: "r LOC_AFTER=?",
        steps: MODUS_PONENS,
        options: USUAL,
        step: "2",
        answer: Answer::Refused("sheet error 83 StepOpen step 2\n"),
    },
    Row {
        shows: "a hypothesis by its label",
        database: &[PROP],
        header: "r LOC_AFTER=?",
        steps: MODUS_PONENS,
        options: USUAL,
        step: "r.2",
        answer: Answer::Refused("sheet error 82 NoSuchStep step r.2\n"),
    },
    Row {
        shows: "a hypothesis by the word before it",
        database: &[PROP],
        header: "r LOC_AFTER=?",
        steps: MODUS_PONENS,
        options: USUAL,
        step: "h2",
        answer: Answer::Refused("sheet error 82 NoSuchStep step h2\n"),
    },
    Row {
        shows: "an open place",
        database: &[PROP],
        header: "o LOC_AFTER=?",
        steps: OPEN_PLACE,
        options: USUAL,
        step: "qed",
        answer: Answer::Refused("sheet error 83 StepOpen step qed\n"),
    },
    Row {
        shows: "a step that the worksheet did not have, with a work variable",
        database: &[PROP],
        header: "o LOC_AFTER=?",
        steps: OPEN_PLACE,
        options: USUAL,
        step: "d1",
        answer: Answer::Refused("sheet error 83 StepOpen step d1\n"),
    },
    Row {
        shows: "a step behind all that it would have",
        database: &[PROP],
        header: "o LOC_AFTER=?",
        steps: OPEN_PLACE,
        options: USUAL,
        step: "d2",
        answer: Answer::Refused("sheet error 82 NoSuchStep step d2\n"),
    },
    Row {
        shows: "a line that is no step, before a name that no step has",
        database: &[PROP],
        header: "r LOC_AFTER=?",
        steps: "h1::r.1 |- ph
qed |- ph
",
        options: USUAL,
        step: "x",
        answer: Answer::Refused("sheet error 44 BadStep at line 3\n"),
    },
    Row {
        shows: "a place that the database does not have, before a hypothesis",
        database: &[PROP],
        header: "r LOC_AFTER=none",
        steps: MODUS_PONENS,
        options: USUAL,
        step: "1",
        answer: Answer::Refused("sheet error 60 LocUnknown at line 1\n"),
    },
    Row {
        shows: "a formula that can be read in two ways",
        database: Q_TWICE,
        header: "w LOC_AFTER=?",
        steps: "qed:: |- x = y
",
        options: USUAL,
        step: "qed",
        answer: Answer::Refused("sheet error 68 TwoTrees at line 2\n"),
    },
    Row {
        shows: "a written formula that can be read in two ways, before a name that no step has",
        database: Q_TWICE,
        header: "v LOC_AFTER=?",
        steps: "qed::sel |- { x | ph } = y
",
        options: USUAL,
        step: "x",
        answer: Answer::Refused("sheet error 78 WrittenTwoTrees step d1\n"),
    },
];

// The database and the worksheet, and that each is read once.
fn over<'a>(database: &'a [u8], given: &'a [u8]) -> Outside<'a> {
    Outside {
        store_fails: &[3],
        ..honest(database, given)
    }
}

// Asks about the step of a row.
fn select(alloc: Global, row: Row) -> Result<Ended, Memory> {
    let database = joined(alloc, row.database)?;
    let given = sheet(alloc, row.header, &[row.steps])?;
    let words = command(alloc, "select", row.options, &["P.mm", "r.mmp", row.step])?;
    call_over(
        alloc,
        words.as_slice(),
        over(database.as_slice(), given.as_slice()),
    )
}

fn want_of(answer: Answer) -> Want<'static> {
    match answer {
        Answer::Fits(labels) => Want {
            status: Status::Finished,
            out: labels.as_bytes(),
            log: "",
        },
        Answer::Refused(line) => refused(Status::Sheet, line),
    }
}

fn check_rows(rt: &impl Abort, alloc: Global, rows: &[Row]) -> Result<(), Fail> {
    for row in rows {
        let ended = select(alloc, *row)?;
        compare_row(rt, row.shows, &ended, want_of(row.answer));
    }
    Ok(())
}

#[test]
fn fitting_labels_are_listed(rt: HostRuntime) -> Result<(), Fail> {
    check_rows(&rt, rt.alloc(), FITTING)
}

#[test]
fn some_steps_are_not_told_of(rt: HostRuntime) -> Result<(), Fail> {
    check_rows(&rt, rt.alloc(), NOT_TOLD)
}

#[test]
fn no_files_to_select_from(rt: HostRuntime) -> Result<(), Fail> {
    for (words, line) in [
        (["select", "Q.mm", "r.mmp", "qed"], "read fault Q.mm\n"),
        (["select", "P.mm", "s.mmp", "qed"], "read fault s.mmp\n"),
    ] {
        let outside = honest(PROP.as_bytes(), b"");
        let ended = call_over(rt.alloc(), words.as_slice(), outside)?;
        compare_row(
            &rt,
            "a file that is not there",
            &ended,
            refused(Status::Read, line),
        );
    }
    Ok(())
}
