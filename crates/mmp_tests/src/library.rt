//! The unifier's own call, below the program.

ghost use Rattle.sheet_unify.specs.Made.{HasText};

use crate::calls::joined;
use crate::databases::{PROP, Q};
use mm_base::{Kinds, List, MOST_DATABASE_BYTES, Memory};
use mm_database::{Database, open_database};
use sheet_unify::{
    DvMode, Options, Outcome, ProofStyle, UnifyFault, fault_line, report_lines, unify_sheet,
};
use std::alloc::Global;
use std::process::Abort;
use std::test::Fail;

fn options(alloc: Global) -> Result<Options, Memory> {
    let provable = List::copy_of(alloc, b"|-")?;
    let logic = List::copy_of(alloc, b"wff")?;
    Ok(Options {
        style: ProofStyle::Compressed,
        kinds: Kinds { provable, logic },
        dv: DvMode::Add,
    })
}

// The text of an outcome, and behind it the lines of its report.
fn told(alloc: Global, database: &Database, outcome: &Outcome) -> Result<Vec<u8>, Memory> {
    let lines = report_lines(alloc, database, &outcome.report, outcome.finished)?;
    let mut text = Vec::from_slice(alloc, outcome.text.as_slice())?;
    for line in lines.as_slice() {
        text.extend_from_slice(line.as_slice())?;
        text.push(b'\n')?;
    }
    Ok(text)
}

fn line_of(alloc: Global, fault: &UnifyFault) -> Result<Vec<u8>, Memory> {
    match fault {
        UnifyFault::Memory => Err(Memory),
        _ => Ok(fault_line(alloc, fault)?.into_vec()),
    }
}

// What comes of a worksheet: the text and the report, or the line of its fault.
fn answer_to(
    alloc: Global,
    database: &Database,
    text: &[u8],
    options: &Options,
) -> Result<Vec<u8>, Memory>
    requires { HasText options.now.kinds database.now }
{
    match unify_sheet(alloc, database, text, options) {
        Ok(outcome) => told(alloc, database, &outcome),
        Err(fault) => line_of(alloc, &fault),
    }
}

fn answer_with(
    alloc: Global,
    database: &[u8],
    text: &[u8],
    options: &Options,
) -> Result<Vec<u8>, Memory> {
    if database.len() as u64 > MOST_DATABASE_BYTES {
        return Err(Memory);
    }
    match open_database(alloc, database, &options.kinds) {
        Ok(database) => answer_to(alloc, &database, text, options),
        Err(_) => Err(Memory),
    }
}

fn check(
    rt: &impl Abort,
    alloc: Global,
    database: &[u8],
    text: &[u8],
    want: &[u8],
) -> Result<(), Fail> {
    let options = options(alloc)?;
    let answer = answer_with(alloc, database, text, &options)?;
    assert_eq!(rt; answer.as_slice(), want);
    Ok(())
}

const SHEET: &[u8] = b"$( <MM> <PROOF_ASST> THEOREM=r LOC_AFTER=?
h1::r.1 |- ph
h2::r.2 |- ( ph -> ps )
qed:1:ax-mp |- ps
$)
";

const EXPECTED: &[u8] = b"$( <MM> <PROOF_ASST> THEOREM=r LOC_AFTER=?
h1::r.1 |- ph
h2::r.2 |- ( ph -> ps )
qed:1,2:ax-mp |- ps
$= ( ax-mp ) ABCDE $.
$)
1 hyp
2 hyp
qed fits ax-mp
finished
";

const DOUBLINGS: &[u8] = b"$( <MM> <PROOF_ASST> THEOREM=dbl LOC_AFTER=?
h1::dbl.1 |- ph
2:1:pair
3:2:pair
4:3:pair
5:4:pair
6:5:pair
7:6:pair
8:7:pair
9:8:pair
10:9:pair
11:10:pair
12:11:pair
qed:: |- ph
$)
";

const TOO_LONG: &[u8] = b"sheet error 75 FormulaTooLong step 12 tokens 8190";

#[test]
fn a_worksheet_is_written(rt: HostRuntime) -> Result<(), Fail> {
    check(&rt, rt.alloc(), PROP.as_bytes(), SHEET, EXPECTED)
}

#[test]
fn a_formula_is_too_long(rt: HostRuntime) -> Result<(), Fail> {
    let database = joined(rt.alloc(), Q)?;
    check(&rt, rt.alloc(), database.as_slice(), DOUBLINGS, TOO_LONG)
}
