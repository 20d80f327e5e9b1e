use crate::opened::{Show, holds};
use mm_base::{Kinds, MOST_SHEET_BYTES, Memory};
use mm_database::Database;
use sheet_bind::{BindCode, BindFault, Bound, bind_sheet};
use sheet_read::{Sheet, read_sheet};
use std::alloc::Global;
use std::test::Fail;

/// The header's words, the lines behind it, and the first fault with its line.
pub(crate) type Row = (&'static [u8], &'static [u8], Option<(BindCode, u32)>);

// Sets and classes, a second way to write an equation of sets, a theorem, and a typecode that stands in a block alone.
const D: &[u8] = b"
$c ( ) -> -. wff |- $. $v ph ps ch $. wph $f wff ph $. wps $f wff ps $. wch $f wff ch $.
wn $a wff -. ph $. wi $a wff ( ph -> ps ) $.
${ min $e |- ph $. maj $e |- ( ph -> ps ) $. ax-mp $a |- ps $. $}
ax-1 $a |- ( ph -> ( ps -> ph ) ) $.
${ mpi.1 $e |- ph $. mpi.2 $e |- ( ph -> ps ) $. mpi $p |- ps $= wph wps mpi.1 mpi.2 ax-mp $. $}
$c setvar class { } | = A. $. $v x y A B $.
vx $f setvar x $. vy $f setvar y $. cA $f class A $. cB $f class B $.
cv $a class x $. wceq $a wff A = B $. weqx $a wff x = y $.
$c thing $. ${ $v t $. vt $f thing t $. $}
";

const REFUSED: &[Row] = &[
    (
        b"r LOC_AFTER=none",
        b"qed:: |- ps\n",
        Some((BindCode::LocUnknown, 1)),
    ),
    (
        b"r LOC_AFTER=ph",
        b"qed:: |- chi\n",
        Some((BindCode::LocUnknown, 1)),
    ),
    (
        b"ax-1 LOC_AFTER=?",
        b"qed:: |- ps\n",
        Some((BindCode::TheoremTaken, 1)),
    ),
    (
        b"wph LOC_AFTER=?",
        b"qed:: |- ps\n",
        Some((BindCode::TheoremTaken, 1)),
    ),
    (
        b"r! LOC_AFTER=?",
        b"qed:: |- ps\n",
        Some((BindCode::TheoremName, 1)),
    ),
    (
        b"r/s LOC_AFTER=?",
        b"qed:: |- ps\n",
        Some((BindCode::TheoremName, 1)),
    ),
    (
        b"mpi LOC_AFTER=none",
        b"h1::x |- ph\nh2::mpi.2 |- ( ph -> ps )\nqed:: |- ps\n",
        Some((BindCode::HypsDiffer, 2)),
    ),
    (
        b"mpi LOC_AFTER=?",
        b"h1::mpi.1 |- ph\nh2::mpi.2 |- ( ph -> ph )\nqed:: |- ps\n",
        Some((BindCode::HypsDiffer, 3)),
    ),
    (
        b"mpi LOC_AFTER=?",
        b"h1::mpi.1 |- ph\nh2::mpi.2 |- ( ph -> ps )\nh3::z |- ph\nqed:: |- ps\n",
        Some((BindCode::HypsDiffer, 4)),
    ),
    (
        b"mpi LOC_AFTER=?",
        b"h1::mpi.1 |- ph\nh2::mpi.2 |- ( ph -> ps )\nqed:: |- ph\n",
        Some((BindCode::HypsDiffer, 4)),
    ),
    (
        b"mpi LOC_AFTER=?",
        b"h1::mpi.1 |- ph\nqed:: |- ps\n",
        Some((BindCode::HypsDiffer, 3)),
    ),
    (
        b"r LOC_AFTER=?",
        b"h1::ax-1 |- ph\nqed:: |- ps\n",
        Some((BindCode::HypLabelTaken, 2)),
    ),
    (
        b"r LOC_AFTER=?",
        b"h1::r |- ph\nqed:: |- ps\n",
        Some((BindCode::HypLabelTaken, 2)),
    ),
    (
        b"r LOC_AFTER=?",
        b"h1::r.1 |- ph\nh2:1:r.2 |- ph\nqed:: |- ps\n",
        Some((BindCode::HypWithHyps, 3)),
    ),
    (
        b"r LOC_AFTER=?",
        b"h1:?:r.1 |- ph\nqed:: |- ps\n",
        Some((BindCode::HypWithHyps, 2)),
    ),
    (
        b"r LOC_AFTER=?",
        b"1:: wff ph\nqed:: |- ps\n",
        Some((BindCode::NotProvable, 2)),
    ),
    (
        b"r LOC_AFTER=?",
        b"1:: |- ph\nqed:: ( ph )\n",
        Some((BindCode::NotProvable, 3)),
    ),
    (
        b"r LOC_AFTER=?",
        b"1:: |- chi\nqed:: |- ps\n",
        Some((BindCode::UnknownSymbol, 2)),
    ),
    (
        b"r LOC_AFTER=?",
        b"1:: |- &W1\n2:: |- &W01\nqed:: |- ps\n",
        Some((BindCode::UnknownSymbol, 3)),
    ),
    (
        b"r LOC_AFTER=?",
        b"1:: |- ( ph\nqed:: |- ps\n",
        Some((BindCode::NoTree, 2)),
    ),
    (
        b"r LOC_AFTER=?",
        b"1:: |- &S1\nqed:: |- ps\n",
        Some((BindCode::NoTree, 2)),
    ),
    (
        b"r LOC_AFTER=?",
        b"1:: |- ph\n2:: |- x = y\nqed:: |- ps\n",
        Some((BindCode::TwoTrees, 3)),
    ),
    (
        b"r LOC_AFTER=?",
        b"h1::r.1 |- -. x = y\nqed:: |- ps\n",
        Some((BindCode::TwoTrees, 2)),
    ),
    (
        b"r LOC_AFTER=?",
        b"h1::r.1\nqed:: |- ps\n",
        Some((BindCode::Blank, 2)),
    ),
    (
        b"r LOC_AFTER=?",
        b"1::ax-1\nqed::\n",
        Some((BindCode::Blank, 3)),
    ),
    (
        b"r LOC_AFTER=?",
        b"qed:: |- ps\n$d ph ps\n$d ph ->\n",
        Some((BindCode::NotVariable, 4)),
    ),
    (
        b"r LOC_AFTER=ax-1",
        b"qed:: |- ps\n$d ph x\n",
        Some((BindCode::NotVariable, 3)),
    ),
    (
        b"r LOC_AFTER=?",
        b"h1::r.1 |- ph\nh2::r.1 |- ps\nqed:: |- ps\n",
        Some((BindCode::HypLabelTwice, 3)),
    ),
    (
        b"r LOC_AFTER=?",
        b"h1::r.1 |- ph\nh2::r.2 |- ph\nh3::r.1 |- ph\nqed:: |- ps\n",
        Some((BindCode::HypLabelTwice, 4)),
    ),
];

// Several faults: on one line the least code, else the first line.
const SEVERAL: &[Row] = &[
    (
        b"r! LOC_AFTER=none",
        b"qed:: |- ps\n",
        Some((BindCode::LocUnknown, 1)),
    ),
    (
        b"r LOC_AFTER=?",
        b"h1:?:ax-1 wff chi\nqed:: |- ps\n",
        Some((BindCode::HypLabelTaken, 2)),
    ),
    (
        b"r LOC_AFTER=?",
        b"h1::r.1 |- ph\nh2::r.1 |- ( ps\nqed:: |- ps\n",
        Some((BindCode::NoTree, 3)),
    ),
    (
        b"r LOC_AFTER=?",
        b"1:: ph chi\nqed::\n",
        Some((BindCode::NotProvable, 2)),
    ),
    (
        b"r LOC_AFTER=?",
        b"$d ph ->\n1:: |- ( ps\nqed:: |- ps\n",
        Some((BindCode::NotVariable, 2)),
    ),
    (
        b"r LOC_AFTER=?",
        b"1:: |- x = y\n2:: |- ( ps\nqed::\n",
        Some((BindCode::TwoTrees, 2)),
    ),
    (
        b"r! LOC_AFTER=?",
        b"h1::r |- chi\nqed:: |- ps\n",
        Some((BindCode::TheoremName, 1)),
    ),
];

// Places: behind the block of a label, and what is declared there. A theorem of the database stands at its own place.
const PLACES: &[Row] = &[
    (b"r LOC_AFTER=min", b"h1::r.1 |- ph\nqed:: |- ps\n", None),
    (b"r LOC_AFTER=ax-mp", b"h1::r.1 |- ph\nqed:: |- ps\n", None),
    (
        b"mpi LOC_AFTER=none",
        b"h1::mpi.1 |- ph\nh2::mpi.2 |- ( ph -> ps )\nqed:: |- ps\n",
        None,
    ),
    (
        b"r LOC_AFTER=ax-1",
        b"1:: |- A = A\nqed:: |- ps\n",
        Some((BindCode::UnknownSymbol, 2)),
    ),
    (b"r LOC_AFTER=weqx", b"1:: |- A = A\nqed:: |- ps\n", None),
    (
        b"r LOC_AFTER=ax-1",
        b"1:: |- &S1\nqed:: |- ps\n",
        Some((BindCode::UnknownSymbol, 2)),
    ),
    (
        b"r LOC_AFTER=?",
        b"1:: |- &thing.1\nqed:: |- ps\n",
        Some((BindCode::NoTree, 2)),
    ),
    (
        b"r LOC_AFTER=weqx",
        b"1:: |- &thing.1\nqed:: |- ps\n",
        Some((BindCode::UnknownSymbol, 2)),
    ),
    (
        b"r LOC_AFTER=?",
        b"1:: |- t\nqed:: |- ps\n",
        Some((BindCode::UnknownSymbol, 2)),
    ),
    (
        b"r LOC_AFTER=?",
        b"qed:: |- ps\n$d ph t\n",
        Some((BindCode::NotVariable, 3)),
    ),
];

// A `$e` that is active at the end, and a variable without a `$f`.
const OPEN: &[u8] = b"
$c ( ) -> -. wff |- $. $v ph ps z $. wph $f wff ph $. wps $f wff ps $.
wi $a wff ( ph -> ps ) $. out $e |- ph $.
";

const OPEN_ROWS: &[Row] = &[
    (
        b"r LOC_AFTER=?",
        b"qed:: |- ps\n",
        Some((BindCode::HypsDiffer, 2)),
    ),
    (
        b"r LOC_AFTER=?",
        b"h1::out |- ps\nqed:: |- ps\n",
        Some((BindCode::HypsDiffer, 2)),
    ),
    (
        b"r LOC_AFTER=?",
        b"h1::out |- ph\nh2::r.2 |- ps\nqed:: |- ps\n",
        None,
    ),
    (
        b"r LOC_AFTER=?",
        b"h1::out |- ph\nqed:: |- ps\n$d ph z\n",
        None,
    ),
    (
        b"r LOC_AFTER=?",
        b"h1::out |- ph\n2:: |- z\nqed:: |- ps\n",
        Some((BindCode::UnknownSymbol, 3)),
    ),
];

// No typecode `wff`.
const BARE: &[u8] = b"$c |- form $. $v p $. fp $f form p $. ax $a |- p $.";

const BARE_ROWS: &[Row] = &[
    (
        b"r LOC_AFTER=?",
        b"1:: |- p\nqed:: |- p\n",
        Some((BindCode::NoTree, 2)),
    ),
    (
        b"r LOC_AFTER=?",
        b"1:: |- &W1\nqed:: |- p\n",
        Some((BindCode::UnknownSymbol, 2)),
    ),
    (
        b"r LOC_AFTER=?",
        b"1:: |- &form.1\nqed:: |- p\n",
        Some((BindCode::NoTree, 2)),
    ),
];

fn text_of(alloc: Global, words: &[u8], lines: &[u8]) -> Result<Vec<u8>, Memory> {
    let mut text = Vec::from_slice(alloc, b"$( <MM> <PROOF_ASST> THEOREM=".as_slice())?;
    text.extend_from_slice(words)?;
    text.push(b'\n')?;
    text.extend_from_slice(lines)?;
    text.extend_from_slice(b"$)\n".as_slice())?;
    Ok(text)
}

fn sheet_in(alloc: Global, text: &[u8]) -> Option<Sheet> {
    if text.len() as u64 > MOST_SHEET_BYTES {
        return None;
    }
    read_sheet(alloc, text).ok()
}

fn sheet_of(alloc: Global, words: &[u8], lines: &[u8]) -> Option<Sheet> {
    match text_of(alloc, words, lines) {
        Ok(text) => sheet_in(alloc, text.as_slice()),
        Err(_) => None,
    }
}

fn fault_of(answer: Result<Bound, BindFault>) -> Option<BindFault> {
    match answer {
        Ok(_) => None,
        Err(fault) => Some(fault),
    }
}

fn fault_in(
    alloc: Global,
    db: &Database,
    kinds: &Kinds,
    words: &[u8],
    lines: &[u8],
) -> Option<BindFault> {
    match sheet_of(alloc, words, lines) {
        Some(sheet) => fault_of(bind_sheet(alloc, db, kinds, &sheet)),
        None => Some(BindFault::Memory),
    }
}

fn is_told(fault: Option<BindFault>, want: Option<(BindCode, u32)>) -> bool {
    match fault {
        None => want.is_none(),
        Some(BindFault::At(code, line)) => want == Some((code, line)),
        Some(_) => false,
    }
}

/// Whether each row has its first fault.
pub(crate) fn rows_hold(alloc: Global, db: &Database, kinds: &Kinds, rows: &[Row]) -> bool {
    for (words, lines, want) in rows {
        if !is_told(fault_in(alloc, db, kinds, words, lines), *want) {
            return false;
        }
    }
    true
}

#[test]
fn each_code_stands_at_its_line(rt: HostRuntime) {
    assert!(rt; holds(rt.alloc(), D, Show::Rows(REFUSED)));
    assert!(rt; holds(rt.alloc(), D, Show::Rows(SEVERAL)));
}

#[test]
fn places_and_what_is_known_there(rt: HostRuntime) {
    assert!(rt; holds(rt.alloc(), D, Show::Rows(PLACES)));
    assert!(rt; holds(rt.alloc(), OPEN, Show::Rows(OPEN_ROWS)));
    assert!(rt; holds(rt.alloc(), BARE, Show::Rows(BARE_ROWS)));
}

// A formula of the provable typecode and so many times `ph`, as the last of these lines.
const LONG: &[(&[u8], u32, BindCode, u32)] = &[
    (b"1:: |-", 4096, BindCode::FormulaLong, 2),
    (b"1:: |- ph\nh2::r.2 |-", 5000, BindCode::FormulaLong, 3),
    (b"1:: |-", 4095, BindCode::NoTree, 2),
];

fn long_lines(alloc: Global, front: &[u8], count: u32) -> Result<Vec<u8>, Memory> {
    let mut lines = Vec::from_slice(alloc, front)?;
    for _ in 0..count {
        lines.extend_from_slice(b" ph".as_slice())?;
    }
    lines.extend_from_slice(b"\nqed:: |- ps\n".as_slice())?;
    Ok(lines)
}

fn long_fault(
    alloc: Global,
    db: &Database,
    kinds: &Kinds,
    front: &[u8],
    count: u32,
) -> Option<BindFault> {
    match long_lines(alloc, front, count) {
        Ok(lines) => fault_in(alloc, db, kinds, b"r LOC_AFTER=?", lines.as_slice()),
        Err(_) => Some(BindFault::Memory),
    }
}

/// Whether a formula of more than 4,096 tokens is refused, and one of so many is not.
pub(crate) fn long_formulas_are_refused(alloc: Global, db: &Database, kinds: &Kinds) -> bool {
    for (front, count, code, line) in LONG {
        if !is_told(
            long_fault(alloc, db, kinds, front, *count),
            Some((*code, *line)),
        ) {
            return false;
        }
    }
    true
}

#[test]
fn a_formula_has_a_limit(rt: HostRuntime) {
    assert!(rt; holds(rt.alloc(), D, Show::LongFormulas));
}

// The theorem's mandatory hypotheses.
fn has_mandatory(bound: &Bound) -> bool {
    match bound.theorem.mandatory.as_slice() {
        [a, b, c, d] => a.as_slice() == b"wph".as_slice()
            && b.as_slice() == b"wps".as_slice()
            && c.as_slice() == b"r.1".as_slice()
            && d.as_slice() == b"r.2".as_slice(),
        _ => false,
    }
}

fn have_trees(bound: &Bound) -> bool {
    for step in bound.steps.as_slice() {
        if step.tree.is_none() {
            return false;
        }
    }
    bound.steps.as_slice().len() == 3
}

fn is_new(bound: &Bound) -> bool {
    !bound.existing && bound.place == 32 && bound.pairs.as_slice().is_empty()
}

fn is_whole(bound: &Bound) -> bool {
    is_new(bound)
        && have_trees(bound)
        && has_mandatory(bound)
        && bound.theorem.hyps.as_slice().len() == 9
        && bound.theorem.formula.as_slice().len() == 2
}

fn is_bound(answer: Result<Bound, BindFault>) -> bool {
    match answer {
        Ok(bound) => is_whole(&bound),
        Err(_) => false,
    }
}

/// Whether two hypotheses and a step that rests on them are bound to what they say.
pub(crate) fn one_is_bound(alloc: Global, db: &Database, kinds: &Kinds) -> bool {
    let lines = b"h1::r.1 |- ph\nh2::r.2 |- ( ph -> ps )\nqed:1,2:ax-mp |- ps\n";
    match sheet_of(alloc, b"r LOC_AFTER=?", lines) {
        Some(sheet) => is_bound(bind_sheet(alloc, db, kinds, &sheet)),
        None => false,
    }
}

#[test]
fn a_worksheet_is_bound(rt: HostRuntime) {
    assert!(rt; holds(rt.alloc(), D, Show::Bound));
}

// An implication of the formula before from itself, so many times.
fn doubled(alloc: Global, times: u32) -> Result<Vec<u8>, Memory> {
    let mut formula = Vec::from_slice(alloc, b"ph".as_slice())?;
    for _ in 0..times {
        formula = twice(alloc, formula.as_slice())?;
    }
    Ok(formula)
}

fn twice(alloc: Global, formula: &[u8]) -> Result<Vec<u8>, Memory> {
    let mut next = Vec::from_slice(alloc, b"( ".as_slice())?;
    next.extend_from_slice(formula)?;
    next.extend_from_slice(b" -> ".as_slice())?;
    next.extend_from_slice(formula)?;
    next.extend_from_slice(b" )".as_slice())?;
    Ok(next)
}

// A database with an assertion of 2,047 nodes.
fn long_database(alloc: Global) -> Result<Vec<u8>, Memory> {
    let mut text = Vec::from_slice(
        alloc,
        b"$c ( ) -> wff |- $. $v ph ps $. wph $f wff ph $. wps $f wff ps $. wi $a wff ( ph -> ps ) $. long $a |- ".as_slice(),
    )?;
    let formula = doubled(alloc, 10)?;
    text.extend_from_slice(formula.as_slice())?;
    text.extend_from_slice(b" $.".as_slice())?;
    Ok(text)
}

// So many blank steps that name it, and the last step.
fn heavy_lines(alloc: Global, count: u32) -> Result<Vec<u8>, Memory> {
    let mut lines = Vec::new(alloc);
    for n in 0..count {
        let line = format!(in alloc; "{n}::long\n")?;
        lines.extend_from_slice(line.as_bytes())?;
    }
    lines.extend_from_slice(b"qed:: |- ph\n".as_slice())?;
    Ok(lines)
}

fn heavy_fault(alloc: Global, db: &Database, kinds: &Kinds, count: u32) -> Option<BindFault> {
    match heavy_lines(alloc, count) {
        Ok(lines) => fault_in(alloc, db, kinds, b"r LOC_AFTER=?", lines.as_slice()),
        Err(_) => Some(BindFault::Memory),
    }
}

/// Whether 2^24 nodes are not too many, and more are told with their number: each blank step counts one, and its assertion
/// 2,047; the last step counts one.
pub(crate) fn heavy_sheets_are_refused(alloc: Global, db: &Database, kinds: &Kinds) -> bool {
    heavy_fault(alloc, db, kinds, 8_191).is_none()
        && heavy_fault(alloc, db, kinds, 8_192) == Some(BindFault::TooMuch(16_777_217))
        && heavy_fault(alloc, db, kinds, 9_000) == Some(BindFault::TooMuch(18_432_001))
}

#[test]
fn the_work_size_has_a_limit(rt: HostRuntime) -> Result<(), Fail> {
    let alloc = rt.alloc();
    let text = long_database(alloc)?;
    assert!(rt; holds(alloc, text.as_slice(), Show::WorkSize));
    Ok(())
}
