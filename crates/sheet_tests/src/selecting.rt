use crate::opened::{Show, holds};
use mm_base::{Kinds, MOST_SHEET_BYTES, Memory, Tree};
use mm_database::Database;
use ref_select::{Selection, WrittenSheet, labels_text, select_step};
use sheet_bind::{Bound, BoundStep, bind_sheet};
use sheet_read::{Sheet, read_sheet};
use std::alloc::Global;
use written_model::DvMode;

// Modus ponens and the same with its hypotheses turned, an axiom and the same behind all others, and one with a `$d`.
const T: &[u8] = b"
$c ( ) -> A. wff |- setvar $. $v ph ps x $. wph $f wff ph $. wps $f wff ps $. vx $f setvar x $.
wi $a wff ( ph -> ps ) $. wal $a wff A. x ph $.
${ turned.1 $e |- ( ph -> ps ) $. turned.2 $e |- ph $. turned $a |- ps $. $}
${ min $e |- ph $. maj $e |- ( ph -> ps ) $. ax-mp $a |- ps $. $}
ax-1 $a |- ( ph -> ( ps -> ph ) ) $.
${ $d x ph $. ax-5 $a |- ( ph -> A. x ph ) $. $}
${ a1i.1 $e |- ph $. a1i $a |- ( ps -> ph ) $. $}
ax-1c $a |- ( ph -> ( ps -> ph ) ) $.
";

const SHEET: &[u8] = b"$( <MM> <PROOF_ASST> THEOREM=new LOC_AFTER=?
h1::new.1 |- ph
h2::new.2 |- ( ph -> ps )
3:2,1: |- ps
4:1: |- ( ps -> ph )
5:?,2: |- ps
6:: |- ( ph -> ( &W1 -> ph ) )
7:6: |- ( ps -> ( ps -> ps ) )
8:1:ax-mp |- A. x ph
9::ax-5 |- ( ph -> A. x ph )
qed::ax-1c |- ( ph -> ( ps -> ph ) )
$)
";

/// The name of a step, which pairs the worksheet may have, and the labels that fit it or why none are told.
type Asked = (&'static [u8], DvMode, &'static [u8]);

const ROWS: &[Asked] = &[
    (b"3", DvMode::Add, b"turned\nax-mp\n"),
    (b"4", DvMode::Add, b"a1i\n"),
    (b"8", DvMode::Add, b""),
    (b"9", DvMode::Add, b"ax-5\n"),
    (b"9", DvMode::Given, b""),
    (b"qed", DvMode::Given, b"ax-1\nax-1c\n"),
    (b"1", DvMode::Add, b"open"),
    (b"5", DvMode::Add, b"open"),
    (b"6", DvMode::Add, b"open"),
    (b"7", DvMode::Add, b"open"),
    (b"h1", DvMode::Add, b"no such step"),
];

fn trees_of(alloc: Global, steps: &[BoundStep]) -> Result<Vec<Tree>, Memory> {
    let mut trees = Vec::new(alloc);
    for step in steps {
        if let Some(tree) = &step.tree {
            trees.push(tree.copy()?)?;
        }
    }
    Ok(trees)
}

fn is_told(alloc: Global, db: &Database, selection: &Selection, want: &[u8]) -> bool {
    match selection {
        Selection::NoSuchStep => want == b"no such step".as_slice(),
        Selection::StepOpen => want == b"open".as_slice(),
        Selection::Fits(labels) => match labels_text(alloc, db, labels.as_slice()) {
            Ok(text) => text.as_slice() == want,
            Err(_) => false,
        },
    }
}

fn is_selected(alloc: Global, db: &Database, written: &WrittenSheet, row: &Asked) -> bool {
    match select_step(alloc, db, written, row.0) {
        Ok(selection) => is_told(alloc, db, &selection, row.2),
        Err(_) => false,
    }
}

fn rows_hold(alloc: Global, db: &Database, sheet: &Sheet, bound: &Bound, trees: &[Tree]) -> bool {
    for row in ROWS {
        let written = WrittenSheet {
            place: bound.place,
            mode: row.1,
            given: &bound.pairs,
            items: sheet.items.as_slice(),
            trees,
        };
        if !is_selected(alloc, db, &written, row) {
            return false;
        }
    }
    true
}

fn holds_of(alloc: Global, db: &Database, sheet: &Sheet, bound: &Bound) -> bool {
    match trees_of(alloc, bound.steps.as_slice()) {
        Ok(trees) => rows_hold(alloc, db, sheet, bound, trees.as_slice()),
        Err(_) => false,
    }
}

fn holds_bound(alloc: Global, db: &Database, kinds: &Kinds, sheet: &Sheet) -> bool {
    match bind_sheet(alloc, db, kinds, sheet) {
        Ok(bound) => holds_of(alloc, db, sheet, &bound),
        Err(_) => false,
    }
}

/// Whether of each step that is asked about the right labels are told.
pub(crate) fn selections_hold(alloc: Global, db: &Database, kinds: &Kinds) -> bool {
    if SHEET.len() as u64 > MOST_SHEET_BYTES {
        return false;
    }
    match read_sheet(alloc, SHEET) {
        Ok(sheet) => holds_bound(alloc, db, kinds, &sheet),
        Err(_) => false,
    }
}

#[test]
fn fitting_labels_are_selected(rt: HostRuntime) {
    assert!(rt; holds(rt.alloc(), T, Show::Selections));
}
