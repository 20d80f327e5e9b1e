use mm_base::{List, MOST_SHEET_BYTES};
use sheet_read::{Sheet, SheetCode, SheetFault, SheetItem, SheetStep, read_sheet};
use sheet_text::Given;
use std::alloc::Global;

// A text, with its first fault.
const REFUSED: &[(&[u8], SheetCode, u32)] = &[
    (b"", SheetCode::NoHeader, 1),
    (b" \t\r\n", SheetCode::NoHeader, 2),
    (
        b"\x0c\n $( <MM> <PROOF_ASST> THEOREM=x\n",
        SheetCode::NoHeader,
        2,
    ),
    (b"$(x\n", SheetCode::NoHeader, 1),
    (b"$( <MM> <PROOF_ASST>\n", SheetCode::BadHeader, 1),
    (
        b"\r\n$( <MM> <PROOF_ASST> THEOREM=\r\n",
        SheetCode::BadHeader,
        2,
    ),
    (
        b"$( <MM> <PROOF_ASST> THEOREM=x LOC_AFTER=a!\n",
        SheetCode::BadHeader,
        1,
    ),
    (
        b"$( <MM> <PROOF_ASST> THEOREM=r LOC_AFTER=?\n",
        SheetCode::NoFooter,
        2,
    ),
    (
        b"$( <MM> <PROOF_ASST> THEOREM=r LOC_AFTER=?\nh1::r.1 |- ph\n",
        SheetCode::NoFooter,
        3,
    ),
    (
        b"$( <MM> <PROOF_ASST> THEOREM=r LOC_AFTER=?\nh1::r.1 |- ph\nh2::r.2 |- ( ph -> ps )\n",
        SheetCode::NoFooter,
        4,
    ),
    (
        b"$( <MM> <PROOF_ASST> THEOREM=r LOC_AFTER=?\nh1::r.1 |- ph\nh2::r.2 |- ( ph -> ps )\nqed:1,2:ax-mp |- ps\n",
        SheetCode::NoFooter,
        5,
    ),
    (
        b"$( <MM> <PROOF_ASST> THEOREM=x LOC_AFTER=?\n1::a2 |- ( t + 0 ) = t\n2::a1 |- t = t\n3:1,2:mp |- t = t\nqed:1,3:mp |- t = t\n",
        SheetCode::NoFooter,
        6,
    ),
    (
        b"$( <MM> <PROOF_ASST> THEOREM=x LOC_AFTER=?\nqed:: |- ph\n $)",
        SheetCode::NoFooter,
        4,
    ),
    (
        b"$( <MM> <PROOF_ASST> THEOREM=x LOC_AFTER=?\nqed::\n$)\nx",
        SheetCode::TextAfterFooter,
        4,
    ),
    (
        b"$( <MM> <PROOF_ASST> THEOREM=x LOC_AFTER=?\r\nqed::\r\n$)\r\n\r\n\t x",
        SheetCode::TextAfterFooter,
        5,
    ),
    (
        b"$( <MM> <PROOF_ASST> THEOREM=x LOC_AFTER=?\n$) x\n",
        SheetCode::TextAfterFooter,
        2,
    ),
    (
        b"$( <MM> <PROOF_ASST> THEOREM=x LOC_AFTER=?\n1:a\nqed::\n$)\n",
        SheetCode::BadStep,
        2,
    ),
    (
        b"$( <MM> <PROOF_ASST> THEOREM=x LOC_AFTER=?\n\x0c\n$e\n",
        SheetCode::BadStep,
        3,
    ),
    (
        b"$( <MM> <PROOF_ASST> THEOREM=x LOC_AFTER=?\nh1::\n",
        SheetCode::BadStep,
        2,
    ),
    (
        b"$( <MM> <PROOF_ASST> THEOREM=x LOC_AFTER=?\n1::\n1::\n",
        SheetCode::NameTwice,
        3,
    ),
    (
        b"$( <MM> <PROOF_ASST> THEOREM=x LOC_AFTER=?\nh1::a\n* b\n1:1:\n",
        SheetCode::NameTwice,
        4,
    ),
    (
        b"$( <MM> <PROOF_ASST> THEOREM=x LOC_AFTER=?\n1:2:x\n2::\n",
        SheetCode::HypUnknown,
        2,
    ),
    (
        b"$( <MM> <PROOF_ASST> THEOREM=x LOC_AFTER=?\n1::\n2:1,?,3:x\n",
        SheetCode::HypUnknown,
        3,
    ),
    (
        b"$( <MM> <PROOF_ASST> THEOREM=x LOC_AFTER=?\nqed::\n1::\n$)\n",
        SheetCode::QedPlace,
        3,
    ),
    (
        b"$( <MM> <PROOF_ASST> THEOREM=x LOC_AFTER=?\nhqed::a\n$)\n",
        SheetCode::QedPlace,
        2,
    ),
    (
        b"$( <MM> <PROOF_ASST> THEOREM=x LOC_AFTER=?\n1::\n$)\nx\n",
        SheetCode::QedPlace,
        3,
    ),
    (
        b"$( <MM> <PROOF_ASST> THEOREM=r LOC_AFTER=?\nh1::r.1 |- ph\nh2::r.2 |- ( ph -> ps )\nqed:1,2:ax-mp |- ps\n$= a\n1:a\n$)\n",
        SheetCode::ProofUnended,
        5,
    ),
    (
        b"$( <MM> <PROOF_ASST> THEOREM=x LOC_AFTER=?\nqed::\n$= a $.\n$=\n$. a",
        SheetCode::ProofUnended,
        4,
    ),
    (
        b"$( <MM> <PROOF_ASST> THEOREM=x LOC_AFTER=?\n$d x $.\nqed::\n$)\n",
        SheetCode::BadDistinct,
        2,
    ),
    (
        b"$( <MM> <PROOF_ASST> THEOREM=x LOC_AFTER=?\n$d x $. y\n",
        SheetCode::BadDistinct,
        2,
    ),
    (
        b"$( <MM> <PROOF_ASST> THEOREM=x LOC_AFTER=?\r\n$d x y x\r\n",
        SheetCode::BadDistinct,
        2,
    ),
];

// A text without a fault, with the numbers of its comments and steps and of its `$d` statements.
const ACCEPTED: &[(&[u8], usize, usize)] = &[
    (SYLLOGISM, 6, 0),
    (
        b"$( <MM> <PROOF_ASST> THEOREM=r LOC_AFTER=?\nh1::r.1 |- ph\nh2::r.2 |- ( ph -> ps )\nqed:1,2:ax-mp |- ps\n$)\n",
        3,
        0,
    ),
    (b"$( <MM> <PROOF_ASST> THEOREM=x\nqed::\n$)", 1, 0),
    (
        b"$( <MM> <PROOF_ASST> THEOREM=x LOC_AFTER=\r\nqed:?,?:\r\n$)\r\n",
        1,
        0,
    ),
    (
        b"$( <MM> <PROOF_ASST> THEOREM=x LOC_AFTER=?\n* one\n\n\ttwo\n$d x\n  y $.\n1::a\nqed:?,1:? |- x\n$= $) $.\n$d x y z\n$)\n",
        3,
        2,
    ),
];

// A worksheet in the style of mmj2.
pub(crate) const SYLLOGISM: &[u8] =
    b"$( <MM> <PROOF_ASST> THEOREM=syl  LOC_AFTER=?\n\n* An inference version of the transitive laws for implication.\n\nh1::syl.1           |- ( ph -> ps )\nh2::syl.2           |- ( ps -> ch )\n3:2:a1i            |- ( ph ->\n                       ( ps -> ch ) )\n4:3:a2i           |- ( ( ph -> ps ) -> ( ph -> ch ) )\nqed:1,4:ax-mp    |- ( ph -> ch )\n\n$=  wph wps wi\n    ax-mp $.\n\n$)\n";

pub(crate) fn read_text(alloc: Global, text: &[u8]) -> Result<Sheet, SheetFault> {
    if text.len() as u64 > MOST_SHEET_BYTES {
        return Err(SheetFault::Memory);
    }
    read_sheet(alloc, text)
}

fn is_refused(alloc: Global, text: &[u8], code: SheetCode, line: u32) -> bool {
    match read_text(alloc, text) {
        Ok(_) => false,
        Err(fault) => fault == SheetFault::At(code, line),
    }
}

fn is_accepted(alloc: Global, text: &[u8], items: usize, pairs: usize) -> bool {
    match read_text(alloc, text) {
        Ok(sheet) => {
            sheet.items.as_slice().len() == items && sheet.pairs.as_slice().len() == pairs
        }
        Err(_) => false,
    }
}

#[test]
fn first_faults(rt: HostRuntime) {
    for (text, code, line) in REFUSED {
        assert!(rt; is_refused(rt.alloc(), text, *code, *line));
    }
    for (text, items, pairs) in ACCEPTED {
        assert!(rt; is_accepted(rt.alloc(), text, *items, *pairs));
    }
}

// Whether a step has this line, this name, one place, this reference and as many tokens.
fn is_step(step: &SheetStep, line: u32, name: &[u8], place: Given, tokens: usize) -> bool {
    step.line == line
        && step.name.as_slice() == name
        && step.places.as_slice() == [place].as_slice()
        && step.formula.as_slice().len() == tokens
}

// A step on two lines.
fn has_step(items: &List<SheetItem>) -> bool {
    match items.as_slice().get(3) {
        Some(SheetItem::Step(step)) => is_step(step, 7, b"3", Given::Step(1), 10),
        _ => false,
    }
}

fn is_syllogism(sheet: &Sheet) -> bool {
    sheet.theorem.as_slice() == b"syl".as_slice() && sheet.loc.is_none() && has_step(&sheet.items)
}

#[test]
fn a_formula_over_two_lines(rt: HostRuntime) {
    let found = match read_text(rt.alloc(), SYLLOGISM) {
        Err(_) => false,
        Ok(sheet) => is_syllogism(&sheet),
    };
    assert!(rt; found);
}
