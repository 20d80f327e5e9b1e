use crate::formulas::{Answer, Row, WFF, grammar, has_text, is_spelled, parsed, spell};
use formula_parse::Leaf;
use mm_base::{Memory, Sym, Tree};
use std::alloc::Global;
use std::test::Fail;
use syntax_grammar::{Grammar, Item};

// Two formulas beside one another are a formula.
const PAIRS: &[Row] = &[Row {
    number: 1,
    gives: WFF,
    items: &[Item::Slot(0), Item::Slot(1)],
    slots: &[WFF, WFF],
}];

// They are one in two ways.
const TWO_PAIRS: &[Row] = &[
    Row {
        number: 1,
        gives: WFF,
        items: &[Item::Slot(0), Item::Slot(1)],
        slots: &[WFF, WFF],
    },
    Row {
        number: 2,
        gives: WFF,
        items: &[Item::Slot(1), Item::Slot(0)],
        slots: &[WFF, WFF],
    },
];

// Three formulas beside one another are a formula.
const TRIPLES: &[Row] = &[Row {
    number: 1,
    gives: WFF,
    items: &[Item::Slot(0), Item::Slot(1), Item::Slot(2)],
    slots: &[WFF, WFF, WFF],
}];

const PLUS: Leaf = Leaf::Const(Sym(5));

// Sums without brackets.
const SUMS: &[Row] = &[Row {
    number: 1,
    gives: WFF,
    items: &[Item::Slot(0), Item::Const(Sym(5)), Item::Slot(1)],
    slots: &[WFF, WFF],
}];

// How many trees there are.
#[derive(Clone, Copy, PartialEq, Eq)]
enum Trees {
    None,
    One,
    // Two were answered, which differ.
    Two,
    // What was answered has another text, or memory ran out.
    Wrong,
}

// A grammar, what stands between the variables of a text, how many variables there are, and the trees.
const TEXTS: &[(&[Row], &[Leaf], usize, Trees)] = &[
    (PAIRS, &[], 1, Trees::One),
    (PAIRS, &[], 2, Trees::One),
    (PAIRS, &[], 3, Trees::Two),
    (PAIRS, &[], 40, Trees::Two),
    (PAIRS, &[PLUS], 2, Trees::None),
    (TWO_PAIRS, &[], 1, Trees::One),
    (TWO_PAIRS, &[], 2, Trees::Two),
    (TWO_PAIRS, &[], 30, Trees::Two),
    (TRIPLES, &[], 2, Trees::None),
    (TRIPLES, &[], 3, Trees::One),
    (TRIPLES, &[], 5, Trees::Two),
    (TRIPLES, &[], 40, Trees::None),
    (TRIPLES, &[], 41, Trees::Two),
    (SUMS, &[], 2, Trees::None),
    (SUMS, &[PLUS], 2, Trees::One),
    (SUMS, &[PLUS], 3, Trees::Two),
    (SUMS, &[PLUS], 40, Trees::Two),
    (SUMS, &[PLUS, PLUS], 40, Trees::None),
];

fn text_of(alloc: Global, between: &[Leaf], variables: usize) -> Result<Vec<Leaf>, Memory> {
    let mut leaves = vec![in alloc; Leaf::Var(Sym(9), WFF)]?;
    for _ in 1..variables {
        leaves.extend_from_slice(between)?;
        leaves.push(Leaf::Var(Sym(9), WFF))?;
    }
    Ok(leaves)
}

fn differ(alloc: Global, one: &Tree, other: &Tree) -> bool {
    let mut spelled = Vec::new(alloc);
    spell(one, &mut spelled).is_ok() && !is_spelled(alloc, other, spelled.as_slice())
}

fn has_two(alloc: Global, g: &Grammar, one: &Tree, other: &Tree, leaves: &[Leaf]) -> bool {
    has_text(alloc, g, one, leaves)
        && has_text(alloc, g, other, leaves)
        && differ(alloc, one, other)
}

fn trees_of(alloc: Global, g: &Grammar, leaves: &[Leaf]) -> Trees {
    match parsed(alloc, g, 3, leaves, WFF) {
        Answer::NoTree => Trees::None,
        Answer::One(tree) => if has_text(alloc, g, &tree, leaves) {
            Trees::One
        } else {
            Trees::Wrong
        },
        Answer::Two(one, other) => if has_two(alloc, g, &one, &other, leaves) {
            Trees::Two
        } else {
            Trees::Wrong
        },
        _ => Trees::Wrong,
    }
}

fn text_has(alloc: Global, g: &Grammar, between: &[Leaf], variables: usize, trees: Trees) -> bool {
    match text_of(alloc, between, variables) {
        Err(_) => false,
        Ok(leaves) => trees_of(alloc, g, &leaves) == trees,
    }
}

fn has_trees(
    alloc: Global,
    rows: &[Row],
    between: &[Leaf],
    variables: usize,
    trees: Trees,
) -> bool {
    match grammar(alloc, rows) {
        None => false,
        Some(g) => text_has(alloc, &g, between, variables, trees),
    }
}

#[test]
fn an_ambiguous_text_has_two_trees(rt: HostRuntime) -> Result<(), Fail> {
    for text in TEXTS {
        assert!(rt; has_trees(rt.alloc(), text.0, text.1, text.2, text.3));
    }
    Ok(())
}
