use formula_parse::{Leaf, ParseFault, nodes, parse, text};
use mm_base::{Label, List, Memory, Sym, Tree, Typecode};
use std::alloc::Global;
use std::test::Fail;
use syntax_grammar::{Grammar, Item, Production, are_rows, keep_rows};

pub(crate) const WFF: Typecode = Typecode(Sym(0));

const CLASS: Typecode = Typecode(Sym(1));

const SETVAR: Typecode = Typecode(Sym(2));

// A production, whose label is its number.
pub(crate) struct Row {
    pub(crate) number: u32,
    pub(crate) gives: Typecode,
    pub(crate) items: &'static [Item],
    pub(crate) slots: &'static [Typecode],
}

// Classes and formulas: sets are classes, there are two equations, and a set and a class are written behind one another,
// the second slot first.
const TWO_EQUATIONS: &[Row] = &[
    Row {
        number: 14,
        gives: CLASS,
        items: &[Item::Slot(0)],
        slots: &[SETVAR],
    },
    Row {
        number: 15,
        gives: WFF,
        items: &[Item::Slot(0), Item::Const(Sym(3)), Item::Slot(1)],
        slots: &[CLASS, CLASS],
    },
    Row {
        number: 16,
        gives: WFF,
        items: &[Item::Slot(0), Item::Const(Sym(3)), Item::Slot(1)],
        slots: &[SETVAR, SETVAR],
    },
    Row {
        number: 17,
        gives: SETVAR,
        items: &[Item::Slot(0)],
        slots: &[CLASS],
    },
    Row {
        number: 18,
        gives: WFF,
        items: &[Item::Slot(1), Item::Const(Sym(4)), Item::Slot(0)],
        slots: &[SETVAR, CLASS],
    },
    Row {
        number: 19,
        gives: WFF,
        items: &[Item::Slot(0), Item::Const(Sym(5))],
        slots: &[WFF],
    },
];

// A sign before each formula, or behind it.
const SIGNS: &[Row] = &[
    Row {
        number: 1,
        gives: WFF,
        items: &[Item::Const(Sym(8)), Item::Slot(0)],
        slots: &[WFF],
    },
    Row {
        number: 2,
        gives: WFF,
        items: &[Item::Slot(0), Item::Const(Sym(7))],
        slots: &[WFF],
    },
];

fn production(alloc: Global, row: &Row) -> Result<Production, Memory> {
    Ok(Production {
        label: Label(row.number),
        at: row.number,
        gives: row.gives,
        items: List::from_vec(Vec::from_slice(alloc, row.items)?),
        slots: List::from_vec(Vec::from_slice(alloc, row.slots)?),
    })
}

fn productions(alloc: Global, rows: &[Row]) -> Result<List<Production>, Memory> {
    let mut made = Vec::new(alloc);
    for row in rows {
        made.push(production(alloc, row)?)?;
    }
    Ok(List::from_vec(made))
}

pub(crate) fn grammar(alloc: Global, rows: &[Row]) -> Option<Grammar> {
    let rows = productions(alloc, rows).ok()?;
    if are_rows(&rows) {
        keep_rows(rows).ok()
    } else {
        None
    }
}

// What a parser answers.
#[derive(Drop)]
pub(crate) enum Answer {
    One(Tree),
    Two(Tree, Tree),
    NoTree,
    TooLong,
    Memory,
}

pub(crate) fn parsed(
    alloc: Global,
    g: &Grammar,
    before: u32,
    leaves: &[Leaf],
    want: Typecode,
) -> Answer {
    let Ok(leaves) = Vec::from_slice(alloc, leaves) else {
        return Answer::Memory;
    };
    if leaves.len() > 4_095 {
        return Answer::TooLong;
    }
    match parse(alloc, g, before, &List::from_vec(leaves), want) {
        Ok(tree) => Answer::One(tree),
        Err(ParseFault::TwoTrees(one, other)) => Answer::Two(one, other),
        Err(ParseFault::NoTree) => Answer::NoTree,
        Err(ParseFault::Memory) => Answer::Memory,
    }
}

// The labels and the variables of a tree, from the front.
pub(crate) fn spell(tree: &Tree, out: &mut Vec<u32>) -> Result<(), Memory> {
    match tree {
        Tree::Var(sym, _) => out.push(sym.0)?,
        Tree::Work(_, number) => out.push(*number)?,
        Tree::Fresh(_, _) => {}
        Tree::Node(label, _, children) => {
            out.push(label.0)?;
            for child in children.as_slice() {
                spell(child, out)?;
            }
        }
    }
    Ok(())
}

pub(crate) fn is_spelled(alloc: Global, tree: &Tree, shape: &[u32]) -> bool {
    let mut out = Vec::new(alloc);
    spell(tree, &mut out).is_ok() && out.as_slice() == shape
}

pub(crate) fn has_text(alloc: Global, g: &Grammar, tree: &Tree, leaves: &[Leaf]) -> bool {
    match text(alloc, g, tree) {
        Err(_) => false,
        Ok(found) => found.as_slice() == leaves,
    }
}

const X: Leaf = Leaf::Var(Sym(6), SETVAR);

const Y: Leaf = Leaf::Var(Sym(7), SETVAR);

const EQUALS: Leaf = Leaf::Const(Sym(3));

const SIGN: Leaf = Leaf::Const(Sym(5));

const WORK: Leaf = Leaf::Work(WFF, 9);

// A place, an expression and its typecode, with the one tree that it has, or none.
const FORMULAS: &[(u32, &[Leaf], Typecode, &[u32])] = &[
    (20, &[X], CLASS, &[14, 6]),
    (20, &[X], SETVAR, &[6]),
    (20, &[X], WFF, &[]),
    (14, &[X], CLASS, &[]),
    (15, &[X, EQUALS, Y], WFF, &[]),
    (16, &[X, EQUALS, Y], WFF, &[15, 14, 6, 14, 7]),
    (20, &[X, Leaf::Const(Sym(4)), Y], WFF, &[18, 7, 14, 6]),
    (20, &[WORK, SIGN, SIGN], WFF, &[19, 19, 9]),
    (20, &[SIGN, WORK], WFF, &[]),
    (20, &[], WFF, &[]),
];

fn is_one(alloc: Global, g: &Grammar, tree: &Tree, leaves: &[Leaf], shape: &[u32]) -> bool {
    is_spelled(alloc, tree, shape)
        && has_text(alloc, g, tree, leaves)
        && nodes(tree) == shape.len() as u64
}

fn has_shape(
    alloc: Global,
    g: &Grammar,
    row: &(u32, &'static [Leaf], Typecode, &'static [u32]),
) -> bool {
    match parsed(alloc, g, row.0, row.1, row.2) {
        Answer::One(tree) => is_one(alloc, g, &tree, row.1, row.3),
        Answer::NoTree => row.3.is_empty(),
        _ => false,
    }
}

#[test]
fn an_expression_has_no_tree_or_one(rt: HostRuntime) -> Result<(), Fail> {
    let g = grammar(rt.alloc(), TWO_EQUATIONS).ok_or("no rows")?;
    for row in FORMULAS {
        assert!(rt; has_shape(rt.alloc(), &g, row));
    }
    Ok(())
}

// The fourth closes a cycle with the first and is left out.
fn keeps_five(g: &Grammar) -> bool {
    g.kept().as_slice().len() == 5
}

const EQUATION: &[Leaf] = &[X, EQUALS, Y];

// Whether the answer is two trees with these shapes, in one order or the other.
pub(crate) fn are_two(
    alloc: Global,
    g: &Grammar,
    answer: &Answer,
    leaves: &[Leaf],
    shapes: [&'static [u32]; 2],
) -> bool {
    let Answer::Two(one, other) = answer else {
        return false;
    };
    let [first, second] = shapes;
    let in_order = is_spelled(alloc, one, first) && is_spelled(alloc, other, second);
    let turned = is_spelled(alloc, one, second) && is_spelled(alloc, other, first);
    (in_order || turned) && has_text(alloc, g, one, leaves) && has_text(alloc, g, other, leaves)
}

#[test]
fn an_equation_of_sets_has_two_trees(rt: HostRuntime) -> Result<(), Fail> {
    let g = grammar(rt.alloc(), TWO_EQUATIONS).ok_or("no rows")?;
    assert!(rt; keeps_five(&g));
    let answer = parsed(rt.alloc(), &g, 20, EQUATION, WFF);
    assert!(rt;
        are_two(
            rt.alloc(),
            &g,
            &answer,
            EQUATION,
            [&[15, 14, 6, 14, 7], &[16, 6, 7]]
        )
    );
    Ok(())
}

fn signs_before(alloc: Global, signs: usize) -> Result<Vec<Leaf>, Memory> {
    let mut leaves = vec![in alloc; Leaf::Const(Sym(8)); signs]?;
    leaves.push(Leaf::Var(Sym(9), WFF))?;
    Ok(leaves)
}

fn signs_behind(alloc: Global, signs: usize) -> Result<Vec<Leaf>, Memory> {
    let mut leaves = vec![in alloc; Leaf::Var(Sym(9), WFF)]?;
    for _ in 0..signs {
        leaves.push(Leaf::Const(Sym(7)))?;
    }
    Ok(leaves)
}

// Whether the expression has one tree with so many nodes, and is its text.
fn has_nodes(alloc: Global, g: &Grammar, leaves: &[Leaf], count: u64) -> bool {
    match parsed(alloc, g, 3, leaves, WFF) {
        Answer::One(tree) => nodes(&tree) == count && has_text(alloc, g, &tree, leaves),
        _ => false,
    }
}

// The stack is enough for the deepest trees, with a sign before each formula or behind it.
#[test]
fn a_formula_of_4094_signs_has_a_tree(rt: HostRuntime) -> Result<(), Fail> {
    let g = grammar(rt.alloc(), SIGNS).ok_or("no rows")?;
    let before = signs_before(rt.alloc(), 4_094)?;
    let behind = signs_behind(rt.alloc(), 4_094)?;
    assert!(rt; has_nodes(rt.alloc(), &g, &before, 4_095));
    assert!(rt; has_nodes(rt.alloc(), &g, &behind, 4_095));
    Ok(())
}
