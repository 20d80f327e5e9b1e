//! Trees that the tests of small calls are made of, and what comes of them.
use distinct_vars::{clash, lacking, needed};
use hyp_derive::{fill, step_name};
use mm_base::{Label, List, Memory, Name, Pair, Sym, Tree, Typecode};
use std::alloc::Global;
use std::test::Fail;

const WFF: Typecode = Typecode(Sym(0));

// A part of a tree, behind its own parts.
#[derive(Clone, Copy)]
enum Part {
    Var(u32),
    Work(u32),
    Fresh(u32),
    // A production over the last tree.
    Not,
    // A production over the last two trees.
    Both,
}

fn node(alloc: Global, label: u32, children: &mut Vec<Tree>, count: usize) -> Result<Tree, Memory> {
    let mut taken = Vec::new(alloc);
    for _ in 0..count {
        if let Some(child) = children.pop() {
            taken.push(child)?;
        }
    }
    taken.reverse();
    Ok(Tree::Node(Label(label), WFF, List::from_vec(taken)))
}

// The trees that these parts make, in order.
fn trees(alloc: Global, parts: &[Part]) -> Result<List<Tree>, Memory> {
    let mut made = Vec::new(alloc);
    for part in parts {
        let tree = match part {
            Part::Var(number) => Tree::Var(Sym(*number), WFF),
            Part::Work(number) => Tree::Work(WFF, *number),
            Part::Fresh(number) => Tree::Fresh(WFF, *number),
            Part::Not => node(alloc, 7, &mut made, 1)?,
            Part::Both => node(alloc, 0, &mut made, 2)?,
        };
        made.push(tree)?;
    }
    Ok(List::from_vec(made))
}

fn pair(a: u32, b: u32) -> Pair {
    Pair {
        a: Sym(a),
        b: Sym(b),
    }
}

fn pairs(alloc: Global, numbers: &[(u32, u32)]) -> Result<List<Pair>, Memory> {
    let mut made = Vec::new(alloc);
    for (a, b) in numbers {
        made.push(pair(*a, *b))?;
    }
    Ok(List::from_vec(made))
}

// The values of the variables 1, 2 and 3: 9 with a work variable; 8 and 7; 8, 9 and 8.
const VALUES: &[Part] = &[
    Part::Var(9),
    Part::Work(1),
    Part::Both,
    Part::Var(8),
    Part::Var(7),
    Part::Both,
    Part::Var(8),
    Part::Var(9),
    Part::Var(8),
    Part::Both,
    Part::Both,
];

// A clash and its pair where the pairs of an assertion are these.
fn clash_of(alloc: Global, numbers: &[(u32, u32)]) -> Result<Option<(Sym, Sym, Sym)>, Memory> {
    let vars = List::from_vec(Vec::from_slice(alloc, &[Sym(1), Sym(2), Sym(3)])?);
    Ok(clash(&pairs(alloc, numbers)?, &vars, &trees(alloc, VALUES)?))
}

fn needed_by(alloc: Global, numbers: &[(u32, u32)]) -> Result<List<Pair>, Memory> {
    let vars = List::from_vec(Vec::from_slice(alloc, &[Sym(1), Sym(2), Sym(3)])?);
    needed(
        alloc,
        &pairs(alloc, numbers)?,
        &vars,
        &trees(alloc, VALUES)?,
    )
}

#[test]
fn pairs_and_clashes(rt: HostRuntime) -> Result<(), Fail> {
    let found = needed_by(rt.alloc(), &[(1, 2), (1, 3)])?;
    let given = pairs(rt.alloc(), &[(8, 9)])?;
    assert!(rt; found.as_slice() == [pair(7, 9), pair(8, 9)].as_slice());
    assert!(rt; lacking(&found, &given) == Some(pair(7, 9)));
    assert!(rt; lacking(&given, &found).is_none());
    assert!(rt; clash_of(rt.alloc(), &[(1, 2), (1, 3)])? == Some((Sym(1), Sym(3), Sym(9))));
    assert!(rt; clash_of(rt.alloc(), &[(1, 2)])?.is_none());
    Ok(())
}

const EARLIER: &[Part] = &[Part::Var(1), Part::Work(1), Part::Not];

// Two equal trees that no earlier step has, an earlier one, and one that differs below its head.
const FILLED: &[Part] = &[
    Part::Fresh(4),
    Part::Work(1),
    Part::Not,
    Part::Fresh(4),
    Part::Work(2),
    Part::Not,
];

fn is_filled(alloc: Global, made: usize, places: &[u32]) -> Result<bool, Memory> {
    let filled = fill(alloc, &trees(alloc, EARLIER)?, &trees(alloc, FILLED)?)?;
    Ok(filled.made.as_slice().len() == made && filled.places.as_slice() == places)
}

fn names(alloc: Global, words: &[&'static [u8]]) -> Result<List<Name>, Memory> {
    let mut made = Vec::new(alloc);
    for word in words {
        made.push(List::from_vec(Vec::from_slice(alloc, word)?))?;
    }
    Ok(List::from_vec(made))
}

fn is_named(alloc: Global, used: &[&'static [u8]], name: &[u8]) -> Result<bool, Memory> {
    Ok(step_name(alloc, &names(alloc, used)?)?.as_slice() == name)
}

#[test]
fn places_are_filled(rt: HostRuntime) -> Result<(), Fail> {
    assert!(rt; is_filled(rt.alloc(), 2, &[2, 1, 2, 3])?);
    assert!(rt;
        is_named(
            rt.alloc(),
            &[b"d2", b"qed", b"d1", b"d04", b"d", b"d5"],
            b"d3"
        )?
    );
    assert!(rt; is_named(rt.alloc(), &[], b"d1")?);
    Ok(())
}
