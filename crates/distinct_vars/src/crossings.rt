ghost use Rattle.std.specs.Prelude.{◌≡◌, [], fold, map, IfOk, OnOk};
ghost use Rattle.mm_model.specs.Names.{sym};
ghost use Rattle.solve_model.specs.Trees.{variables};
ghost use Rattle.written_model.specs.Pairs.{needed as needed_by_use};
ghost use Rattle.written_model.specs.WrittenSteps.{Use};
ghost use Rattle.distinct_vars.specs.NeededPairs.{distinct, put_all, put_needed, put_number, put_of, put_row};
ghost use Rattle.distinct_vars.specs.Uses.{IsUseOf};
ghost use Rattle.distinct_vars.specs.Values.{variables_at};

use crate::values::value;
use mm_base::{List, Memory, Pair, Sym, Tree};
use pair_set::PairSet;
use solve_laws::pair_sets_are_sorted;
use std::alloc::Global;
use std::collections::BTreeSet;

/// Puts in the numbers of a tree's variables.
fn add_variables(tree: &Tree, numbers: &mut BTreeSet<u32>) -> Result<(), Memory>
    ensures { OnOk result (numbers.new.keys ≡ fold put_number numbers.old.keys (variables tree.now)) }
{
    match tree {
        Tree::Var(symbol, _) => {
            numbers.insert(symbol.0)?;
            Ok(())
        }
        Tree::Work(_, _) => Ok(()),
        Tree::Fresh(_, _) => Ok(()),
        Tree::Node(_, _, children) => {
            for child in children.as_slice() {
                add_variables(child, numbers)?;
            }
            Ok(())
        }
    }
}

fn symbols(alloc: Global, numbers: &BTreeSet<u32>) -> Result<Vec<Sym>, Memory>
    ensures { IfOk result (λ symbols. symbols.items ≡ map sym numbers.now.keys) }
{
    let symbols = numbers.iter().map(|number| Sym(*number)).collect(alloc)?;
    Ok(symbols)
}

/// The variables of the value of a variable, each once.
fn variables_of(
    alloc: Global,
    vars: &[Sym],
    trees: &[Tree],
    symbol: Sym,
) -> Result<Vec<Sym>, Memory>
    ensures { IfOk result (λ found. found.items ≡ distinct (variables_at vars.now trees.now symbol)) }
{
    match value(vars, trees, symbol) {
        None => Ok(Vec::new(alloc)),
        Some(tree) => {
            let mut numbers = BTreeSet::new(alloc);
            add_variables(tree, &mut numbers)?;
            symbols(alloc, &numbers)
        }
    }
}

/// Puts in the pair of two variables that differ.
fn add_crossing(set: &mut PairSet, one: Sym, other: Sym) -> Result<(), Memory>
    ensures { OnOk result (set.new ≡ put_needed set.old (one, other)) }
{
    if one == other {
        return Ok(());
    }
    set.add(one, other)
}

fn add_row(set: &mut PairSet, one: Sym, others: &[Sym]) -> Result<(), Memory>
    ensures { OnOk result (set.new ≡ put_row others.now set.old one) }
{
    for other in others {
        add_crossing(set, one, *other)?;
    }
    Ok(())
}

fn add_crossings(set: &mut PairSet, ones: &[Sym], others: &[Sym]) -> Result<(), Memory>
    ensures { OnOk result (set.new ≡ put_all ones.now others.now set.old) }
{
    for one in ones {
        add_row(set, *one, others)?;
    }
    Ok(())
}

/// Puts in what a pair of the frame needs.
fn add_needed(
    alloc: Global,
    set: &mut PairSet,
    pair: Pair,
    vars: &[Sym],
    trees: &[Tree],
) -> Result<(), Memory>
    ensures { OnOk result (set.new ≡ put_of vars.now trees.now set.old pair) }
{
    let ones = variables_of(alloc, vars, trees, pair.a)?;
    let others = variables_of(alloc, vars, trees, pair.b)?;
    add_crossings(set, ones.as_slice(), others.as_slice())
}

fn needed_set(
    alloc: Global,
    pairs: &[Pair],
    vars: &[Sym],
    trees: &[Tree],
) -> Result<PairSet, Memory>
    ensures { IfOk result (λ set. set ≡ fold (put_of vars.now trees.now) [] pairs.now) }
{
    let mut set = PairSet::new(alloc);
    for pair in pairs {
        add_needed(alloc, &mut set, *pair, vars, trees)?;
    }
    Ok(set)
}

/// The pairs that a use of an assertion needs, by lesser and then greater symbol number, each once: of each pair of its
/// frame, each variable of the database in the one value with each other one in the other value. Work variables and fresh
/// leaves are in no pair, and a variable without a tree has no variables. It takes memory for the pairs that it gives and
/// for the variables of two values; a pair of the frame takes a walk over its two trees, and a look-up for each two of
/// their different variables. `Memory`: there is no room for them.
pub fn needed(
    alloc: Global,
    pairs: &List<Pair>,
    vars: &List<Sym>,
    trees: &List<Tree>,
) -> Result<List<Pair>, Memory>
    ensures { IfOk result (λ list. (u : Use) → IsUseOf u pairs.now vars.now trees.now → list ≡ needed_by_use u) }
{
    pair_sets_are_sorted();
    let set = needed_set(alloc, pairs.as_slice(), vars.as_slice(), trees.as_slice())?;
    set.listed(alloc)
}
