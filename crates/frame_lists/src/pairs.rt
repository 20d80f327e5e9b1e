//! Pairs of distinct variables.

ghost use Rattle.std.specs.Prelude.{◌≡◌, IfOk, OnOk, map};
ghost use Rattle.std.specs.List.{filter};
ghost use Rattle.frame_lists.specs.Steps.{chosen, found_more, found_pairs, pair_of, pairs_all, pairs_with};
ghost use Rattle.frame_lists.specs.Orders.{ArePairs};
ghost use Rattle.frame_lists.specs.Together.{has_pair, known_pairs, IsFront};

use crate::listed::Listed;
use crate::sorted::rising_pairs;
use crate::together::Together;
use mm_base::{List, Memory, Pair, Sym};
use number_set::NumberSet;
use std::alloc::Global;

/// For so many variables each two of them are looked up.
const FEW: usize = 64;

/// Those of the symbols that are in the set.
fn chosen(alloc: Global, symbols: &[Sym], set: &NumberSet) -> Result<Vec<u32>, Memory>
    ensures { IfOk result (λ v. v.items ≡ chosen set.now symbols.now) }
{
    let mut numbers = Vec::new(alloc);
    for symbol in symbols {
        if set.contains(symbol.0) {
            numbers.push(symbol.0)?;
        }
    }
    Ok(numbers)
}

/// Adds the pairs of a number with others, the lesser first.
fn add_pairs_with(pairs: &mut Vec<(u32, u32)>, one: u32, others: &[u32]) -> Result<(), Memory>
    ensures { OnOk result (pairs.new.items ≡ pairs_with pairs.old.items one others.now) }
{
    for other in others {
        if one < *other {
            pairs.push((one, *other))?;
        }
    }
    Ok(())
}

/// Adds the pairs of numbers, the lesser first.
pub(crate) fn add_pairs(pairs: &mut Vec<(u32, u32)>, numbers: &[u32]) -> Result<(), Memory>
    ensures { OnOk result (pairs.new.items ≡ pairs_all pairs.old.items numbers.now) }
{
    for number in numbers {
        add_pairs_with(pairs, *number, numbers)?;
    }
    Ok(())
}

/// Adds the pairs of variables of the set that stand together in one of these `$d`.
fn add_found(
    alloc: Global,
    pairs: &mut Vec<(u32, u32)>,
    listed: &Listed,
    distinct: &[u32],
    set: &NumberSet,
) -> Result<(), Memory>
    ensures { OnOk result (pairs.new.items ≡ found_more listed.now set.now pairs.old.items distinct.now) }
{
    for number in distinct {
        let numbers = chosen(alloc, listed.symbols(*number), set)?;
        add_pairs(pairs, numbers.as_slice())?;
    }
    Ok(())
}

/// The pairs of variables of the set that stand together in one of these `$d`, in no order.
fn found_pairs(
    alloc: Global,
    listed: &Listed,
    distinct: &[u32],
    set: &NumberSet,
) -> Result<Vec<(u32, u32)>, Memory>
    ensures { IfOk result (λ v. v.items ≡ found_pairs listed.now distinct.now set.now) }
{
    let mut pairs = Vec::new(alloc);
    add_found(alloc, &mut pairs, listed, distinct, set)?;
    Ok(pairs)
}

/// Those of the pairs that stand together.
fn standing(
    alloc: Global,
    together: &Together,
    pairs: &[(u32, u32)],
) -> Result<Vec<(u32, u32)>, Memory>
    ensures { IfOk result (λ v. v.items ≡ filter (has_pair together.now) pairs.now) }
{
    let mut kept = Vec::new(alloc);
    for pair in pairs {
        if together.has(*pair) {
            kept.push(*pair)?;
        }
    }
    Ok(kept)
}

/// The same pairs, in no order, by what is known of the first of these `$d`.
fn known_pairs(
    alloc: Global,
    listed: &Listed,
    distinct: &[u32],
    together: &Together,
    set: &NumberSet,
) -> Result<Vec<(u32, u32)>, Memory>
    requires { IsFront listed.now distinct.now together.now }
    ensures { IfOk result (λ v. v.items ≡ known_pairs listed.now distinct.now together.now set.now) }
{
    let mut all = Vec::new(alloc);
    add_pairs(&mut all, set.items())?;
    let mut pairs = standing(alloc, together, all.as_slice())?;
    let first = together.numbers.len();
    add_found(alloc, &mut pairs, listed, &distinct[first..], set)?;
    Ok(pairs)
}

fn as_pairs(alloc: Global, numbers: &[(u32, u32)]) -> Result<List<Pair>, Memory>
    ensures { IfOk result (λ pairs. pairs ≡ map pair_of numbers.now) }
{
    let mut pairs = Vec::with_capacity(alloc, numbers.len())?;
    for (a, b) in numbers {
        pairs.push(Pair {
            a: Sym(*a),
            b: Sym(*b),
        })?;
    }
    Ok(List::from_vec(pairs))
}

/// The pairs of variables of the set that stand together in one of these `$d`, by lesser and then greater number.
pub(crate) fn pairs_among(
    alloc: Global,
    listed: &Listed,
    distinct: &[u32],
    set: &NumberSet,
) -> Result<List<Pair>, Memory>
    ensures { IfOk result (λ pairs. ArePairs listed.now distinct.now set.now pairs) }
{
    let pairs = rising_pairs(found_pairs(alloc, listed, distinct, set)?);
    as_pairs(alloc, pairs.as_slice())
}

/// The same, by what is known of the first of these `$d`. For a few variables it looks at each two of them and at the `$d`
/// of which nothing is known.
pub(crate) fn pairs_known(
    alloc: Global,
    listed: &Listed,
    distinct: &[u32],
    together: &Together,
    set: &NumberSet,
) -> Result<List<Pair>, Memory>
    requires { IsFront listed.now distinct.now together.now }
    ensures { IfOk result (λ pairs. ArePairs listed.now distinct.now set.now pairs) }
{
    if set.len() > FEW || together.numbers.len() == 0 {
        return pairs_among(alloc, listed, distinct, set);
    }
    let pairs = rising_pairs(known_pairs(alloc, listed, distinct, together, set)?);
    as_pairs(alloc, pairs.as_slice())
}
