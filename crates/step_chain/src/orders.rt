ghost use Rattle.std.specs.Prelude.{◌≡◌, ◌<◌, ◌≤◌, ◌^◌, ◌++◌, OnOk, length, map, true, slice_get, slice_index_or, Some, IfOk, OnErr};
ghost use Rattle.std.specs.Bool.{OnTrue, OnFalse};
ghost use Rattle.std.specs.List.{AllByRecursion, list_all, range_with_len};
ghost use Rattle.sheet_text.specs.declared.sheet.Given.TheVariants as given;
ghost use Rattle.solve_model.specs.Solutions.{names_step};
ghost use Rattle.term_model.specs.Store.{IsSolved};
ghost use Rattle.chain_laws.specs.Layout.{place_pairs, Joins, CannotJoin};
ghost use Rattle.written_model.specs.Existence.{IsPlaceIn};
ghost use Rattle.step_chain.specs.Grown.{AreIdsIn};
ghost use Rattle.step_chain.specs.Joined.{pairs_of, KeepsNodes};
ghost use Rattle.step_chain.specs.Ordered.{may_reorder, place_at, formula_at, one_pair, id_pairs, reordered, tried, IsFirstFit};

use crate::joining::join_all;
use hyp_order::{first_order, next_order};
use mm_base::{List, MOST_ORDERED_PLACES, Memory};
use sheet_text::Given;
use std::alloc::Global;
use term_arena::{Arena, Id};

/// The orders of so many places.
const MOST_ORDERS: u32 = 720;

fn is_step(place: &Given) -> bool
    ensures { result ≡ names_step place.now }
{
    match place {
        Given::Step(_) => true,
        Given::Gap => false,
    }
}

fn all_steps(places: &[Given]) -> bool
    ensures { result ≡ list_all names_step places.now }
{
    places.iter().all(|place| is_step(place))
}

/// Whether a candidate's places are tried in each order.
pub fn is_free(places: &[Given], hyps: usize) -> bool
    ensures { result ≡ may_reorder places.now hyps }
{
    let count = places.len();
    if count != hyps {
        return false;
    }
    if count < 2 {
        return false;
    }
    if count > MOST_ORDERED_PLACES {
        return false;
    }
    all_steps(places)
}

/// The place of a number; a `?` past the last.
fn place_at(places: &[Given], number: usize) -> Given
    ensures { result ≡ place_at places.now number }
{
    match places.get(number) {
        Some(place) => *place,
        None => Given::Gap,
    }
}

/// The node of a step's formula.
pub fn formula_at(formulas: &[Id], step: u32) -> Id
    ensures { result ≡ formula_at formulas.now step }
{
    match formulas.get(step as usize) {
        Some(id) => *id,
        None => Id(0),
    }
}

/// The places in an order.
fn reordered(alloc: Global, places: &[Given], order: &[u32]) -> Result<Vec<Given>, Memory>
    ensures { IfOk result (λ v. v.items ≡ reordered places.now order.now) }
{
    let mut ordered = Vec::new(alloc);
    for number in order {
        ordered.push(place_at(places, *number as usize))?;
    }
    Ok(ordered)
}

/// Adds what a place joins: the `$e` of its number and the formula of the step that it names. A `?` joins nothing.
fn push_pair(
    pairs: &mut Vec<(Id, Id)>,
    formulas: &[Id],
    place: Given,
    hyp: Id,
) -> Result<(), Memory>
    ensures { OnOk result (pairs.new.items ≡ pairs.old.items ++ one_pair formulas.now place hyp) }
{
    match place {
        Given::Step(step) => {
            pairs.push((hyp, formula_at(formulas, step)))?;
            Ok(())
        }
        Given::Gap => Ok(()),
    }
}

/// The nodes that the places join.
fn pairs_at(
    alloc: Global,
    formulas: &[Id],
    places: &[Given],
    hyps: &[Id],
) -> Result<Vec<(Id, Id)>, Memory>
    ensures { IfOk result (λ v. v.items ≡ id_pairs formulas.now places.now hyps.now) }
{
    let mut pairs = Vec::new(alloc);
    for (k, hyp) in hyps.iter().enumerate() {
        push_pair(&mut pairs, formulas, place_at(places, k), *hyp)?;
    }
    Ok(pairs)
}

/// Joins the nodes of the places in an order, where some solution does. False: no solution does, and nothing changed.
fn fits(
    alloc: Global,
    arena: &mut Arena,
    formulas: &[Id],
    places: &[Given],
    order: &[u32],
    hyps: &[Id],
) -> Result<bool, Memory>
    requires ready { arena.old.ready ≡ true }
    requires formulas { AreIdsIn (length arena.old.nodes) formulas.now }
    requires hyps { AreIdsIn (length arena.old.nodes) hyps.now }
    requires places { AllByRecursion (IsPlaceIn (length formulas.now)) places.now }
    requires solved { IsSolved arena.old.nodes arena.old.links }
    ensures kept { KeepsNodes arena.old arena.new }
    ensures solved { IsSolved arena.new.nodes arena.new.links }
    ensures fits { IfOk result (λ b. OnTrue b (Joins arena.old.nodes arena.old.links arena.new.links (pairs_of (id_pairs formulas.now (reordered places.now order.now) hyps.now)))) }
    ensures cannot { IfOk result (λ b. OnFalse b (CannotJoin arena.old.nodes arena.old.links (pairs_of (id_pairs formulas.now (reordered places.now order.now) hyps.now)))) }
    ensures unchanged { IfOk result (λ b. OnFalse b (arena.new ≡ arena.old)) }
{
    let ordered = reordered(alloc, places, order)?;
    let pairs = pairs_at(alloc, formulas, &ordered, hyps)?;
    match join_all(arena, &pairs) {
        Ok(()) => Ok(true),
        Err(_) => Ok(false),
    }
}

/// The first order of the places in which their nodes can be joined; they are then joined. None where they cannot be joined
/// in any of their orders, and then nothing has changed.
pub fn first_fit(
    alloc: Global,
    arena: &mut Arena,
    formulas: &[Id],
    places: &[Given],
    hyps: &[Id],
) -> Result<Option<List<u32>>, Memory>
    requires ready { arena.old.ready ≡ true }
    requires formulas { AreIdsIn (length arena.old.nodes) formulas.now }
    requires hyps { AreIdsIn (length arena.old.nodes) hyps.now }
    requires places { AllByRecursion (IsPlaceIn (length formulas.now)) places.now }
    requires few { length places.now < 2 ^ 32 }
    requires solved { IsSolved arena.old.nodes arena.old.links }
    ensures kept { KeepsNodes arena.old arena.new }
    ensures solved { IsSolved arena.new.nodes arena.new.links }
    ensures first { IfOk result (IsFirstFit arena.old.nodes arena.old.links arena.new.links
        (λ order. id_pairs formulas.now (reordered places.now order) hyps.now)
        (tried (may_reorder places.now (length hyps.now)) (length places.now))) }
{
    let free = is_free(places, hyps.len());
    let mut order = first_order(alloc, places.len() as u32)?;
    for _ in 0..MOST_ORDERS {
        if fits(alloc, arena, formulas, places, order.as_slice(), hyps)? {
            return Ok(Some(order));
        }
        if !free || !next_order(&mut order) {
            return Ok(None);
        }
    }
    Ok(None)
}
