ghost use Rattle.std.specs.Prelude.{◌≡◌, ◌∷◌, [], false, List as ListOf, length, IfOk, OnOk};
ghost use Rattle.std.specs.Option.{option_copied};
ghost use Rattle.mm_base.specs.declared.tree.Tree.{Tree as TreeOf};
ghost use Rattle.mm_model.specs.Book.{Assertion};
ghost use Rattle.auto_model.specs.AutoFilled.{tuples};
ghost use Rattle.ref_search.specs.Matching.{AreBound, IsLonger};
ghost use Rattle.ref_search.specs.Completing.{IsRule};
ghost use Rattle.auto_fill.specs.Ready.{ArePlaces};
ghost use Rattle.auto_fill.specs.Walking.{BecomesNone, CannotPlace, HasAll, IsFirstFit, IsFitOf, wanted_of};

use crate::sought::Sought;
use mm_base::{List, Memory, Sym, Tree};
use mm_model::Frame;
use ref_search::{Conditions, complete, matches};
use std::alloc::Global;

/// A tuple of steps that serve the `$e` of a frame, with the values of the frame's variables.
#[derive(Drop)]
pub struct Fit {
    pub places: List<u32>,
    pub trees: List<Tree>,
}

/// The fit with a place before its others.
fn preceded(place: u32, fit: Fit) -> Result<Fit, Memory>
    ensures { IfOk result (λ f. f ≡ record { places = place ∷ fit.places; trees = fit.trees }) }
{
    let Fit { places, trees } = fit;
    let mut places = places.into_vec();
    places.insert(0, place)?;
    Ok(Fit {
        places: List::from_vec(places),
        trees,
    })
}

/// The fit where no `$e` is left.
fn end(
    alloc: Global,
    conditions: &Conditions,
    bindings: &[(Sym, &Tree)],
) -> Result<Option<Fit>, Memory>
    ensures first { IfOk result (λ o. (a : Assertion) (wanted : ListOf TreeOf) → IsRule a conditions.now.frame.now conditions.now.vars.now
        → AreBound conditions.now.vars.now bindings.now → IsFirstFit a (option_copied conditions.now.given) bindings.now [] wanted ([] ∷ []) o) }
    ensures count { IfOk result (HasAll conditions.now.frame.now) }
{
    match complete(alloc, conditions, bindings)? {
        None => Ok(None),
        Some(trees) => Ok(Some(Fit {
            places: List::from_vec(Vec::new(alloc)),
            trees,
        })),
    }
}

/// Whether a tree of a frame becomes the tree at one of these places. What is bound stays as it is.
fn becomes_one<'w>(
    vars: &[Sym],
    hyp: &Tree,
    wanted: &'w [Tree],
    places: &[u32],
    bindings: &mut Vec<(Sym, &'w Tree)>,
) -> Result<bool, Memory>
    requires { ArePlaces wanted.now places.now }
    ensures same { OnOk result (bindings.new.items ≡ bindings.old.items) }
    ensures none { IfOk result (λ one. one ≡ false → BecomesNone vars.now bindings.old.items hyp.now wanted.now places.now) }
{
    let mark = bindings.len();
    for i in 0..places.len() {
        let at = places[i];
        let fits = matches(vars, hyp, &wanted[at as usize], bindings)?;
        bindings.truncate(mark);
        if fits {
            return Ok(true);
        }
    }
    Ok(false)
}

/// Whether each of these `$e` alone becomes the tree at one of these places. Where one does not, no tuple serves, and
/// none is tried.
fn may_place<'w>(
    vars: &[Sym],
    hyps: &[Tree],
    wanted: &'w [Tree],
    places: &[u32],
    bindings: &mut Vec<(Sym, &'w Tree)>,
) -> Result<bool, Memory>
    requires { ArePlaces wanted.now places.now }
    ensures same { OnOk result (bindings.new.items ≡ bindings.old.items) }
    ensures none { IfOk result (λ may. may ≡ false → CannotPlace vars.now bindings.old.items hyps.now wanted.now places.now) }
{
    for i in 0..hyps.len() {
        if !becomes_one(vars, &hyps[i], wanted, places, bindings)? {
            return Ok(false);
        }
    }
    Ok(true)
}

/// The first tuple of these places of which the wanted trees serve the `$e` of a frame. What is bound to its variables
/// stays, and more may be bound behind it. It tries no tuple further than to the first `$e` that does not become the
/// tree there.
pub fn walk<'w>(
    alloc: Global,
    conditions: &Conditions,
    hyps: &[Tree],
    wanted: &'w [Tree],
    places: &[u32],
    bindings: &mut Vec<(Sym, &'w Tree)>,
) -> Result<Option<Fit>, Memory>
    requires { ArePlaces wanted.now places.now }
    ensures longer { OnOk result (IsLonger bindings.old.items bindings.new.items) }
    ensures first { IfOk result (λ o. (a : Assertion) → IsRule a conditions.now.frame.now conditions.now.vars.now
        → AreBound conditions.now.vars.now bindings.old.items
        → IsFirstFit a (option_copied conditions.now.given) bindings.old.items hyps.now wanted.now (tuples (length hyps.now) places.now) o) }
    ensures count { IfOk result (HasAll conditions.now.frame.now) }
{
    let Some((first, others)) = hyps.split_first() else {
        return end(alloc, conditions, bindings.as_slice());
    };
    if !may_place(conditions.vars.as_slice(), others, wanted, places, bindings)? {
        return Ok(None);
    }
    let mark = bindings.len();
    for i in 0..places.len() {
        let at = places[i];
        if !matches(
            conditions.vars.as_slice(),
            first,
            &wanted[at as usize],
            bindings,
        )? {
            bindings.truncate(mark);
            continue;
        }
        match walk(alloc, conditions, others, wanted, places, bindings)? {
            None => bindings.truncate(mark),
            Some(fit) => return Ok(Some(preceded(at, fit)?)),
        }
    }
    Ok(None)
}

/// The first tuple with which an assertion with these trees serves the step.
pub fn fit_to(
    alloc: Global,
    frame: &Frame,
    vars: &List<Sym>,
    tree: &Tree,
    hyps: &List<Tree>,
    sought: &Sought,
) -> Result<Option<Fit>, Memory>
    ensures fit { IfOk result (λ o. (a : Assertion) → IsRule a frame.now vars.now → a.tree ≡ tree.now → a.hyps ≡ hyps.now
        → IsFitOf a (option_copied sought.now.given) (wanted_of sought.now.trees.now sought.now.number) sought.now.places.now o) }
    ensures count { IfOk result (HasAll frame.now) }
{
    let trees = sought.trees;
    let mut bindings = Vec::new(alloc);
    let formula = &trees[sought.number as usize];
    if !matches(vars.as_slice(), tree, formula, &mut bindings)? {
        return Ok(None);
    }
    let conditions = Conditions {
        frame,
        vars,
        given: sought.given,
    };
    walk(
        alloc,
        &conditions,
        hyps.as_slice(),
        trees,
        sought.places,
        &mut bindings,
    )
}
