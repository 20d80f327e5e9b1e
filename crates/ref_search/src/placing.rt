ghost use Rattle.std.specs.Prelude.{◌≡◌, ◌<◌, ◌∷◌, [], ℕ, List as ListOf, length, remove, IfOk, OnOk};
ghost use Rattle.std.specs.List.{AllByRecursion, range_with_len};
ghost use Rattle.std.specs.Option.{option_copied};
ghost use Rattle.mm_base.specs.declared.tree.Tree.{Tree as TreeOf};
ghost use Rattle.mm_model.specs.Book.{Assertion};
ghost use Rattle.solve_model.specs.Firsts.{orders};
ghost use Rattle.ref_search.specs.Matching.{AreBound, AreGround, AllBecome, IsLonger, IsMatched};
ghost use Rattle.ref_search.specs.Completing.{IsRule};
ghost use Rattle.ref_search.specs.Placing.{IsClosed, IsFirstFit, IsFitOf, HasAll};

use crate::completing::{Conditions, complete};
use crate::matching::matches;
use crate::shapes::may_become;
use crate::sought::Sought;
use mm_base::{List, MOST_ORDERED_PLACES, Memory, Sym, Tree};
use mm_model::Frame;
use std::alloc::Global;

/// An order in which given trees fit the `$e` of a frame, with the values of the frame's variables.
#[derive(Drop)]
pub struct Fit {
    pub order: List<u32>,
    pub trees: List<Tree>,
}

fn without(alloc: Global, places: &[u32], i: usize) -> Result<Vec<u32>, Memory>
    requires { i < length places.now }
    ensures { IfOk result (λ left. left.items ≡ remove places.now i) }
{
    let mut left = places.to_vec(alloc)?;
    left.remove(i);
    Ok(left)
}

/// The fit with a place before those of its order.
fn preceded(place: u32, fit: Fit) -> Result<Fit, Memory>
    ensures { IfOk result (λ f. f ≡ record { order = place ∷ fit.order; trees = fit.trees }) }
{
    let Fit { order, trees } = fit;
    let mut order = order.into_vec();
    order.insert(0, place)?;
    Ok(Fit {
        order: List::from_vec(order),
        trees,
    })
}

/// The fit where no `$e` is left.
fn end(
    alloc: Global,
    conditions: &Conditions,
    bindings: &[(Sym, &Tree)],
) -> Result<Option<Fit>, Memory>
    ensures first { IfOk result (λ o. (a : Assertion) (wanted : ListOf TreeOf) → IsRule a conditions.now.frame.now conditions.now.vars.now
        → AreBound conditions.now.vars.now bindings.now → IsFirstFit a (option_copied conditions.now.given) bindings.now [] wanted ([] ∷ []) o) }
    ensures count { IfOk result (HasAll conditions.now.frame.now) }
{
    match complete(alloc, conditions, bindings)? {
        None => Ok(None),
        Some(trees) => Ok(Some(Fit {
            order: List::from_vec(Vec::new(alloc)),
            trees,
        })),
    }
}

/// The first order of these places in which the wanted trees there fit the `$e` of a frame. What is bound to its
/// variables stays, and more may be bound behind it. It tries no order further than to the first `$e` that does not
/// fit.
pub fn place<'w>(
    alloc: Global,
    conditions: &Conditions,
    hyps: &[Tree],
    wanted: &'w [Tree],
    places: &[u32],
    bindings: &mut Vec<(Sym, &'w Tree)>,
) -> Result<Option<Fit>, Memory>
    requires closed { AreGround wanted.now }
    requires inside { AllByRecursion (λ k. k < length wanted.now) places.now }
    ensures longer { OnOk result (IsLonger bindings.old.items bindings.new.items) }
    ensures first { IfOk result (λ o. (a : Assertion) → IsRule a conditions.now.frame.now conditions.now.vars.now
        → AreBound conditions.now.vars.now bindings.old.items
        → IsFirstFit a (option_copied conditions.now.given) bindings.old.items hyps.now wanted.now (orders (length hyps.now) places.now) o) }
    ensures count { IfOk result (HasAll conditions.now.frame.now) }
{
    let Some((first, others)) = hyps.split_first() else {
        return end(alloc, conditions, bindings.as_slice());
    };
    let mark = bindings.len();
    for i in 0..places.len() {
        let at = places[i];
        if !matches(
            conditions.vars.as_slice(),
            first,
            &wanted[at as usize],
            bindings,
        )? {
            bindings.truncate(mark);
            continue;
        }
        let left = without(alloc, places, i)?;
        match place(alloc, conditions, others, wanted, left.as_slice(), bindings)? {
            None => bindings.truncate(mark),
            Some(fit) => return Ok(Some(preceded(at, fit)?)),
        }
    }
    Ok(None)
}

/// Whether all trees of a frame become these trees, as `matches` says it of one.
fn match_all<'w>(
    vars: &[Sym],
    patterns: &[Tree],
    trees: &'w [Tree],
    bindings: &mut Vec<(Sym, &'w Tree)>,
) -> Result<bool, Memory>
    requires closed { AreGround trees.now }
    requires count { length patterns.now ≡ length trees.now }
    ensures { IfOk result (IsMatched vars.now (AllBecome patterns.now trees.now) bindings.old.items bindings.new.items) }
{
    for (i, pattern) in patterns.iter().enumerate() {
        if !matches(vars, pattern, &trees[i], bindings)? {
            return Ok(false);
        }
    }
    Ok(true)
}

/// The fit where the wanted trees fit the `$e` of a frame as they are listed.
fn listed<'w>(
    alloc: Global,
    conditions: &Conditions,
    hyps: &[Tree],
    wanted: &'w [Tree],
    places: &[u32],
    bindings: &mut Vec<(Sym, &'w Tree)>,
) -> Result<Option<Fit>, Memory>
    requires closed { AreGround wanted.now }
    requires count { length hyps.now ≡ length wanted.now }
    requires places { places.now ≡ range_with_len 0 (length wanted.now) }
    ensures first { IfOk result (λ o. (a : Assertion) → IsRule a conditions.now.frame.now conditions.now.vars.now
        → AreBound conditions.now.vars.now bindings.old.items
        → IsFirstFit a (option_copied conditions.now.given) bindings.old.items hyps.now wanted.now (places.now ∷ []) o) }
    ensures count { IfOk result (HasAll conditions.now.frame.now) }
{
    if !match_all(conditions.vars.as_slice(), hyps, wanted, bindings)? {
        return Ok(None);
    }
    let order = List::copy_of(alloc, places)?;
    match complete(alloc, conditions, bindings.as_slice())? {
        None => Ok(None),
        Some(trees) => Ok(Some(Fit { order, trees })),
    }
}

/// The first order in which an assertion with these trees fits, where it has as many `$e` as there are wanted hypotheses.
/// Where its conclusion has another shape than the wanted formula it takes no memory.
pub fn fit_to(
    alloc: Global,
    frame: &Frame,
    vars: &List<Sym>,
    tree: &Tree,
    hyps: &List<Tree>,
    sought: &Sought,
) -> Result<Option<Fit>, Memory>
    requires closed { IsClosed sought.now.wanted.now }
    requires count { length hyps.now ≡ length sought.now.wanted.now.hyps }
    ensures fit { IfOk result (λ o. (a : Assertion) → IsRule a frame.now vars.now → a.tree ≡ tree.now → a.hyps ≡ hyps.now
        → IsFitOf a (option_copied sought.now.given) sought.now.wanted.now o) }
    ensures count { IfOk result (HasAll frame.now) }
{
    let wanted = sought.wanted;
    let places = sought.places;
    if !may_become(tree, &wanted.formula) {
        return Ok(None);
    }
    let mut bindings = Vec::new(alloc);
    if !matches(vars.as_slice(), tree, &wanted.formula, &mut bindings)? {
        return Ok(None);
    }
    let patterns = hyps.as_slice();
    let trees = wanted.hyps.as_slice();
    let conditions = Conditions {
        frame,
        vars,
        given: sought.given,
    };
    if places.len() <= MOST_ORDERED_PLACES {
        place(alloc, &conditions, patterns, trees, places, &mut bindings)
    } else {
        listed(alloc, &conditions, patterns, trees, places, &mut bindings)
    }
}
