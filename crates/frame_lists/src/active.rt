//! What is active at a place.

ghost use Rattle.std.specs.Prelude.{◌≡◌, ◌≤◌, ℕ, List, length, None, IfOk, map};
ghost use Rattle.mm_model.specs.Statements.{statements, statement_fault};
ghost use Rattle.mm_model.specs.Frames as spec;
ghost use Rattle.frame_lists.specs.Lists.{AreOf};
ghost use Rattle.mm_model.specs.Names.{sym};
ghost use Rattle.frame_lists.specs.Orders.{ArePairs, AreVariables};
ghost use Rattle.frame_lists.specs.Steps.{hypothesis_at, scope_upto};

use crate::hypotheses::active_hypotheses;
use crate::listed::Listed;
use crate::pairs::pairs_among;
use crate::scope::Scope;
use crate::sorted::rising;
use mm_base::{List, Memory, Sym};
use mm_model::Active;
use model_laws::statements_are_sound;
use number_set::NumberSet;
use std::alloc::Global;

/// What is active behind the first so many statements.
fn scope_at(alloc: Global, listed: &Listed, place: u32) -> Result<Scope, Memory>
    requires { place ≤ length listed.now.entries }
    ensures { IfOk result (λ s. s ≡ scope_upto listed.now place) }
{
    let mut scope = Scope::new(alloc);
    let entries = listed.entries.as_slice();
    let mut label = 0;
    for number in 0..place {
        scope.pass(&entries[number as usize], number, label)?;
        label = listed.next_label(label, number);
    }
    Ok(scope)
}

/// The symbols of these numbers.
fn symbols_of(alloc: Global, numbers: &[u32]) -> Result<List<Sym>, Memory>
    ensures { IfOk result (λ symbols. symbols ≡ map sym numbers.now) }
{
    let mut symbols = Vec::with_capacity(alloc, numbers.len())?;
    for number in numbers {
        symbols.push(Sym(*number))?;
    }
    Ok(List::from_vec(symbols))
}

/// The variables by number.
fn in_order(alloc: Global, variables: &NumberSet) -> Result<List<Sym>, Memory>
    ensures { IfOk result (λ symbols. AreVariables variables.now symbols) }
{
    let numbers = rising(Vec::from_slice(alloc, variables.items())?);
    symbols_of(alloc, numbers.as_slice())
}

/// What is active in a scope.
fn active_in(alloc: Global, listed: &Listed, scope: &Scope) -> Result<Active, Memory>
    ensures variables { IfOk result (λ a. AreVariables scope.now.variables a.variables) }
    ensures hyps { IfOk result (λ a. a.hyps ≡ map (hypothesis_at listed.now) scope.now.hyps) }
    ensures pairs { IfOk result (λ a. ArePairs listed.now scope.now.distinct scope.now.variables a.pairs) }
{
    Ok(Active {
        variables: in_order(alloc, &scope.variables)?,
        hyps: active_hypotheses(alloc, listed, scope)?,
        pairs: pairs_among(alloc, listed, scope.distinct.as_slice(), &scope.variables)?,
    })
}

/// What is active at a place. It takes one pass over the statements below it.
pub fn active_at(alloc: Global, listed: &Listed, place: u32) -> Result<Active, Memory>
    requires { place ≤ length listed.now.entries }
    ensures { (text : List ℕ) → statement_fault text ≡ None → AreOf listed.now (statements text) → IfOk result (λ a. a ≡ spec.active_at (statements text) place) }
{
    statements_are_sound();
    let scope = scope_at(alloc, listed, place)?;
    active_in(alloc, listed, &scope)
}
