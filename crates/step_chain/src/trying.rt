ghost use Rattle.std.specs.Prelude.{◌≡◌, ◌<◌, ◌^◌, length, true, IfOk};
ghost use Rattle.std.specs.List.{AllByRecursion};
ghost use Rattle.term_model.specs.Store.{IsSolved};
ghost use Rattle.written_model.specs.Existence.{IsPlaceIn};
ghost use Rattle.step_chain.specs.Grown.{AreIdsIn, AreVariablesIn};
ghost use Rattle.step_chain.specs.Joined.{KeepsNodes};
ghost use Rattle.step_chain.specs.Candidate.{table_of, roots_of};
ghost use Rattle.step_chain.specs.Tried.{IsTried, IsExtended, IsTaken};

use crate::copies::{CandidateNodes, add_candidate};
use crate::joining::join_all;
use crate::orders::first_fit;
use mm_base::{List, Memory, Tree};
use mm_model::Hyp;
use sheet_text::Given;
use std::alloc::Global;
use syntax_grammar::Grammar;
use term_arena::{Arena, Id};

/// Joins what a candidate asks: its conclusion with the step's formula, and then its places in the first order in which they
/// can be joined. None where it cannot be solved in any of its orders.
pub fn try_orders(
    alloc: Global,
    arena: &mut Arena,
    formulas: &[Id],
    places: &[Given],
    hyps: &[Id],
    root: Id,
    formula: Id,
) -> Result<Option<List<u32>>, Memory>
    requires ready { arena.old.ready ≡ true }
    requires formulas { AreIdsIn (length arena.old.nodes) formulas.now }
    requires hyps { AreIdsIn (length arena.old.nodes) hyps.now }
    requires places { AllByRecursion (IsPlaceIn (length formulas.now)) places.now }
    requires few { length places.now < 2 ^ 32 }
    requires root { root.0 < length arena.old.nodes }
    requires formula { formula.0 < length arena.old.nodes }
    requires solved { IsSolved arena.old.nodes arena.old.links }
    ensures kept { KeepsNodes arena.old arena.new }
    ensures solved { IsSolved arena.new.nodes arena.new.links }
    ensures tried { IfOk result (IsTried arena.old.nodes arena.old.links arena.new.links formulas.now places.now hyps.now root formula) }
{
    match join_all(arena, &[(root, formula)]) {
        Err(_) => Ok(None),
        Ok(()) => first_fit(alloc, arena, formulas, places, hyps),
    }
}

/// Adds a candidate and tries its orders. With its nodes the order in which it fits, or none where it fits in none. What was
/// added stays in each case.
pub fn take(
    alloc: Global,
    arena: &mut Arena,
    grammar: &Grammar,
    frame_hyps: &[Hyp],
    tree: &Tree,
    trees: &[Tree],
    formulas: &[Id],
    formula: Id,
    places: &[Given],
) -> Result<(CandidateNodes, Option<List<u32>>), Memory>
    requires formulas { AreIdsIn (length arena.old.nodes) formulas.now }
    requires places { AllByRecursion (IsPlaceIn (length formulas.now)) places.now }
    requires few { length places.now < 2 ^ 32 }
    requires formula { formula.0 < length arena.old.nodes }
    requires solved { IsSolved arena.old.nodes arena.old.links }
    ensures extended { IsExtended arena.old arena.new }
    ensures taken { IfOk result (λ r. IsTaken grammar.now frame_hyps.now tree.now trees.now formulas.now formula places.now arena.old arena.new r.1) }
    ensures variables { IfOk result (λ r. r.0.variables.items ≡ table_of arena.old.nodes frame_hyps.now) }
    ensures hyps { IfOk result (λ r. r.0.hyps.items ≡ (roots_of grammar.now arena.old.nodes frame_hyps.now tree.now trees.now).roots) }
    ensures hyps_in { IfOk result (λ r. AreIdsIn (length arena.new.nodes) r.0.hyps.items) }
    ensures variables_in { IfOk result (λ r. AreVariablesIn (length arena.new.nodes) r.0.variables.items) }
{
    let nodes = add_candidate(alloc, arena, grammar, frame_hyps, tree, trees)?;
    arena.ready()?;
    let _added = arena.mark();
    let order = try_orders(
        alloc,
        arena,
        formulas,
        places,
        &nodes.hyps,
        nodes.root,
        formula,
    )?;
    let _tried = arena.mark();
    Ok((nodes, order))
}
