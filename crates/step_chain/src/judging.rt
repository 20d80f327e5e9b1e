ghost use Rattle.std.specs.Prelude.{◌≡◌, ◌<◌, length, Some, IsSome, IfOk, OnErr};
ghost use Rattle.mm_database.specs.Books.{database_of};
ghost use Rattle.term_model.specs.Store.{IsSolved};
ghost use Rattle.step_chain.specs.Grown.{AreIdsIn};
ghost use Rattle.step_chain.specs.Standings.{IsStandingOf, standing_in};
ghost use Rattle.step_chain.specs.declared.standing.Standing.TheVariants.{Candidate};
ghost use Rattle.step_chain.specs.Steps.{ArePlaced, step_at};
ghost use Rattle.step_chain.specs.Levels.{ForEachBook};
ghost use Rattle.step_chain.specs.Accepted.{IsNext, IsSameStore};

use crate::candidate::accept;
use crate::judged::Judged;
use crate::orders::formula_at;
use crate::standing::{Standing, standing_of};
use again_laws::assertions_are_whole;
use chain_laws::candidates_are_ready;
use mm_base::{Label, Memory};
use mm_database::Database;
use model_laws::has_database_facts;
use solve_model::{Bound, BoundStep, Verdict};
use std::alloc::Global;
use term_arena::{Arena, Id};

/// The step of a number.
fn step_at(bound: &Bound, i: u32) -> &BoundStep
    requires { i < length bound.now.steps }
    ensures { result.now ≡ step_at bound.now i }
{
    &bound.steps.as_slice()[i as usize]
}

/// Judges a candidate, as the step of a number. Where it does not fit, and where there is no room, the store is as it was.
fn judge_candidate(
    alloc: Global,
    db: &Database,
    bound: &Bound,
    arena: &mut Arena,
    formulas: &[Id],
    i: u32,
    label: Label,
) -> Result<Judged, Memory>
    requires candidate { standing_in db.now bound.now.place (step_at bound.now i) ≡ Candidate label }
    requires placed { ArePlaced bound.now }
    requires step { i < length bound.now.steps }
    requires formulas { AreIdsIn (length arena.old.nodes) formulas.now }
    requires count { length formulas.now ≡ length bound.now.steps }
    requires solved { IsSolved arena.old.nodes arena.old.links }
    ensures next { IfOk result (IsNext db.now bound.now formulas.now i arena.old arena.new) }
    ensures err { OnErr result (IsSameStore arena.old arena.new) }
{
    candidates_are_ready();
    has_database_facts();
    assertions_are_whole();
    let mark = arena.mark();
    let formula = formula_at(formulas, i);
    let places = step_at(bound, i).places.as_slice();
    match accept(alloc, db, arena, formulas, label, formula, places) {
        Err(_) => {
            arena.undo_to(mark);
            Err(Memory)
        }
        Ok(None) => {
            arena.undo_to(mark);
            Ok(Judged::Stands(Verdict::NoFit))
        }
        Ok(Some(accepted)) => Ok(Judged::Fits(accepted)),
    }
}

/// Judges the step of a number. Where it is not accepted, and where there is no room, the store is as it was.
pub fn judge(
    alloc: Global,
    db: &Database,
    bound: &Bound,
    arena: &mut Arena,
    formulas: &[Id],
    i: u32,
) -> Result<Judged, Memory>
    requires placed { ArePlaced bound.now }
    requires step { i < length bound.now.steps }
    requires formulas { AreIdsIn (length arena.old.nodes) formulas.now }
    requires count { length formulas.now ≡ length bound.now.steps }
    requires solved { IsSolved arena.old.nodes arena.old.links }
    ensures next { IfOk result (IsNext db.now bound.now formulas.now i arena.old arena.new) }
    ensures err { OnErr result (IsSameStore arena.old arena.new) }
{
    match standing_of(db, bound.place, step_at(bound, i)) {
        Standing::Settled(verdict) => {
            let _mark = arena.mark();
            Ok(Judged::Stands(verdict))
        }
        Standing::Candidate(label) => judge_candidate(alloc, db, bound, arena, formulas, i, label),
    }
}
