ghost use Rattle.std.specs.Prelude.{◌≡◌, ◌<◌, ◌^◌, length, map, Some, IsSome, IfOk, OnOk};
ghost use Rattle.std.specs.List.{AllByRecursion};
ghost use Rattle.mm_model.specs.Book.{Assertion};
ghost use Rattle.mm_frames.specs.Contents.{frame_at};
ghost use Rattle.term_model.specs.Store.{IsStore, IsSolved};
ghost use Rattle.written_model.specs.Existence.{IsPlaceIn};
ghost use Rattle.step_chain.specs.Grown.{AreIdsIn};
ghost use Rattle.step_chain.specs.Standings.{usable_in};
ghost use Rattle.step_chain.specs.Tried.{IsExtended};
ghost use Rattle.step_chain.specs.Accepted.{IsTakenAs, IsKeptInIf};

use crate::copies::CandidateNodes;
use crate::judged::Accepted;
use crate::trying::take;
use mm_base::{Label, List, Memory};
use mm_database::Database;
use mm_model::Frame;
use sheet_text::Given;
use std::alloc::Global;
use term_arena::{Arena, Id};

/// The frame of a usable assertion.
fn frame_of(db: &Database, label: Label) -> &Frame
    requires { IsSome (usable_in db.now label) }
    ensures { frame_at db.now.contents label ≡ Some result.now }
{
    match db.frames().frames().get(label.0 as usize) {
        Some(Some(frame)) => frame,
        _ => unreachable!(),
    }
}

/// What is kept of a candidate that fits in an order.
fn kept_of(label: Label, nodes: CandidateNodes, order: List<u32>) -> Accepted
    ensures { result ≡ record { label = label; order = order; hyps = nodes.hyps.items; variables = nodes.variables.items } }
{
    Accepted {
        label,
        order,
        hyps: List::from_vec(nodes.hyps),
        variables: List::from_vec(nodes.variables),
    }
}

/// Adds a candidate of a usable assertion to the store and joins what it asks: its conclusion with the step's formula, and in
/// its first order that fits each place. None where it fits in no order. In each case what was added may stay.
pub fn accept(
    alloc: Global,
    db: &Database,
    arena: &mut Arena,
    formulas: &[Id],
    label: Label,
    formula: Id,
    places: &[Given],
) -> Result<Option<Accepted>, Memory>
    requires usable { IsSome (usable_in db.now label) }
    requires formulas { AreIdsIn (length arena.old.nodes) formulas.now }
    requires places { AllByRecursion (IsPlaceIn (length formulas.now)) places.now }
    requires few { length places.now < 2 ^ 32 }
    requires formula { formula.0 < length arena.old.nodes }
    requires solved { IsSolved arena.old.nodes arena.old.links }
    ensures extended { IsExtended arena.old arena.new }
    ensures taken { IfOk result (λ r. (a : Assertion) → usable_in db.now label ≡ Some a
        → IsTakenAs db.now formulas.now formula places.now label a arena.old arena.new r) }
    ensures kept_in { IfOk result (IsKeptInIf (length arena.new.nodes)) }
    ensures store { OnOk result (IsStore arena.new.nodes arena.new.links) }
    ensures solved { OnOk result (IsSolved arena.new.nodes arena.new.links) }
{
    let frame = frame_of(db, label);
    let (nodes, order) = take(
        alloc,
        arena,
        db.grammar(),
        frame.hyps.as_slice(),
        db.tree(label),
        db.hyp_trees(label).as_slice(),
        formulas,
        formula,
        places,
    )?;
    match order {
        None => Ok(None),
        Some(order) => Ok(Some(kept_of(label, nodes, order))),
    }
}
