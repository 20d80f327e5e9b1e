ghost use Rattle.std.specs.Prelude.{◌≡◌, ◌<◌, ◌≤◌, ◌∷◌, [], ℕ, length, true, false, MatchOption, List, slice_get, Some};
ghost use Rattle.std.specs.Bool.{OnTrue, OnFalse};
ghost use Rattle.term_model.specs.Marks.{IsIn, is_marked, are_marked, parts_of, IsGraph, IsPartlySolved, IsCyclic};
ghost use Rattle.term_arena.specs.Walks.{marks_of, state_at, IsStep, IsIdle, KeepsMarks, AreSettled};

use crate::terms::Terms;
use crate::walk::{Step, Walk};
use undo_trail::Trail;

/// The first part of a node that is not settled.
fn unsettled_part(terms: &Terms, walk: &Walk, node: u32) -> Option<u32>
    requires graph { IsGraph terms.now.nodes terms.now.bound }
    requires room { length terms.now.nodes ≤ length walk.now.states }
    requires node { node < length terms.now.nodes }
    ensures { MatchOption result (are_marked (marks_of walk.now.states) (parts_of terms.now.nodes terms.now.bound node) ≡ true) (λ j. IsIn j (parts_of terms.now.nodes terms.now.bound node) × (is_marked (marks_of walk.now.states) j ≡ false) × (j < length terms.now.nodes)) }
{
    if let Some(to) = terms.target(node) {
        return if walk.is_settled(to) { None } else { Some(to) };
    }
    for child in terms.children(node) {
        if !walk.is_settled(child.0) {
            return Some(child.0);
        }
    }
    None
}

/// One step from the last node of the path: down to a part that is new, or back, where all parts are settled.
pub fn step(terms: &Terms, walk: &mut Walk, last: u32) -> Step
    requires graph { IsGraph terms.now.nodes terms.now.bound }
    requires room { length terms.now.nodes ≤ length walk.old.states }
    requires last { (rest : List ℕ) × (walk.old.path ≡ last ∷ rest) }
    requires within { last < length terms.now.nodes }
    ensures { IsStep terms.now.nodes terms.now.bound last walk.old walk.new result }
{
    let Some(part) = unsettled_part(terms, walk, last) else {
        walk.settle();
        return Step::Settled;
    };
    if walk.is_open(part) {
        return Step::Cycle;
    }
    walk.open(part);
    Step::Opened
}

/// Settles a node and what it is made of. It does not, where a path from the node comes back to itself.
fn settle(terms: &Terms, walk: &mut Walk, root: u32) -> bool
    requires graph { IsGraph terms.now.nodes terms.now.bound }
    requires room { length terms.now.nodes ≤ length walk.old.states }
    requires root { root < length terms.now.nodes }
    requires idle { IsIdle walk.old }
    requires solved { IsPartlySolved terms.now.nodes terms.now.bound (marks_of walk.old.states) }
    ensures room { length walk.new.states ≡ length walk.old.states }
    ensures idle { OnTrue result (IsIdle walk.new) }
    ensures settled { OnTrue result (is_marked (marks_of walk.new.states) root ≡ true) }
    ensures kept { KeepsMarks walk.old.states walk.new.states }
    ensures solved { IsPartlySolved terms.now.nodes terms.now.bound (marks_of walk.new.states) }
    ensures cycle { OnFalse result (IsCyclic terms.now.nodes terms.now.bound) }
{
    if walk.is_settled(root) {
        return true;
    }
    walk.open(root);
    while let Some(last) = walk.last() {
        if let Step::Cycle = step(terms, walk, last) {
            return false;
        }
    }
    true
}

/// Whether no path from a node that was bound since a place of the trail comes back to itself.
pub fn settle_since(terms: &Terms, trail: &Trail, walk: &mut Walk, start: u32) -> bool
    requires graph { IsGraph terms.now.nodes terms.now.bound }
    requires room { length terms.now.nodes ≤ length walk.old.states }
    requires start { start ≤ length trail.now.entries }
    requires trail { (k i : ℕ) → slice_get trail.now.entries k ≡ Some i → i < length terms.now.nodes }
    ensures room { length walk.new.states ≡ length walk.old.states }
    ensures settled { OnTrue result (AreSettled terms.now.nodes terms.now.bound trail.now.entries start) }
    ensures cycle { OnFalse result (IsCyclic terms.now.nodes terms.now.bound) }
{
    walk.clear();
    for k in start..trail.mark() {
        if !settle(terms, walk, trail.entry(k)) {
            return false;
        }
    }
    true
}
