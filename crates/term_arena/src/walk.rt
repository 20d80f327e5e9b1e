ghost use Rattle.std.specs.Bool.{OnTrue, OnFalse};
ghost use Rattle.std.specs.Prelude.{◌≡◌, ◌+◌, ◌-◌, ◌<◌, ◌≤◌, ◌^◌, ◌∷◌, ◌++◌, ℕ, List, [], length, map, reverse, set, slice_get, slice_index_or, Some, None, MatchOption, OnOk, IfOk, max};

use mm_base::Memory;
use std::alloc::{AllocError, Global};
use std::marker::Model;
use undo_trail::Trail;

/// What a step of a walk did.
#[derive(Clone, Copy, Debug, PartialEq, Eq)]
pub enum Step {
    /// The path goes on to a part of its last node.
    Opened,
    /// The last node of the path was settled and taken off.
    Settled,
    /// The last node of the path has a part on the path.
    Cycle,
}

/// The states of nodes and the path of a walk. A new walk forgets all states in constant time: it counts rounds, and a
/// stamp of an earlier round says nothing.
#[derive(Drop)]
pub struct Walk {
    /// For each node the round in which it was opened, or one more where it was settled.
    stamps: Vec<u32>,
    round: u32,
    path: Trail,
}

impl Model for Walk {
    ghost use Rattle.std.specs.Prelude.{map, reverse};
    ghost use Rattle.term_arena.specs.Walks.{Walked, state_of, IsWalk};

    ghost Value = { Walked };

    ghost view = { λ w. record { states = map (state_of w.round) w.stamps.items; path = reverse w.path.entries } };

    ghost invariant = { λ w. IsWalk w.stamps.items w.round w.path };
}

impl Walk {
    ghost use Rattle.term_model.specs.Marks.{IsIn, is_marked};
    ghost use Rattle.term_arena.specs.Walks.{Walked, IsIdle, state_at, marks_of, unseen, opened, settled};

    pub fn new(alloc: Global) -> Result<Walk, Memory>
        ensures { IfOk result (λ w. w.states ≡ []) }
    {
        Ok(Walk {
            stamps: Vec::new(alloc),
            round: 2,
            path: Trail::new(alloc)?,
        })
    }

    /// Makes room for so many nodes, and begins anew.
    pub fn reserve(&mut self, count: u32) -> Result<(), Memory>
        ensures long { OnOk result (count ≤ length self.new.states) }
        ensures longer { length self.old.states ≤ length self.new.states }
    {
        self.clear();
        self.path.reserve(count)?;
        grow(&mut self.stamps, count as usize)?;
        Ok(())
    }

    /// Begins anew: all nodes are new.
    pub fn clear(&mut self)
        ensures count { length self.new.states ≡ length self.old.states }
        ensures fresh { (i : ℕ) → state_at self.new.states i ≡ unseen }
        ensures idle { IsIdle self.new }
    {
        while let Some(_) = self.path.back_to(0) {}
        self.round = next_round(&mut self.stamps, self.round);
    }

    /// Whether a node's tree is known to be finite.
    pub fn is_settled(&self, i: u32) -> bool
        requires { i < length self.now.states }
        ensures { result ≡ is_marked (marks_of self.now.states) i }
    {
        self.stamps[i as usize] == self.round + 1
    }

    /// Whether a node stands on the path.
    pub fn is_open(&self, i: u32) -> bool
        requires { i < length self.now.states }
        ensures on_path { OnTrue result (IsIn i self.now.path) }
        ensures off { OnFalse result (state_at self.now.states i ≡ opened → ⊥) }
    {
        self.stamps[i as usize] == self.round
    }

    /// The last node of the path.
    pub fn last(&self) -> Option<u32>
        ensures { MatchOption result (IsIdle self.now) (λ i. (slice_get self.now.path 0 ≡ Some i) × (state_at self.now.states i ≡ opened) × (i < length self.now.states)) }
    {
        let len = self.path.mark();
        if len == 0 {
            return None;
        }
        Some(self.path.entry(len - 1))
    }

    /// The path goes on to a node.
    pub fn open(&mut self, i: u32)
        requires within { i < length self.old.states }
        requires fresh { state_at self.old.states i ≡ unseen }
        ensures { self.new ≡ record { states = set self.old.states i opened; path = i ∷ self.old.path } }
    {
        self.stamps[i as usize] = self.round;
        self.path.note(i);
    }

    /// The last node of the path is settled.
    pub fn settle(&mut self)
        requires { 0 < length self.old.path }
        ensures { (i : ℕ) × (self.old.path ≡ i ∷ self.new.path) × (self.new.states ≡ set self.old.states i settled) }
    {
        if let Some(i) = self.path.back_to(0) {
            self.stamps[i as usize] = self.round + 1;
        }
    }
}

/// A round past all stamps. Every 2^31 rounds the stamps are wiped.
fn next_round(stamps: &mut Vec<u32>, round: u32) -> u32
    requires old { (i : ℕ) → slice_index_or stamps.old.items i 0 ≤ round + 1 }
    requires limit { round + 1 < 2 ^ 32 }
    ensures started { 0 < result }
    ensures limit { result + 1 < 2 ^ 32 }
    ensures count { length stamps.new.items ≡ length stamps.old.items }
    ensures past { (i : ℕ) → slice_index_or stamps.new.items i 0 < result }
{
    if round < u32::MAX - 2 {
        return round + 2;
    }
    wipe(stamps);
    2
}

/// Zeros at the end, up to a length.
fn grow(stamps: &mut Vec<u32>, wanted: usize) -> Result<(), AllocError>
    ensures same { (i : ℕ) → slice_index_or stamps.new.items i 0 ≡ slice_index_or stamps.old.items i 0 }
    ensures long { OnOk result (wanted ≤ length stamps.new.items) }
    ensures longer { length stamps.old.items ≤ length stamps.new.items }
    ensures limit { length stamps.new.items ≤ max wanted (length stamps.old.items) }
{
    while stamps.len() < wanted {
        stamps.push(0)?;
    }
    Ok(())
}

fn wipe(stamps: &mut Vec<u32>)
    ensures count { length stamps.new.items ≡ length stamps.old.items }
    ensures zero { (i : ℕ) → slice_index_or stamps.new.items i 0 ≡ 0 }
{
    for i in 0..stamps.len() {
        stamps[i] = 0;
    }
}
