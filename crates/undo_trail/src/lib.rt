//! A list of numbers that grows within room made before, and gives its last ones back.
#![tactic(auto)]

ghost use Rattle.std.specs.Prelude.{◌≡◌, ◌+◌, ◌-◌, ◌^◌, ◌<◌, ◌≤◌, ◌∷◌, ◌++◌, [], length, IfOk, OnOk, OnErr, MatchOption, slice_get, Some, take, max};

use mm_base::Memory;
use std::alloc::{AllocError, Global};
use std::marker::Model;

/// What was done, in order, as numbers, so that it can be undone. Each call but `reserve` takes constant time and no
/// memory.
#[derive(Drop)]
pub struct Trail {
    /// The numbers, and behind them the room.
    slots: Vec<u32>,
    len: usize,
}

impl Model for Trail {
    ghost use Rattle.std.specs.Prelude.{◌-◌, ◌^◌, ◌<◌, ◌≤◌, length, take};
    ghost use Rattle.undo_trail.specs.Noted.{Noted};

    ghost Value = { Noted };

    ghost view = { λ t. record { entries = take t.len t.slots.items; spare = length t.slots.items - t.len } };

    ghost invariant = { λ t. (t.len ≤ length t.slots.items) × (length t.slots.items < 2 ^ 32) };
}

impl Trail {
    /// No numbers.
    pub fn new(alloc: Global) -> Result<Trail, Memory>
        ensures { IfOk result (λ t. t.entries ≡ []) }
    {
        Ok(Trail {
            slots: Vec::new(alloc),
            len: 0,
        })
    }

    /// Makes room for at least so many more numbers. It takes 4 bytes for each that there was no room for. `Memory`:
    /// memory ran out, or a number could not count them all, and nothing changed.
    pub fn reserve(&mut self, n: u32) -> Result<(), Memory>
        ensures entries { self.new.entries ≡ self.old.entries }
        ensures spare { OnOk result (n ≤ self.new.spare) }
        ensures kept { self.old.spare ≤ self.new.spare }
        ensures err { OnErr result (self.new ≡ self.old) }
    {
        let wanted = self.len + n as usize;
        if wanted > u32::MAX as usize {
            return Err(Memory);
        }
        let room = self.slots.len();
        if grow(&mut self.slots, wanted).is_err() {
            self.slots.truncate(room);
            return Err(Memory);
        }
        Ok(())
    }

    /// How many numbers there are: what `back_to` takes to come back here.
    pub fn mark(&self) -> u32
        ensures { result ≡ length self.now.entries }
    {
        self.len as u32
    }

    /// The number at a place, from 0.
    pub fn entry(&self, k: u32) -> u32
        requires { k < length self.now.entries }
        ensures { slice_get self.now.entries k ≡ Some result }
    {
        self.slots[k as usize]
    }

    /// Puts a number at the end, for which there is room.
    pub fn note(&mut self, entry: u32)
        requires { 0 < self.old.spare }
        ensures entries { self.new.entries ≡ self.old.entries ++ entry ∷ [] }
        ensures spare { self.new.spare + 1 ≡ self.old.spare }
    {
        self.slots[self.len] = entry;
        self.len += 1;
    }

    /// Takes off the last number, unless only so many are left.
    pub fn back_to(&mut self, mark: u32) -> Option<u32>
        requires { mark ≤ length self.old.entries }
        ensures { MatchOption result ((length self.old.entries ≡ mark) × (self.new ≡ self.old)) (λ last. (self.old.entries ≡ self.new.entries ++ last ∷ []) × (mark ≤ length self.new.entries) × (self.new.spare ≡ self.old.spare + 1)) }
    {
        if self.len == mark as usize {
            return None;
        }
        self.len -= 1;
        Some(self.slots[self.len])
    }
}

// Zeros at the end, up to a length.
fn grow(slots: &mut Vec<u32>, wanted: usize) -> Result<(), AllocError>
    ensures front { take (length slots.old.items) slots.new.items ≡ slots.old.items }
    ensures long { OnOk result (wanted ≤ length slots.new.items) }
    ensures longer { length slots.old.items ≤ length slots.new.items }
    ensures bound { length slots.new.items ≤ max wanted (length slots.old.items) }
{
    while slots.len() < wanted {
        slots.push(0)?;
    }
    Ok(())
}
