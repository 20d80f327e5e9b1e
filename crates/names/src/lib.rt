//! Names with their numbers, in the order in which they were put in.
#![tactic(auto)]

ghost use Rattle.std.specs.Prelude.{◌≡◌, ℕ, ◌+◌, ◌-◌, ◌^◌, ◌<◌, ◌≤◌, List, [], ◌∷◌, ◌++◌, length, map, position, slice_index_or, false, OnOk, OnErr, IfOk};
ghost use Rattle.std.specs.List.{list_any};
ghost use Rattle.std.specs.Str.{bytes_eq};

use indexmap::IndexSet;
use mm_base::Memory;
use std::alloc::Global;
use std::marker::Model;

/// A list of names that differ, with a look-up of the number of a name in constant time. Numbers count from 0.
#[derive(Drop)]
pub struct Names {
    alloc: Global,
    set: IndexSet<Vec<u8>>,
}

impl Model for Names {
    ghost Value = { List (List ℕ) };

    ghost view = { λ n. map (λ k. k.items) n.set.keys };

    ghost invariant = { λ n. length n.set.keys < 2 ^ 32 };
}

impl Names {
    /// No names. It takes no memory.
    pub fn new(alloc: Global) -> Names
        ensures { result ≡ [] }
    {
        Names {
            alloc,
            set: IndexSet::new(alloc),
        }
    }

    /// Whether the name is among them.
    pub fn contains(&self, name: &[u8]) -> bool
        ensures { result ≡ list_any (bytes_eq name.now) self.now }
    {
        self.set.contains(name)
    }

    /// The number of a name; none where it is not among them.
    pub fn number(&self, name: &[u8]) -> Option<u32>
        ensures { result ≡ position (bytes_eq name.now) self.now }
    {
        match self.set.get_index_of(name) {
            None => None,
            Some(number) => Some(number as u32),
        }
    }

    /// The name of a number.
    pub fn name(&self, number: u32) -> &[u8]
        requires { number < length self.now }
        ensures { result.now ≡ slice_index_or self.now number [] }
    {
        self.set[number as usize].as_slice()
    }

    /// How many names there are.
    pub fn count(&self) -> u32
        ensures { result ≡ length self.now }
    {
        self.set.len() as u32
    }

    /// Puts in a name that is not there, and gives its number.
    pub fn add(&mut self, name: &[u8]) -> Result<u32, Memory>
        requires absent { list_any (bytes_eq name.now) self.old ≡ false }
        requires room { length self.old + 1 < 2 ^ 32 }
        ensures added { OnOk result (self.new ≡ self.old ++ name.now ∷ []) }
        ensures number { IfOk result (λ i. i ≡ length self.old) }
        ensures same { OnErr result (self.new ≡ self.old) }
    {
        let (number, _) = self.set.insert_full(Vec::from_slice(self.alloc, name)?)?;
        Ok(number as u32)
    }
}
