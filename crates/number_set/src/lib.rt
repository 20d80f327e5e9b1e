//! A set of numbers, in the order in which they were put in, that can be cut back.
#![tactic(auto)]

ghost use Rattle.std.specs.Prelude.{◌≡◌, ℕ, ◌+◌, ◌<◌, ◌≤◌, List, [], ◌∷◌, ◌++◌, length, take, false, nat_eq, position, slice_get, OnOk, OnErr, vec_len};
ghost use Rattle.std.specs.List.{list_any};
ghost use Rattle.number_set.specs.Noted.{Noted, Keeps};

use mm_base::Memory;
use std::alloc::Global;
use std::marker::Model;

/// A list of numbers that differ. Whether a number is among them, putting one in and cutting the list back take
/// constant time; the memory is in proportion to the greatest number that was ever in it.
#[derive(Drop)]
pub struct NumberSet {
    /// The numbers.
    items: Vec<u32>,
    /// The place of each of them by number, where others may be noted too.
    places: Vec<usize>,
}

impl Model for NumberSet {
    ghost Value = { List ℕ };

    ghost view = { λ s. s.items.items };

    ghost invariant = { λ s. Noted s.items.items s.places.items };
}

/// Makes a list at least so long.
fn grow(places: &mut Vec<usize>, len: usize) -> Result<(), Memory>
    ensures kept { Keeps places.old.items places.new.items }
    ensures long { OnOk result (len ≤ vec_len places.new) }
{
    while places.len() < len {
        places.push(0)?;
    }
    Ok(())
}

fn place(places: &[usize], number: u32) -> Option<usize>
    ensures { result ≡ slice_get places.now number }
{
    places.get(number as usize).copied()
}

fn item(items: &[u32], place: usize) -> Option<u32>
    ensures { result ≡ slice_get items.now place }
{
    items.get(place).copied()
}

impl NumberSet {
    /// No numbers. It takes no memory.
    pub fn new(alloc: Global) -> NumberSet
        ensures { result ≡ [] }
    {
        NumberSet {
            items: Vec::new(alloc),
            places: Vec::new(alloc),
        }
    }

    /// The numbers, in the order in which they were put in.
    pub fn items(&self) -> &[u32]
        ensures { result.now ≡ self.now }
    {
        self.items.as_slice()
    }

    /// How many numbers there are.
    pub fn len(&self) -> usize
        ensures { result ≡ length self.now }
    {
        self.items.len()
    }

    /// Whether a number is among them.
    pub fn contains(&self, number: u32) -> bool
        ensures { result ≡ list_any (nat_eq number) self.now }
    {
        match place(self.places.as_slice(), number) {
            None => false,
            Some(place) => match item(self.items.as_slice(), place) {
                None => false,
                Some(item) => item == number,
            },
        }
    }

    /// Where a number stands, counted from 0. None where it is not among them.
    pub fn place(&self, number: u32) -> Option<usize>
        ensures { result ≡ position (nat_eq number) self.now }
    {
        match place(self.places.as_slice(), number) {
            None => None,
            Some(place) => match item(self.items.as_slice(), place) {
                None => None,
                Some(item) => {
                    if item == number {
                        return Some(place);
                    }
                    None
                }
            },
        }
    }

    /// Puts in a number that is not there.
    pub fn insert(&mut self, number: u32) -> Result<(), Memory>
        requires { list_any (nat_eq number) self.old ≡ false }
        ensures put { OnOk result (self.new ≡ self.old ++ number ∷ []) }
        ensures same { OnErr result (self.new ≡ self.old) }
    {
        grow(&mut self.places, number as usize + 1)?;
        self.places[number as usize] = self.items.len();
        self.items.push(number)?;
        Ok(())
    }

    /// Takes off all but the first so many.
    pub fn cut(&mut self, len: usize)
        ensures { self.new ≡ take len self.old }
    {
        self.items.truncate(len);
    }
}
