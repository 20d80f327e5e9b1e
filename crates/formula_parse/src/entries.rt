ghost use Rattle.std.specs.Prelude.{◌≡◌, ◌<◌, ◌≤◌, ◌^◌, ◌∷◌, ℕ, List, [], length, slice_get, IsTrue, IfOk, OnOk, Some};
ghost use Rattle.mm_base.specs.Rows.{row_at};
ghost use Rattle.formula_parse.specs.declared.reach.Entry.{Entry};
ghost use Rattle.formula_parse.specs.Charts.{IsIn, Stays, IsOnce};
ghost use Rattle.formula_parse.specs.Noted.{AreNoted};

use crate::reach::Entry;
use mm_base::{List, Memory, Rows};
use std::alloc::Global;
use std::marker::Model;

/// Notes where an entry will stand, by its end, if it is not among the first 16.
fn note(later: &mut Rows<usize>, alloc: Global, end: usize, place: usize) -> Result<(), Memory>
    ensures noted { OnOk result (16 ≤ place → IsIn (row_at later.new end) place) }
    ensures kept { (q i : ℕ) → IsIn (row_at later.old q) i → IsIn (row_at later.new q) i }
{
    if place < 16 {
        return Ok(());
    }
    later.add(alloc, end as u64, place)?;
    Ok(())
}

/// The entries of a place, each once, in the order in which they were found. To find an entry among them takes as many
/// steps as there are entries with its end, and 16.
#[derive(Drop)]
pub struct Entries {
    items: Vec<Entry>,
    /// Where those stand that are not among the first 16, which are looked through one by one.
    later: Rows<usize>,
}

impl Model for Entries {
    ghost use Rattle.std.specs.Prelude.{List};
    ghost use Rattle.formula_parse.specs.declared.reach.Entry.{Entry};
    ghost use Rattle.formula_parse.specs.Noted.{AreNoted};

    ghost Value = { List Entry };

    ghost view = { λ s. s.items.items };

    ghost invariant = { λ s. AreNoted s.items.items s.later };
}

/// Whether the entry stands at this place.
fn is_at(items: &[Entry], place: usize, entry: Entry) -> bool
    ensures there { IsTrue result → slice_get items.now place ≡ Some entry }
    ensures sees { slice_get items.now place ≡ Some entry → IsTrue result }
{
    match items.get(place) {
        None => false,
        Some(other) => *other == entry,
    }
}

/// Whether the entry is among the first 16.
fn is_early(items: &[Entry], entry: Entry) -> bool
    ensures found { IsTrue result → IsIn items.now entry }
    ensures early { (i : ℕ) → i < 16 → slice_get items.now i ≡ Some entry → IsTrue result }
{
    for k in 0..items.len() {
        if k == 16 {
            return false;
        }
        if is_at(items, k, entry) {
            return true;
        }
    }
    false
}

/// Whether the entry stands at one of these places.
fn is_later(items: &[Entry], places: &[usize], entry: Entry) -> bool
    ensures found { IsTrue result → IsIn items.now entry }
    ensures later { (i : ℕ) → IsIn places.now i → slice_get items.now i ≡ Some entry → IsTrue result }
{
    for place in places {
        if is_at(items, *place, entry) {
            return true;
        }
    }
    false
}

/// Whether the entry stands in the list, of which `later` notes the places.
fn finds(items: &[Entry], later: &Rows<usize>, entry: Entry) -> bool
    ensures found { IsTrue result → IsIn items.now entry }
    ensures all { AreNoted items.now later.now → IsIn items.now entry → IsTrue result }
{
    if is_early(items, entry) {
        return true;
    }
    is_later(items, later.at(entry.end as u64), entry)
}

impl Entries {
    /// No entries. It takes no memory.
    pub fn new(alloc: Global) -> Entries
        ensures { result ≡ [] }
    {
        Entries {
            items: Vec::new(alloc),
            later: Rows::new(alloc),
        }
    }

    /// An entry alone.
    pub fn of(alloc: Global, entry: Entry) -> Result<Entries, Memory>
        ensures { IfOk result (λ entries. entries ≡ entry ∷ []) }
    {
        let mut items = Vec::new(alloc);
        items.push(entry)?;
        Ok(Entries {
            items,
            later: Rows::new(alloc),
        })
    }

    /// Adds an entry that does not stand there.
    pub fn add(&mut self, entry: Entry) -> Result<(), Memory>
        ensures stays { OnOk result (Stays self.old self.new) }
        ensures stands { OnOk result (IsIn self.new entry) }
        ensures once { OnOk result (IsOnce self.old → IsOnce self.new) }
    {
        if finds(self.items.as_slice(), &self.later, entry) {
            return Ok(());
        }
        let alloc = *self.items.allocator();
        note(&mut self.later, alloc, entry.end, self.items.len())?;
        self.items.push(entry)?;
        Ok(())
    }

    /// How many there are.
    pub fn len(&self) -> usize
        ensures { result ≡ length self.now }
    {
        self.items.len()
    }

    pub fn as_slice(&self) -> &[Entry]
        ensures { result.now ≡ self.now }
    {
        self.items.as_slice()
    }

    pub fn into_list(self) -> List<Entry>
        ensures same { result ≡ self }
        ensures small { length self < 2 ^ 64 }
    {
        List::from_vec(self.items)
    }
}
