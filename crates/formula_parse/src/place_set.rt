ghost use Rattle.std.specs.Prelude.{◌≡◌, ◌≢◌, ◌<◌, ℕ, List, [], true, slice_get, vec_len, IsTrue, OnOk, Some};
ghost use Rattle.formula_parse.specs.Charts.{IsIn, Stays};
ghost use Rattle.formula_parse.specs.Noted.{AreMarked};

use mm_base::Memory;
use std::alloc::Global;
use std::marker::Model;

/// Places of a text, in the order in which they were found. A place that is added and is among them is not added again;
/// whether it is among them takes constant time.
#[derive(Drop)]
pub struct PlaceSet {
    /// The places.
    items: Vec<usize>,
    /// Whether a place is among them, by place.
    marks: Vec<bool>,
}

impl Model for PlaceSet {
    ghost Value = { List ℕ };

    ghost view = { λ s. s.items.items };

    ghost invariant = { λ s. AreMarked s.items.items s.marks.items };
}

fn is_marked(marks: &[bool], place: usize) -> bool
    ensures { IsTrue result → slice_get marks.now place ≡ Some true }
{
    match marks.get(place) {
        None => false,
        Some(mark) => *mark,
    }
}

/// Makes a list of marks longer than a place.
fn grow(marks: &mut Vec<bool>, place: usize) -> Result<(), Memory>
    ensures kept { (p : ℕ) → slice_get marks.new.items p ≡ Some true → slice_get marks.old.items p ≡ Some true }
    ensures long { OnOk result (place < vec_len marks.new) }
{
    while marks.len() <= place {
        marks.push(false)?;
    }
    Ok(())
}

fn mark(marks: &mut Vec<bool>, place: usize) -> Result<(), Memory>
    ensures { (p : ℕ) → slice_get marks.new.items p ≡ Some true → p ≢ place → slice_get marks.old.items p ≡ Some true }
{
    grow(marks, place)?;
    marks[place] = true;
    Ok(())
}

impl PlaceSet {
    /// No places. It takes no memory.
    pub fn new(alloc: Global) -> PlaceSet
        ensures { result ≡ [] }
    {
        PlaceSet {
            items: Vec::new(alloc),
            marks: Vec::new(alloc),
        }
    }

    /// Adds a place that does not stand there.
    pub fn add(&mut self, place: usize) -> Result<(), Memory>
        ensures stays { OnOk result (Stays self.old self.new) }
        ensures stands { OnOk result (IsIn self.new place) }
    {
        if is_marked(self.marks.as_slice(), place) {
            return Ok(());
        }
        self.items.push(place)?;
        mark(&mut self.marks, place)?;
        Ok(())
    }

    /// The places.
    pub fn into_vec(self) -> Vec<usize>
        ensures { result.items ≡ self }
    {
        self.items
    }
}
