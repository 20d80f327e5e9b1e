ghost use Rattle.std.specs.Prelude.{◌≡◌, ◌==◌, ◌++◌, ◌∷◌, [], ℕ, OnOk, OnErr, if◌then◌else◌};
ghost use Rattle.mm_base.specs.Rows.{row_at};

use crate::errors::Memory;
use std::alloc::Global;
use std::collections::HashMap;

/// Items by a number, at each in the order in which they were put in.
#[derive(Debug, Drop)]
pub struct Rows<T> {
    rows: HashMap<u64, Vec<T>>,
}

impl<T> Rows<T> {
    /// No items. It takes no memory.
    pub fn new(alloc: Global) -> Rows<T>
        ensures { (q : ℕ) → row_at result q ≡ [] }
    {
        Rows {
            rows: HashMap::new(alloc),
        }
    }

    /// The items at a key. It takes constant time.
    pub fn at(&self, key: u64) -> &[T]
        ensures { result.now ≡ row_at self.now key }
    {
        match self.rows.get(&key) {
            None => &[],
            Some(items) => items.as_slice(),
        }
    }
}

impl<T: Copy> Rows<T> {
    /// Adds an item at a key, behind those that are there. `Memory`: there is no room for it, and the items stay as they
    /// were.
    pub fn add(&mut self, alloc: Global, key: u64, item: T) -> Result<(), Memory>
        ensures added { OnOk result ((q : ℕ) → row_at self.new q
            ≡ (if key == q then row_at self.old q ++ item ∷ [] else row_at self.old q)) }
        ensures same { OnErr result ((q : ℕ) → row_at self.new q ≡ row_at self.old q) }
    {
        match self.rows.get_mut(&key) {
            Some(items) => {
                items.push(item)?;
                Ok(())
            }
            None => {
                let mut items = Vec::new(alloc);
                items.push(item)?;
                self.rows.insert(key, items)?;
                Ok(())
            }
        }
    }
}
