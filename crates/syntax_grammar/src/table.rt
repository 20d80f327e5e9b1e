//! Lists by the numbers of symbols.

ghost use Rattle.std.specs.Prelude.{◌≡◌, ◌≤◌, ◌==◌, ◌++◌, ◌∷◌, [], ℕ, vec_len, OnOk, if◌then◌else◌};
ghost use Rattle.syntax_grammar.specs.Tables.{listed, listed_in};

use mm_base::{Memory, Sym};
use std::alloc::Global;

/// The numbers of productions by a symbol, at each in the order in which they were put in. It has a place for each symbol up to
/// the last at which something stands, so that looking one up is no more than reading it.
#[derive(Debug, Drop)]
pub struct Table {
    lists: Vec<Vec<usize>>,
}

/// Makes places with nothing at them, so that there are so many.
fn grow(lists: &mut Vec<Vec<usize>>, alloc: Global, len: usize) -> Result<(), Memory>
    ensures same { (q : ℕ) → listed_in lists.new.items q ≡ listed_in lists.old.items q }
    ensures long { OnOk result (len ≤ vec_len lists.new) }
{
    while lists.len() < len {
        lists.push(Vec::new(alloc))?;
    }
    Ok(())
}

impl Table {
    /// No numbers. It takes no memory.
    pub fn new(alloc: Global) -> Table
        ensures { (q : ℕ) → listed result q ≡ [] }
    {
        Table {
            lists: Vec::new(alloc),
        }
    }

    /// The numbers at a symbol. It takes constant time.
    pub fn at(&self, sym: Sym) -> &[usize]
        ensures { result.now ≡ listed self.now sym.0 }
    {
        match self.lists.get(sym.0 as usize) {
            None => &[],
            Some(numbers) => numbers.as_slice(),
        }
    }

    /// Adds a number at a symbol, behind those that are there. `Memory`: there is no room for it. The first number at a symbol
    /// takes time in proportion to the symbols before it that have no place yet.
    pub fn add(&mut self, alloc: Global, sym: Sym, number: usize) -> Result<(), Memory>
        ensures { OnOk result ((q : ℕ) → listed self.new q ≡ (if sym.0 == q then listed self.old q ++ number ∷ [] else listed self.old q)) }
    {
        grow(&mut self.lists, alloc, sym.0 as usize + 1)?;
        self.lists[sym.0 as usize].push(number)?;
        Ok(())
    }
}
