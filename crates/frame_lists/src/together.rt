//! Which variables stand together in active `$d`, kept from one assertion to the next.

ghost use Rattle.std.specs.Prelude.{◌≡◌, [], IfOk, map};
ghost use Rattle.frame_lists.specs.Steps.{pairs_all};

use crate::listed::Listed;
use crate::pairs::add_pairs;
use mm_base::{Memory, Sym};
use number_set::NumberSet;
use std::alloc::Global;
use std::collections::HashMap;

/// So many `$d` are looked at one by one before they are taken in.
const FEW: usize = 64;

/// A `$d` with more symbols is not taken in.
const WIDE: usize = 64;

/// The first ones of the active `$d`, with the pairs of variables that stand together in them.
#[derive(Drop)]
pub(crate) struct Together {
    /// The numbers of the `$d`, in order.
    pub numbers: NumberSet,
    /// By two variables, the lesser first, the number of a `$d` that has both; it may be one that is active no more.
    pub places: HashMap<(u32, u32), u32>,
}

/// The numbers of symbols.
fn numbers_of(alloc: Global, symbols: &[Sym]) -> Result<Vec<u32>, Memory>
    ensures { IfOk result (λ v. v.items ≡ map (λ (s : Sym). s.0) symbols.now) }
{
    let mut numbers = Vec::with_capacity(alloc, symbols.len())?;
    for symbol in symbols {
        numbers.push(symbol.0)?;
    }
    Ok(numbers)
}

/// All pairs of symbols, the lesser first.
fn pairs_of(alloc: Global, symbols: &[Sym]) -> Result<Vec<(u32, u32)>, Memory>
    ensures { IfOk result (λ v. v.items ≡ pairs_all [] (map (λ (s : Sym). s.0) symbols.now)) }
{
    let numbers = numbers_of(alloc, symbols)?;
    let mut pairs = Vec::new(alloc);
    add_pairs(&mut pairs, numbers.as_slice())?;
    Ok(pairs)
}

impl Together {
    ghost use Rattle.std.specs.Prelude.{◌≡◌, ◌++◌, ◌∷◌, ◌&&◌, [], ℕ, OnOk, IfOk, if◌then◌else◌, not, Some, None, take, length, false};
    ghost use Rattle.frame_lists.specs.Steps.{has};
    ghost use Rattle.frame_lists.specs.Together.{place_of, has_pair, same_pair, IsNoted, IsTogether, IsFront};

    pub fn new(alloc: Global) -> Together
        ensures numbers { result.numbers ≡ [] }
        ensures places { (q : ℕ × ℕ) → place_of result q ≡ None }
    {
        Together {
            numbers: NumberSet::new(alloc),
            places: HashMap::new(alloc),
        }
    }

    /// Whether two variables, the lesser first, stand together in one of the `$d`.
    pub fn has(&self, pair: (u32, u32)) -> bool
        ensures { result ≡ has_pair self.now pair }
    {
        match self.places.get(&pair) {
            None => false,
            Some(number) => self.numbers.contains(*number),
        }
    }

    /// Notes for two variables the number of a `$d`, where they do not stand together in one of the `$d` yet.
    fn note(&mut self, pair: (u32, u32), number: u32) -> Result<(), Memory>
        ensures numbers { OnOk result (self.new.numbers ≡ self.old.numbers) }
        ensures places { OnOk result ((q : ℕ × ℕ) → place_of self.new q
            ≡ (if same_pair pair q && not (has_pair self.old pair) then Some number else place_of self.old q)) }
    {
        if !self.has(pair) {
            self.places.insert(pair, number)?;
        }
        Ok(())
    }

    fn note_all(&mut self, pairs: &[(u32, u32)], number: u32) -> Result<(), Memory>
        ensures { OnOk result (IsNoted self.old number pairs.now self.new) }
    {
        for pair in pairs {
            self.note(*pair, number)?;
        }
        Ok(())
    }

    /// Takes in a `$d` behind those that are there.
    fn push(&mut self, alloc: Global, listed: &Listed, number: u32) -> Result<(), Memory>
        requires { has self.old.numbers number ≡ false }
        ensures numbers { OnOk result (self.new.numbers ≡ self.old.numbers ++ number ∷ []) }
        ensures whole { OnOk result (IsTogether listed.now self.old → IsTogether listed.now self.new) }
    {
        let pairs = pairs_of(alloc, listed.symbols(number))?;
        self.note_all(pairs.as_slice(), number)?;
        self.numbers.insert(number)
    }

    /// Leaves out all but the first so many.
    pub fn cut(&mut self, len: usize)
        ensures numbers { self.new.numbers ≡ take len self.old.numbers }
        ensures places { (q : ℕ × ℕ) → place_of self.new q ≡ place_of self.old q }
    {
        self.numbers.cut(len);
    }

    /// Takes in the `$d` that are not there yet, up to the first that is wide.
    fn take_in(&mut self, alloc: Global, listed: &Listed, distinct: &[u32]) -> Result<(), Memory>
        requires { IsFront listed.now distinct.now self.old }
        ensures { OnOk result (IsFront listed.now distinct.now self.new) }
    {
        for place in self.numbers.len()..distinct.len() {
            let number = distinct[place];
            if self.numbers.contains(number) {
                return Ok(());
            }
            if listed.symbols(number).len() > WIDE {
                return Ok(());
            }
            self.push(alloc, listed, number)?;
        }
        Ok(())
    }

    /// Takes in the `$d` that are not there yet, where those are more than a few. `Memory`: memory ran out.
    pub fn follow(&mut self, alloc: Global, listed: &Listed, distinct: &[u32]) -> Result<(), Memory>
        requires { IsFront listed.now distinct.now self.old }
        ensures { OnOk result (IsFront listed.now distinct.now self.new) }
    {
        if distinct.len().saturating_sub(self.numbers.len()) > FEW {
            return self.take_in(alloc, listed, distinct);
        }
        Ok(())
    }
}
