//! Sets of pairs of distinct variables, by lesser and then greater symbol number.
#![tactic(auto)]

ghost use Rattle.std.specs.Prelude.{◌≡◌, [], IfOk, OnOk, OnErr};
ghost use Rattle.solve_model.specs.PairSets.{ordered, put_pair};

use mm_base::{List, Memory, Pair, Sym};
use std::alloc::Global;
use std::collections::BTreeSet;
use std::marker::Model;

/// A set of pairs of variables. Contracts see it as the list of the pairs, each once, by lesser and then greater symbol
/// number.
#[derive(Drop)]
pub struct PairSet {
    /// The numbers of two variables, the lesser first.
    keys: BTreeSet<(u32, u32)>,
}

impl Model for PairSet {
    ghost use Rattle.std.specs.Prelude.{List};
    ghost use Rattle.mm_base.specs.declared.symbols.Pair.{Pair};
    ghost use Rattle.pair_set.specs.PairKeys.{pairs_of};

    ghost Value = { List Pair };

    ghost view = { λ set. pairs_of set.keys };
}

impl PairSet {
    /// The set without pairs. It takes no memory.
    pub fn new(alloc: Global) -> PairSet
        ensures { result ≡ [] }
    {
        PairSet {
            keys: BTreeSet::new(alloc),
        }
    }

    /// Puts in the pair of two variables, in either order; one that is there stays. It takes a number of steps in
    /// proportion to the logarithm of the size of the set. `Memory`: there is no room for it, and the set is as before.
    pub fn add(&mut self, one: Sym, other: Sym) -> Result<(), Memory>
        ensures added { OnOk result (self.new ≡ put_pair self.old (ordered one other)) }
        ensures same { OnErr result (self.new ≡ self.old) }
    {
        self.keys.insert(key_of(one, other))?;
        Ok(())
    }

    /// The pairs, in order, in the time and memory of a list of them. `Memory`: there is no room for it.
    pub fn listed(&self, alloc: Global) -> Result<List<Pair>, Memory>
        ensures { IfOk result (λ pairs. pairs ≡ self.now) }
    {
        let pairs = self
            .keys
            .iter()
            .map(|key| Pair {
                a: Sym(key.0),
                b: Sym(key.1),
            })
            .collect(alloc)?;
        Ok(List::from_vec(pairs))
    }
}

ghost use Rattle.pair_set.specs.PairKeys.{pair_of};

fn key_of(one: Sym, other: Sym) -> (u32, u32)
    ensures { pair_of result ≡ ordered one other }
{
    if one.0 < other.0 {
        (one.0, other.0)
    } else {
        (other.0, one.0)
    }
}
