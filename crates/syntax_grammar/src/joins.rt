ghost use Rattle.std.specs.Prelude.{◌≡◌, ◌==◌, ◌&&◌, ◌||◌, ℕ, false, List, IfOk, OnOk};
ghost use Rattle.mm_model.specs.declared.rows.Production.{Production};
ghost use Rattle.mm_model.specs.Chains as chain;
ghost use Rattle.syntax_grammar.specs.Joins as spec;

use mm_base::{Memory, Rows, Typecode};
use number_set::NumberSet;
use std::alloc::Global;

/// Which typecodes chains join.
#[derive(Drop)]
pub struct Joins {
    /// To which typecodes a chain leads, by the typecode where it begins, each once.
    ends: Rows<Typecode>,
    /// What a walk has reached.
    reached: NumberSet,
}

/// Puts in those typecodes that are not there.
fn reach_each(reached: &mut NumberSet, codes: &[Typecode]) -> Result<(), Memory>
    ensures { OnOk result (spec.IsReachedToo reached.old reached.new codes.now) }
{
    for code in codes {
        if !reached.contains(code.0.0) {
            reached.insert(code.0.0)?;
        }
    }
    Ok(())
}

/// Reaches all to which chains lead from a typecode, and no others. It looks at each chain at most once.
fn reach(ends: &Rows<Typecode>, reached: &mut NumberSet, from: Typecode) -> Result<(), Memory>
    ensures { OnOk result (spec.IsReached (spec.is_noted ends.now) from.0.0 reached.new) }
{
    reached.cut(0);
    reached.insert(from.0.0)?;
    let mut done = 0;
    while done < reached.len() {
        let code = reached.items()[done];
        reach_each(reached, ends.at(code as u64))?;
        done += 1;
    }
    Ok(())
}

/// Whether the typecode is among some.
fn has_code(codes: &[Typecode], code: Typecode) -> bool
    ensures { result ≡ spec.has_code codes.now code.0.0 }
{
    codes.iter().any(|one| code.0.0 == one.0.0)
}

impl Joins {
    /// No chains. It takes no memory.
    pub fn new(alloc: Global) -> Joins
        ensures { (q e : ℕ) → spec.is_noted result.ends q e ≡ false }
    {
        Joins {
            ends: Rows::new(alloc),
            reached: NumberSet::new(alloc),
        }
    }

    /// Whether chains lead from one typecode to another, which may be the same. It takes time in proportion to the chains
    /// that are reached, those that join the same two typecodes counted once.
    pub fn leads(&mut self, from: Typecode, to: Typecode) -> Result<bool, Memory>
        ensures same { self.new.ends ≡ self.old.ends }
        ensures leads { IfOk result (λ b. (rows : List Production)
            → ((q e : ℕ) → spec.is_noted self.old.ends q e ≡ spec.has_chain rows q e) → b ≡ chain.leads rows from to) }
    {
        reach(&self.ends, &mut self.reached, from)?;
        Ok(self.reached.contains(to.0.0))
    }

    /// Takes a chain.
    pub fn add(&mut self, alloc: Global, from: Typecode, to: Typecode) -> Result<(), Memory>
        ensures { OnOk result ((q e : ℕ) → spec.is_noted self.new.ends q e
            ≡ (spec.is_noted self.old.ends q e || (from.0.0 == q && e == to.0.0))) }
    {
        if has_code(self.ends.at(from.0.0 as u64), to) {
            return Ok(());
        }
        self.ends.add(alloc, from.0.0 as u64, to)?;
        Ok(())
    }
}
