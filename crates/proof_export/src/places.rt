//! The first step with each formula.

ghost use Rattle.std.specs.Prelude.{◌≡◌, List, ◌++◌, ◌∷◌, [], length, OnOk, IfOk};
ghost use Rattle.proof_model.specs.Machine.{Formula};
ghost use Rattle.proof_export.specs.Places.{AreSteps, key_of, number_at};

use indexmap::IndexMap;
use mm_base::{Memory, Sym};
use std::alloc::Global;

/// The numbers of the symbols.
fn key_of(alloc: Global, formula: &[Sym]) -> Result<Vec<u32>, Memory>
    ensures { IfOk result (λ key. key.items ≡ key_of formula.now) }
{
    let mut key = Vec::new(alloc);
    for symbol in formula {
        key.push(symbol.0)?;
    }
    Ok(key)
}

/// The number of the first step with a formula.
pub(crate) fn first_step(
    alloc: Global,
    places: &IndexMap<Vec<u32>, u32>,
    formula: &[Sym],
) -> Result<Option<u32>, Memory>
    ensures { IfOk result (λ number. number ≡ number_at places.now.entries (key_of formula.now)) }
{
    let key = key_of(alloc, formula)?;
    Ok(places.get(key.as_slice()).copied())
}

/// Puts in the step of this number, if no step has its formula.
pub(crate) fn put_step(
    alloc: Global,
    places: &mut IndexMap<Vec<u32>, u32>,
    formula: &[Sym],
    number: u32,
) -> Result<(), Memory>
    ensures { OnOk result ((steps : List Formula) → length steps ≡ number → AreSteps steps places.old.entries → AreSteps (steps ++ formula.now ∷ []) places.new.entries) }
{
    let key = key_of(alloc, formula)?;
    if !places.contains_key(key.as_slice()) {
        places.insert(key, number)?;
    }
    Ok(())
}
