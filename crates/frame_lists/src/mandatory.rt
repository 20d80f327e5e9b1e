//! The variables of an assertion and of the active `$e`.

ghost use Rattle.std.specs.Prelude.{◌≡◌, OnOk};
ghost use Rattle.frame_lists.specs.Steps.{marked, marked_all, mandatory};

use crate::listed::Listed;
use crate::scope::Scope;
use mm_base::{Memory, Sym};
use number_set::NumberSet;

/// Puts the active variables among the symbols into the set.
fn mark(set: &mut NumberSet, variables: &NumberSet, symbols: &[Sym]) -> Result<(), Memory>
    ensures { OnOk result (set.new ≡ marked variables.now set.old symbols.now) }
{
    for symbol in symbols {
        if variables.contains(symbol.0) && !set.contains(symbol.0) {
            set.insert(symbol.0)?;
        }
    }
    Ok(())
}

/// Puts those of the active `$e` into it.
fn mark_essentials(
    set: &mut NumberSet,
    variables: &NumberSet,
    listed: &Listed,
    essentials: &[u32],
) -> Result<(), Memory>
    ensures { OnOk result (set.new ≡ marked_all listed.now variables.now set.old essentials.now) }
{
    for label in essentials {
        mark(set, variables, listed.symbols(listed.position(*label)))?;
    }
    Ok(())
}

/// Makes the set that of the mandatory variables of an assertion with these symbols.
pub(crate) fn mark_mandatory(
    set: &mut NumberSet,
    scope: &Scope,
    listed: &Listed,
    symbols: &[Sym],
) -> Result<(), Memory>
    ensures { OnOk result (set.new ≡ mandatory listed.now scope.now symbols.now) }
{
    set.cut(0);
    mark(set, &scope.variables, symbols)?;
    mark_essentials(set, &scope.variables, listed, scope.essentials.as_slice())
}
