//! What is known of a theorem, for look-ups in constant time: its variables, and its active pairs.

ghost use Rattle.std.specs.Prelude.{◌≡◌, [], ◌∷◌, nat_eq, OnOk, IfOk};
ghost use Rattle.std.specs.List.{list_any};
ghost use Rattle.stack_verify.specs.Contexts.{AddsHyp, AddsSymbols, IsKnown, SamePairs, SameVariables, is_pair, joins};

use crate::formula::behind_typecode;
use indexmap::IndexSet;
use mm_base::{Memory, Pair, Sym};
use mm_model::Hyp;
use number_set::NumberSet;
use proof_model::Theorem;
use std::alloc::Global;

#[derive(Drop)]
pub(crate) struct Known {
    /// The symbols that an active `$f` has behind its typecode.
    variables: NumberSet,
    /// The pairs, each by its two symbols.
    pairs: IndexSet<(u32, u32)>,
}

fn add_symbol(set: &mut NumberSet, symbol: Sym) -> Result<(), Memory>
    ensures { OnOk result (AddsSymbols set.old set.new (symbol ∷ [])) }
{
    if !set.contains(symbol.0) {
        set.insert(symbol.0)?;
    }
    Ok(())
}

fn add_symbols(set: &mut NumberSet, symbols: &[Sym]) -> Result<(), Memory>
    ensures { OnOk result (AddsSymbols set.old set.new symbols.now) }
{
    for symbol in symbols {
        add_symbol(set, *symbol)?;
    }
    Ok(())
}

/// Puts in the variable of a `$f`.
fn add_hyp(set: &mut NumberSet, hyp: &Hyp) -> Result<(), Memory>
    ensures { OnOk result (AddsHyp set.old set.new hyp.now) }
{
    if hyp.floating {
        return add_symbols(set, behind_typecode(hyp.formula.as_slice()));
    }
    Ok(())
}

/// The variables of the hypotheses.
fn variables_of(alloc: Global, hyps: &[Hyp]) -> Result<NumberSet, Memory>
    ensures { IfOk result (λ set. SameVariables hyps.now set) }
{
    let mut set = NumberSet::new(alloc);
    for hyp in hyps {
        add_hyp(&mut set, hyp)?;
    }
    Ok(set)
}

fn pairs_of(alloc: Global, pairs: &[Pair]) -> Result<IndexSet<(u32, u32)>, Memory>
    ensures { IfOk result (λ set. SamePairs pairs.now set.keys) }
{
    let mut set = IndexSet::new(alloc);
    for pair in pairs {
        set.insert((pair.a.0, pair.b.0))?;
    }
    Ok(set)
}

fn has_pair(pairs: &IndexSet<(u32, u32)>, v: u32, w: u32) -> bool
    ensures { result ≡ list_any (is_pair v w) pairs.now.keys }
{
    pairs.contains(&(v, w))
}

impl Known {
    /// What is known of the theorem.
    pub(crate) fn new(alloc: Global, theorem: &Theorem) -> Result<Known, Memory>
        ensures { IfOk result (λ known. IsKnown theorem.now known) }
    {
        Ok(Known {
            variables: variables_of(alloc, theorem.hyps.as_slice())?,
            pairs: pairs_of(alloc, theorem.pairs.as_slice())?,
        })
    }

    pub(crate) fn is_variable(&self, symbol: Sym) -> bool
        ensures { result ≡ list_any (nat_eq symbol.0) self.now.variables }
    {
        self.variables.contains(symbol.0)
    }

    /// Whether the two are an active pair, in either order.
    pub(crate) fn is_active_pair(&self, v: Sym, w: Sym) -> bool
        ensures { result ≡ joins self.now.pairs.keys (v, w) }
    {
        has_pair(&self.pairs, v.0, w.0) || has_pair(&self.pairs, w.0, v.0)
    }
}
