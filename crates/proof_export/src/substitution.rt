//! The formula that an assertion gives.

ghost use Rattle.std.specs.Prelude.{◌≡◌, ◌==◌, ◌++◌, length, drop, position, OnOk, IfOk};
ghost use Rattle.std.specs.List.{list_any, zip};
ghost use Rattle.mm_base.specs.declared.symbols.Sym.{Sym};
ghost use Rattle.proof_model.specs.Machine.{is_float_of, substitute, substituted};

use mm_base::{List, Memory, Sym};
use mm_model::Hyp;
use std::alloc::Global;

fn behind_typecode(formula: &[Sym]) -> &[Sym]
    ensures { result.now ≡ drop 1 formula.now }
{
    &formula[formula.len().min(1)..]
}

fn has_symbol(formula: &[Sym], symbol: Sym) -> bool
    ensures { result ≡ list_any (λ (v : Sym). v.0 == symbol.0) formula.now }
{
    formula.iter().any(|v| v.0 == symbol.0)
}

/// Whether a hypothesis is the `$f` of a variable.
fn is_float_of(symbol: Sym, hyp: &Hyp) -> bool
    ensures { result ≡ is_float_of symbol hyp.now }
{
    hyp.floating && has_symbol(behind_typecode(hyp.formula.as_slice()), symbol)
}

fn find_float(hyps: &[Hyp], symbol: Sym) -> Option<usize>
    ensures { result ≡ position (is_float_of symbol) hyps.now }
{
    hyps.iter().position(|hyp| is_float_of(symbol, hyp))
}

/// Puts what a symbol stands for behind the list, where these entries are taken for the hypotheses.
fn push_substitute(
    out: &mut Vec<Sym>,
    hyps: &[Hyp],
    entries: &[List<Sym>],
    symbol: Sym,
) -> Result<(), Memory>
    requires { length entries.now ≡ length hyps.now }
    ensures { OnOk result (out.new.items ≡ out.old.items ++ substitute (zip hyps.now entries.now) symbol) }
{
    match find_float(hyps, symbol) {
        None => out.push(symbol)?,
        Some(place) => out.extend_from_slice(behind_typecode(entries[place].as_slice()))?,
    }
    Ok(())
}

/// The formula with the entries in place of the variables.
pub(crate) fn substituted(
    alloc: Global,
    hyps: &[Hyp],
    entries: &[List<Sym>],
    formula: &[Sym],
) -> Result<List<Sym>, Memory>
    requires { length entries.now ≡ length hyps.now }
    ensures { IfOk result (λ f. f ≡ substituted (zip hyps.now entries.now) formula.now) }
{
    let mut out = Vec::new(alloc);
    for symbol in formula {
        push_substitute(&mut out, hyps, entries, *symbol)?;
    }
    Ok(List::from_vec(out))
}
