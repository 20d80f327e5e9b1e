//! Formulas as parts of one list of symbols, and substitution.

ghost use Rattle.std.specs.Prelude.{◌≡◌, ◌==◌, ◌++◌, length, drop, take, position, OnOk};
ghost use Rattle.std.specs.List.{list_any};
ghost use Rattle.mm_base.specs.declared.symbols.Sym.{Sym};
ghost use Rattle.proof_model.specs.Machine.{is_float_of, same_formula, substitute, substituted};
ghost use Rattle.stack_verify.specs.Stacks.{IsWithin, formula_in};
ghost use Rattle.stack_verify.specs.Taken.{taken};

use crate::taken::Entries;
use mm_base::{Memory, Sym};
use mm_model::Hyp;

/// A part of a list: from one place, and up to another.
#[derive(Clone, Copy, Debug, PartialEq, Eq)]
pub(crate) struct Span {
    pub(crate) from: usize,
    pub(crate) to: usize,
}

/// The formula at a part of the symbols.
pub(crate) fn formula_in(symbols: &[Sym], span: Span) -> &[Sym]
    requires { IsWithin (length symbols.now) span }
    ensures { result.now ≡ formula_in symbols.now span }
{
    &symbols[span.from..span.to]
}

/// The first symbol alone.
pub(crate) fn typecode(formula: &[Sym]) -> &[Sym]
    ensures { result.now ≡ take 1 formula.now }
{
    &formula[..formula.len().min(1)]
}

/// What is behind the first symbol.
pub(crate) fn behind_typecode(formula: &[Sym]) -> &[Sym]
    ensures { result.now ≡ drop 1 formula.now }
{
    &formula[formula.len().min(1)..]
}

pub(crate) fn same_formula(one: &[Sym], other: &[Sym]) -> bool
    ensures { result ≡ same_formula one.now other.now }
{
    one == other
}

fn has_symbol(formula: &[Sym], symbol: Sym) -> bool
    ensures { result ≡ list_any (λ (v : Sym). v.0 == symbol.0) formula.now }
{
    formula.iter().any(|v| v.0 == symbol.0)
}

/// Whether a hypothesis is the `$f` of a variable.
fn is_float_of(symbol: Sym, hyp: &Hyp) -> bool
    ensures { result ≡ is_float_of symbol hyp.now }
{
    hyp.floating && has_symbol(behind_typecode(hyp.formula.as_slice()), symbol)
}

pub(crate) fn find_float(hyps: &[Hyp], symbol: Sym) -> Option<usize>
    ensures { result ≡ position (is_float_of symbol) hyps.now }
{
    hyps.iter().position(|hyp| is_float_of(symbol, hyp))
}

/// Puts what a symbol stands for behind the list.
fn push_substitute(out: &mut Vec<Sym>, entries: &Entries, symbol: Sym) -> Result<(), Memory>
    ensures { OnOk result (out.new.items ≡ out.old.items ++ substitute (taken entries.now) symbol) }
{
    match find_float(entries.hyps, symbol) {
        None => out.push(symbol)?,
        Some(place) => {
            out.extend_from_slice(behind_typecode(formula_in(
                entries.symbols,
                entries.spans[place],
            )))?;
        }
    }
    Ok(())
}

/// Puts the substituted formula behind the list.
pub(crate) fn push_substituted(
    out: &mut Vec<Sym>,
    entries: &Entries,
    formula: &[Sym],
) -> Result<(), Memory>
    ensures { OnOk result (out.new.items ≡ out.old.items ++ substituted (taken entries.now) formula.now) }
{
    for symbol in formula {
        push_substitute(out, entries, *symbol)?;
    }
    Ok(())
}
