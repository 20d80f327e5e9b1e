//! The labels of the `$f` of variables.

ghost use Rattle.std.specs.Prelude.{◌≡◌, drop, nat_eq, IfOk, OnOk};
ghost use Rattle.std.specs.HashMap.{get};
ghost use Rattle.proof_tree.specs.Given.{AreFloats, PutsFloat, PutsName, PutsOne};

use mm_base::{List, Memory, Name, Sym};
use mm_model::Hyp;
use std::alloc::Global;
use std::collections::HashMap;

/// By symbol number the label of the first `$f` that has the symbol behind its typecode.
pub(crate) fn float_labels(alloc: Global, hyps: &[Hyp]) -> Result<HashMap<u32, Name>, Memory>
    ensures { IfOk result (λ labels. AreFloats hyps.now (get nat_eq labels)) }
{
    let mut labels = HashMap::new(alloc);
    for hyp in hyps {
        put_float(alloc, &mut labels, hyp)?;
    }
    Ok(labels)
}

fn put_float(alloc: Global, labels: &mut HashMap<u32, Name>, hyp: &Hyp) -> Result<(), Memory>
    ensures { OnOk result (PutsFloat hyp.now (get nat_eq labels.old) (get nat_eq labels.new)) }
{
    if !hyp.floating {
        return Ok(());
    }
    let symbols = behind_first(hyp.formula.as_slice());
    put_names(alloc, labels, hyp.name.as_slice(), symbols)
}

/// The symbols behind the first one.
fn behind_first(formula: &[Sym]) -> &[Sym]
    ensures { result.now ≡ drop 1 formula.now }
{
    match formula.split_first() {
        None => formula,
        Some((_, symbols)) => symbols,
    }
}

/// Puts in the name for the symbols that have none.
fn put_names(
    alloc: Global,
    labels: &mut HashMap<u32, Name>,
    name: &[u8],
    symbols: &[Sym],
) -> Result<(), Memory>
    ensures { OnOk result (PutsName name.now symbols.now (get nat_eq labels.old) (get nat_eq labels.new)) }
{
    for symbol in symbols {
        put_name(alloc, labels, name, symbol.0)?;
    }
    Ok(())
}

fn put_name(
    alloc: Global,
    labels: &mut HashMap<u32, Name>,
    name: &[u8],
    symbol: u32,
) -> Result<(), Memory>
    ensures { OnOk result (PutsOne name.now symbol (get nat_eq labels.old) (get nat_eq labels.new)) }
{
    if labels.contains_key(&symbol) {
        return Ok(());
    }
    labels.insert(symbol, List::copy_of(alloc, name)?)?;
    Ok(())
}
