ghost use Rattle.std.specs.Prelude.{◌≡◌, IfOk};
ghost use Rattle.syntax_grammar.specs.Index.{IsIndex, IsTable};
ghost use Rattle.syntax_grammar.specs.Selections as spec;

use crate::table::Table;
use mm_base::{Memory, Rows, Sym, Typecode};
use mm_model::{Item, Production};
use std::alloc::Global;

/// The constant that items begin with.
fn const_of(items: &[Item]) -> Option<Sym>
    ensures { result ≡ spec.first_const items.now }
{
    match items {
        [Item::Const(sym), ..] => Some(*sym),
        _ => None,
    }
}

/// The constant that the production's text begins with.
fn first_const(row: &Production) -> Option<Sym>
    ensures { result ≡ spec.first_const row.now.items }
{
    const_of(row.items.as_slice())
}

/// The typecode of the slot that the production's text begins with.
fn first_code(row: &Production) -> Option<Typecode>
    ensures { result ≡ spec.first_code row.now.slots row.now.items }
{
    match row.items.as_slice() {
        [Item::Slot(slot), ..] => row.slots.as_slice().get(*slot as usize).copied(),
        _ => None,
    }
}

/// The constant that items begin with, or that stands behind the slot that they begin with.
fn lead_const(items: &[Item]) -> Option<Sym>
    ensures { result ≡ spec.lead_const items.now }
{
    match items {
        [] => None,
        [Item::Const(sym), ..] => Some(*sym),
        [Item::Slot(_), rest @ ..] => const_of(rest),
    }
}

/// The constant behind the first item of the production's text, or behind the slot that follows the first item.
fn next_const(row: &Production) -> Option<Sym>
    ensures { result ≡ spec.next_const row.now.items }
{
    match row.items.as_slice() {
        [] => None,
        [_, rest @ ..] => lead_const(rest),
    }
}

/// The constant that the production's text begins with, or the symbol of the typecode of the slot that it begins with.
pub fn first_sym(row: &Production) -> Option<Sym>
    ensures { result ≡ spec.first_sym row.now.slots row.now.items }
{
    match first_const(row) {
        Some(sym) => Some(sym),
        None => match first_code(row) {
            None => None,
            Some(code) => Some(code.0),
        },
    }
}

/// The first symbol of the production's text, where it has no next constant.
fn lone_sym(row: &Production) -> Option<Sym>
    ensures { result ≡ spec.lone_sym row.now.slots row.now.items }
{
    match next_const(row) {
        Some(_) => None,
        None => first_sym(row),
    }
}

/// The productions by label.
pub fn label_index(alloc: Global, rows: &[Production]) -> Result<Rows<usize>, Memory>
    ensures { IfOk result (IsIndex spec.has_label rows.now) }
{
    let mut index = Rows::new(alloc);
    for number in 0..rows.len() {
        index.add(alloc, rows[number].label.0 as u64, number)?;
    }
    Ok(index)
}

/// The productions by the constant that they begin with.
pub fn const_index(alloc: Global, rows: &[Production]) -> Result<Table, Memory>
    ensures { IfOk result (IsTable spec.begins_const rows.now) }
{
    let mut index = Table::new(alloc);
    for number in 0..rows.len() {
        if let Some(sym) = first_const(&rows[number]) {
            index.add(alloc, sym, number)?;
        }
    }
    Ok(index)
}

/// The productions by the typecode of the slot that they begin with.
pub fn slot_index(alloc: Global, rows: &[Production]) -> Result<Table, Memory>
    ensures { IfOk result (IsTable spec.begins_slot rows.now) }
{
    let mut index = Table::new(alloc);
    for number in 0..rows.len() {
        if let Some(code) = first_code(&rows[number]) {
            index.add(alloc, code.0, number)?;
        }
    }
    Ok(index)
}

/// The productions by their next constant.
pub fn next_index(alloc: Global, rows: &[Production]) -> Result<Table, Memory>
    ensures { IfOk result (IsTable spec.has_next rows.now) }
{
    let mut index = Table::new(alloc);
    for number in 0..rows.len() {
        if let Some(sym) = next_const(&rows[number]) {
            index.add(alloc, sym, number)?;
        }
    }
    Ok(index)
}

/// The productions that have no next constant, by the symbol that they begin with.
pub fn lone_index(alloc: Global, rows: &[Production]) -> Result<Table, Memory>
    ensures { IfOk result (IsTable spec.is_lone rows.now) }
{
    let mut index = Table::new(alloc);
    for number in 0..rows.len() {
        if let Some(sym) = lone_sym(&rows[number]) {
            index.add(alloc, sym, number)?;
        }
    }
    Ok(index)
}
