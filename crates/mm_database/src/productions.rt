ghost use Rattle.std.specs.Prelude.{◌≡◌, ◌==◌, ◌<◌, ◌^◌, length, map, IfOk};
ghost use Rattle.std.specs.List.{list_any};
ghost use Rattle.mm_model.specs.Productions as model;
ghost use Rattle.mm_model.specs.Rows.{slot_order};
ghost use Rattle.mm_model.specs.Statements.{is_empty};
ghost use Rattle.mm_database.specs.Productions as spec;

use crate::variables::{FrameVariable, codes, frame_variables, place_of};
use mm_base::{List, Memory, Pair, Sym, Typecode};
use mm_model::{Frame, Hyp, Item, Production};
use std::alloc::Global;

/// Whether the formula begins with the symbol.
fn begins_with(sym: Sym, formula: &[Sym]) -> bool
    ensures { result ≡ model.begins_with sym formula.now }
{
    match formula {
        [first, ..] => *first == sym,
        [] => false,
    }
}

/// Whether none of the hypotheses is a `$e`.
fn all_floating(hyps: &[Hyp]) -> bool
    ensures { result ≡ spec.all_floating hyps.now }
{
    hyps.iter().all(|hyp| hyp.floating)
}

fn has_none(pairs: &[Pair]) -> bool
    ensures { result ≡ is_empty pairs.now }
{
    pairs.is_empty()
}

/// Whether an assertion can be a production: an axiom that is not provable, without `$e` and without pairs of distinct
/// variables.
fn is_syntax(provable: Sym, frame: &Frame) -> bool
    ensures { result ≡ model.is_syntax provable frame.now }
{
    if !frame.is_axiom {
        return false;
    }
    if begins_with(provable, frame.formula.as_slice()) {
        return false;
    }
    if !all_floating(frame.hyps.as_slice()) {
        return false;
    }
    has_none(frame.pairs.as_slice())
}

/// What a symbol is in a production's text: the slot of its number among the variables, or else a constant.
fn item_of(vars: &[FrameVariable], sym: Sym) -> Item
    requires { length vars.now < 2 ^ 32 }
    ensures { result ≡ spec.item_of vars.now sym }
{
    match place_of(vars, sym) {
        None => Item::Const(sym),
        Some(place) => Item::Slot(place as u32),
    }
}

/// The text of a production.
fn items_of(alloc: Global, vars: &[FrameVariable], symbols: &[Sym]) -> Result<Vec<Item>, Memory>
    requires { length vars.now < 2 ^ 32 }
    ensures { IfOk result (λ items. items.items ≡ map (spec.item_of vars.now) symbols.now) }
{
    let mut items = Vec::new(alloc);
    for sym in symbols {
        items.push(item_of(vars, *sym))?;
    }
    Ok(items)
}

/// Whether the slot stands in the text.
fn has_slot(items: &[Item], slot: u32) -> bool
    ensures { result ≡ list_any (spec.is_slot slot) items.now }
{
    items.iter().any(|item| match item {
        Item::Const(_) => false,
        Item::Slot(other) => slot == *other,
    })
}

/// Whether a slot stands in the text twice.
fn repeats_slot(items: &[Item]) -> bool
    ensures { result ≡ model.has_repeats (slot_order items.now) }
{
    let mut left = items;
    while let [item, rest @ ..] = left {
        if let Item::Slot(slot) = item {
            if has_slot(rest, *slot) {
                return true;
            }
        }
        left = rest;
    }
    false
}

/// The production of a frame with that text behind its typecode; none where there is no text, or a variable stands in it
/// twice.
fn with_text(
    alloc: Global,
    frame: &Frame,
    code: Sym,
    text: &[Sym],
) -> Result<Option<Production>, Memory>
    ensures { IfOk result (λ row. row ≡ spec.with_text frame.now code text.now) }
{
    if text.is_empty() {
        return Ok(None);
    }
    let vars = frame_variables(alloc, frame.hyps.as_slice())?;
    let items = items_of(alloc, &vars, text)?;
    if repeats_slot(&items) {
        return Ok(None);
    }
    Ok(Some(Production {
        label: frame.label,
        at: frame.at,
        gives: Typecode(code),
        items: List::from_vec(items),
        slots: List::from_vec(codes(alloc, &vars)?),
    }))
}

/// The production that a frame gives, where this is the provable typecode; none where it gives none.
fn production_of(alloc: Global, provable: Sym, frame: &Frame) -> Result<Option<Production>, Memory>
    ensures { IfOk result (λ row. row ≡ model.row_of_frame provable frame.now) }
{
    if !is_syntax(provable, frame) {
        return Ok(None);
    }
    match frame.formula.as_slice() {
        [code, text @ ..] => with_text(alloc, frame, *code, text),
        [] => Ok(None),
    }
}

/// The production of a label; none where it has none.
fn row_in(alloc: Global, provable: Sym, entry: &Option<Frame>) -> Result<Option<Production>, Memory>
    ensures { IfOk result (λ row. row ≡ spec.row_in provable entry.now) }
{
    match entry {
        None => Ok(None),
        Some(frame) => production_of(alloc, provable, frame),
    }
}

/// The productions of a database by its frames, where this is the provable typecode.
pub fn rows(
    alloc: Global,
    provable: Sym,
    frames: &[Option<Frame>],
) -> Result<Vec<Production>, Memory>
    ensures { IfOk result (λ rows. rows.items ≡ spec.rows_of provable frames.now) }
{
    let mut rows = Vec::new(alloc);
    for entry in frames {
        let found = row_in(alloc, provable, entry)?;
        if let Some(row) = found {
            rows.push(row)?;
        }
    }
    Ok(rows)
}
