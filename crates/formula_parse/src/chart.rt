ghost use Rattle.std.specs.Prelude.{◌≡◌, ◌<◌, ◌+◌, ◌^◌, ◌∷◌, [], ℕ, List, length, IfOk, IsTrue, OnOk, slice_get, Some};
ghost use Rattle.mm_base.specs.declared.symbols.Sym.{Sym};
ghost use Rattle.mm_model.specs.declared.rows.Leaf.TheVariants.{Const};
ghost use Rattle.mm_model.specs.Rows.{IsGrammar};
ghost use Rattle.formula_parse.specs.declared.reach.Entry.{Entry};
ghost use Rattle.formula_parse.specs.Ends.{IsReached};
ghost use Rattle.formula_parse.specs.Charts.{
  entry_of,
  Stays,
  IsIn,
  IsOnce,
  IsStart,
  Enters,
  EntersFirst,
  EntersNext,
  Follows,
  IsBegun,
  IsFilled,
  IsChart,
};

use crate::entries::Entries;
use crate::reach::{Entry, Reached, can_lead, reach_from};
use mm_base::{List, Memory, Sym, Typecode};
use mm_model::{Leaf, Production};
use std::alloc::Global;
use syntax_grammar::{Grammar, first_sym};

/// Adds the entries of a row with these ends.
fn add_ends(
    entries: &mut Entries,
    ends: &[usize],
    production: &Production,
    row: usize,
) -> Result<(), Memory>
    ensures stays { OnOk result (Stays entries.old entries.new) }
    ensures once { OnOk result (IsOnce entries.old → IsOnce entries.new) }
    ensures stand { OnOk result ((e : ℕ) → IsIn ends.now e
        → IsIn entries.new (record { end = e; code = production.now.gives; row = row })) }
{
    for end in ends {
        entries.add(Entry {
            end: *end,
            code: production.gives,
            row,
        })?;
    }
    Ok(())
}

/// Adds the entries of a row that was found to end somewhere.
fn add_reached(
    entries: &mut Entries,
    reached: &Reached,
    production: &Production,
    row: usize,
) -> Result<(), Memory>
    ensures stays { OnOk result (Stays entries.old entries.new) }
    ensures once { OnOk result (IsOnce entries.old → IsOnce entries.new) }
    ensures stand { OnOk result ((e : ℕ) → IsReached reached.now e
        → IsIn entries.new (record { end = e; code = production.now.gives; row = row })) }
{
    match reached {
        Reached::Nowhere => Ok(()),
        Reached::Only(end) => entries.add(Entry {
            end: *end,
            code: production.gives,
            row,
        }),
        Reached::Several(ends) => add_ends(entries, ends.as_slice(), production, row),
    }
}

/// Enters each end of a row whose items after the first begin at a place.
fn enter(
    alloc: Global,
    g: &Grammar,
    leaves: &[Leaf],
    chart: &[List<Entry>],
    row: usize,
    place: usize,
    entries: &mut Entries,
) -> Result<(), Memory>
    ensures stays { OnOk result (Stays entries.old entries.new) }
    ensures once { OnOk result (IsOnce entries.old → IsOnce entries.new) }
    ensures entered { OnOk result (Enters leaves.now chart.now g.now row place entries.new) }
{
    if let Some(production) = g.row(row) {
        if let [_, rest @ ..] = production.items.as_slice() {
            if !can_lead(leaves, rest, place) {
                return Ok(());
            }
            let reached = reach_from(
                alloc,
                leaves,
                chart,
                rest,
                production.slots.as_slice(),
                place,
            )?;
            add_reached(entries, &reached, production, row)?;
        }
    }
    Ok(())
}

/// Whether the production of a number is below a place of the database and begins with the symbol.
fn is_start(g: &Grammar, row: usize, before: u32, first: Sym) -> bool
    ensures { IsStart g.now before first row → IsTrue result }
{
    match g.row(row) {
        None => false,
        Some(production) => production.at < before && first_sym(production) == Some(first),
    }
}

/// Enters those productions of these numbers that are below a place of the database and begin with the symbol, where
/// their items after the first begin at a place of the text.
fn enter_all(
    alloc: Global,
    g: &Grammar,
    before: u32,
    first: Sym,
    numbers: &[usize],
    leaves: &[Leaf],
    chart: &[List<Entry>],
    place: usize,
    entries: &mut Entries,
) -> Result<(), Memory>
    ensures stays { OnOk result (Stays entries.old entries.new) }
    ensures once { OnOk result (IsOnce entries.old → IsOnce entries.new) }
    ensures entered { OnOk result ((j i : ℕ) → slice_get numbers.now j ≡ Some i → IsStart g.now before first i
        → Enters leaves.now chart.now g.now i place entries.new) }
{
    for number in numbers {
        if is_start(g, *number, before, first) {
            enter(alloc, g, leaves, chart, *number, place, entries)?;
        }
    }
    Ok(())
}

/// The constant at a place.
fn const_at(leaves: &[Leaf], place: usize) -> Option<Sym>
    ensures { (s : Sym) → slice_get leaves.now place ≡ Some (Const s) → result ≡ Some s }
{
    match leaves.get(place) {
        Some(Leaf::Const(sym)) => Some(*sym),
        _ => None,
    }
}

/// Enters those whose next constant stands at a place of the text.
fn enter_next(
    alloc: Global,
    g: &Grammar,
    before: u32,
    first: Sym,
    leaves: &[Leaf],
    chart: &[List<Entry>],
    place: usize,
    at: usize,
    entries: &mut Entries,
) -> Result<(), Memory>
    ensures stays { OnOk result (Stays entries.old entries.new) }
    ensures once { OnOk result (IsOnce entries.old → IsOnce entries.new) }
    ensures entered { OnOk result (EntersNext leaves.now chart.now g.now before first place at entries.new) }
{
    match const_at(leaves, at) {
        None => Ok(()),
        Some(sym) => enter_all(
            alloc,
            g,
            before,
            first,
            g.rows_by_next(sym),
            leaves,
            chart,
            place,
            entries,
        ),
    }
}

/// Enters those whose next constant stands behind one of these entries.
fn enter_behind(
    alloc: Global,
    g: &Grammar,
    before: u32,
    first: Sym,
    leaves: &[Leaf],
    chart: &[List<Entry>],
    place: usize,
    starts: &[Entry],
    entries: &mut Entries,
) -> Result<(), Memory>
    ensures stays { OnOk result (Stays entries.old entries.new) }
    ensures once { OnOk result (IsOnce entries.old → IsOnce entries.new) }
    ensures entered { OnOk result ((j : ℕ) (x : Entry) → slice_get starts.now j ≡ Some x
        → EntersNext leaves.now chart.now g.now before first place x.end entries.new) }
{
    for start in starts {
        enter_next(
            alloc, g, before, first, leaves, chart, place, start.end, entries,
        )?;
    }
    Ok(())
}

/// The entries that begin at a place.
fn entries_from<'c>(chart: &'c [List<Entry>], place: usize) -> &'c [Entry]
    ensures { (xs : List Entry) → slice_get chart.now place ≡ Some xs → result.now ≡ xs }
{
    match chart.get(place) {
        None => &[],
        Some(entries) => entries.as_slice(),
    }
}

/// Enters the productions below a place of the database that begin with the symbol, where their items after the first
/// begin at a place of the text. Only those are tried whose next constant is there.
fn enter_first(
    alloc: Global,
    g: &Grammar,
    before: u32,
    first: Sym,
    leaves: &[Leaf],
    chart: &[List<Entry>],
    place: usize,
    entries: &mut Entries,
) -> Result<(), Memory>
    ensures stays { OnOk result (Stays entries.old entries.new) }
    ensures once { OnOk result (IsOnce entries.old → IsOnce entries.new) }
    ensures entered { OnOk result (EntersFirst leaves.now chart.now g.now before first place entries.new) }
{
    enter_all(
        alloc,
        g,
        before,
        first,
        g.lone_rows(first),
        leaves,
        chart,
        place,
        entries,
    )?;
    enter_next(
        alloc, g, before, first, leaves, chart, place, place, entries,
    )?;
    let starts = entries_from(chart, place);
    enter_behind(
        alloc, g, before, first, leaves, chart, place, starts, entries,
    )?;
    Ok(())
}

fn leaf_at(leaves: &[Leaf], k: usize) -> Leaf
    requires { k < length leaves.now }
    ensures { slice_get leaves.now k ≡ Some result }
{
    leaves[k]
}

/// The entry of a variable alone.
fn variable_entry(
    alloc: Global,
    begin: usize,
    code: Typecode,
    row: usize,
) -> Result<Entries, Memory>
    requires { begin < 2 ^ 63 }
    ensures { IfOk result (λ entries. entries ≡ entry_of (begin + 1) code row ∷ []) }
{
    Entries::of(
        alloc,
        Entry {
            end: begin + 1,
            code,
            row,
        },
    )
}

/// What the leaf at a place begins.
fn begin_entries(
    alloc: Global,
    g: &Grammar,
    before: u32,
    leaves: &[Leaf],
    chart: &[List<Entry>],
    begin: usize,
) -> Result<Entries, Memory>
    requires { begin < length leaves.now }
    ensures { IfOk result (IsBegun leaves.now chart.now g.now before begin) }
{
    match leaf_at(leaves, begin) {
        Leaf::Var(_, code) => variable_entry(alloc, begin, code, g.kept().as_slice().len()),
        Leaf::Work(code, _) => variable_entry(alloc, begin, code, g.kept().as_slice().len()),
        Leaf::Const(sym) => {
            let mut entries = Entries::new(alloc);
            if g.rows_by_const(sym).is_empty() {
                return Ok(entries);
            }
            enter_first(
                alloc,
                g,
                before,
                sym,
                leaves,
                chart,
                begin + 1,
                &mut entries,
            )?;
            Ok(entries)
        }
    }
}

/// Enters the productions that begin with a slot of an entry's typecode, behind the entry.
fn follow(
    alloc: Global,
    g: &Grammar,
    before: u32,
    leaves: &[Leaf],
    chart: &[List<Entry>],
    entry: Entry,
    entries: &mut Entries,
) -> Result<(), Memory>
    ensures stays { OnOk result (Stays entries.old entries.new) }
    ensures once { OnOk result (IsOnce entries.old → IsOnce entries.new) }
    ensures followed { OnOk result (Follows leaves.now chart.now g.now before entry entries.new) }
{
    if g.rows_by_slot(entry.code).is_empty() {
        return Ok(());
    }
    enter_first(
        alloc,
        g,
        before,
        entry.code.0,
        leaves,
        chart,
        entry.end,
        entries,
    )
}

fn entry_at(entries: &[Entry], k: usize) -> Entry
    requires { k < length entries.now }
    ensures { slice_get entries.now k ≡ Some result }
{
    entries[k]
}

/// The entries of a place, where those of the later places stand.
fn entries_at(
    alloc: Global,
    g: &Grammar,
    before: u32,
    leaves: &[Leaf],
    chart: &[List<Entry>],
    begin: usize,
) -> Result<List<Entry>, Memory>
    requires { begin < length leaves.now }
    ensures { IfOk result (IsFilled leaves.now chart.now g.now before begin) }
{
    let mut entries = begin_entries(alloc, g, before, leaves, chart, begin)?;
    for k in 0..usize::MAX {
        if k >= entries.len() {
            break;
        }
        let entry = entry_at(entries.as_slice(), k);
        follow(alloc, g, before, leaves, chart, entry, &mut entries)?;
    }
    Ok(entries.into_list())
}

/// A chart with no entries.
fn empty_chart(alloc: Global, places: usize) -> Result<Vec<List<Entry>>, Memory>
    ensures { IfOk result (λ chart. length chart.items ≡ places) }
{
    let mut chart = Vec::new(alloc);
    for _ in 0..places {
        chart.push(List::from_vec(Vec::new(alloc)))?;
    }
    Ok(chart)
}

/// The entries of each place of a text, over the productions below a place of the database.
pub fn chart(
    alloc: Global,
    g: &Grammar,
    before: u32,
    leaves: &[Leaf],
) -> Result<Vec<List<Entry>>, Memory>
    requires { IsGrammar g.now }
    ensures { IfOk result (λ chart. IsChart g.now before leaves.now 0 chart.items) }
{
    let mut chart = empty_chart(alloc, leaves.len())?;
    for k in 0..leaves.len() {
        let begin = leaves.len() - 1 - k;
        let entries = entries_at(alloc, g, before, leaves, &chart, begin)?;
        chart[begin] = entries;
    }
    Ok(chart)
}
