ghost use Rattle.std.specs.Prelude.{◌≡◌, ◌+◌, ℕ, IfOk, IsTrue, OnOk, slice_get, Some};
ghost use Rattle.mm_base.specs.declared.symbols.Typecode.{Typecode};
ghost use Rattle.mm_model.specs.declared.rows.Leaf.TheVariants.{Const};
ghost use Rattle.formula_parse.specs.Charts.{IsIn, Stays, IsEntry, CanLead, Reaches};
ghost use Rattle.formula_parse.specs.Ends.{IsAmong, IsReached};

use crate::place_set::PlaceSet;
use mm_base::{List, Memory, Sym, Typecode};
use mm_model::{Item, Leaf};
use std::alloc::Global;

/// One way to read the text from a place: it ends there, with that typecode, by that row.
#[derive(Clone, Copy, Debug, PartialEq, Eq)]
pub struct Entry {
    pub end: usize,
    pub code: Typecode,
    /// The row, or the number of all rows for a variable.
    pub row: usize,
}

/// Adds the place behind a constant, if it stands at this place.
fn add_behind(next: &mut Vec<usize>, leaves: &[Leaf], place: usize, sym: Sym) -> Result<(), Memory>
    ensures stays { OnOk result (Stays next.old.items next.new.items) }
    ensures stands { OnOk result (slice_get leaves.now place ≡ Some (Const sym) → IsIn next.new.items (place + 1)) }
{
    match leaves.get(place) {
        Some(Leaf::Const(other)) if *other == sym => Ok(next.push(place + 1)?),
        _ => Ok(()),
    }
}

/// The places behind a constant.
fn after_const(
    alloc: Global,
    leaves: &[Leaf],
    places: &[usize],
    sym: Sym,
) -> Result<Vec<usize>, Memory>
    ensures { IfOk result (λ next. (q : ℕ) → IsIn places.now q
        → slice_get leaves.now q ≡ Some (Const sym) → IsIn next.items (q + 1)) }
{
    let mut next = Vec::new(alloc);
    for place in places {
        add_behind(&mut next, leaves, *place, sym)?;
    }
    Ok(next)
}

fn is_const(leaves: &[Leaf], place: usize, sym: Sym) -> bool
    ensures { slice_get leaves.now place ≡ Some (Const sym) → IsTrue result }
{
    match leaves.get(place) {
        Some(Leaf::Const(other)) => *other == sym,
        _ => false,
    }
}

/// Whether the text has the constant at a place that the items begin with, if they begin with one.
pub fn can_lead(leaves: &[Leaf], items: &[Item], place: usize) -> bool
    ensures { CanLead leaves.now items.now place → IsTrue result }
{
    match items {
        [Item::Const(sym), ..] => is_const(leaves, place, *sym),
        _ => true,
    }
}

/// Adds the end of an entry, if it has the typecode and the items behind can begin there.
fn add_end(
    next: &mut PlaceSet,
    entry: &Entry,
    code: Typecode,
    leaves: &[Leaf],
    behind: &[Item],
) -> Result<(), Memory>
    ensures stays { OnOk result (Stays next.old next.new) }
    ensures stands { OnOk result (entry.now.code ≡ code → CanLead leaves.now behind.now entry.now.end → IsIn next.new entry.now.end) }
{
    if entry.code == code && can_lead(leaves, behind, entry.end) {
        next.add(entry.end)?;
    }
    Ok(())
}

/// Adds the ends of the entries of a typecode at which the items behind can begin.
fn add_ends(
    next: &mut PlaceSet,
    entries: &[Entry],
    code: Typecode,
    leaves: &[Leaf],
    behind: &[Item],
) -> Result<(), Memory>
    ensures stays { OnOk result (Stays next.old next.new) }
    ensures ends { OnOk result ((x : Entry) → IsIn entries.now x → x.code ≡ code → CanLead leaves.now behind.now x.end
        → IsIn next.new x.end) }
{
    for entry in entries {
        add_end(next, entry, code, leaves, behind)?;
    }
    Ok(())
}

/// The ends of the entries of a typecode that begin at some places, at which the items behind can begin.
fn after_slot(
    alloc: Global,
    chart: &[List<Entry>],
    places: &[usize],
    code: Typecode,
    leaves: &[Leaf],
    behind: &[Item],
) -> Result<Vec<usize>, Memory>
    ensures { IfOk result (λ next. (q m : ℕ) → IsIn places.now q → IsEntry chart.now q m code → CanLead leaves.now behind.now m
        → IsIn next.items m) }
{
    let mut next = PlaceSet::new(alloc);
    for place in places {
        if let Some(entries) = chart.get(*place) {
            add_ends(&mut next, entries.as_slice(), code, leaves, behind)?;
        }
    }
    Ok(next.into_vec())
}

/// Where the items may end, from some places on.
fn reach(
    alloc: Global,
    leaves: &[Leaf],
    chart: &[List<Entry>],
    items: &[Item],
    slots: &[Typecode],
    places: Vec<usize>,
) -> Result<Vec<usize>, Memory>
    ensures { IfOk result (λ ends. (q e : ℕ) → IsIn places.items q
        → Reaches leaves.now chart.now slots.now items.now q e → IsIn ends.items e) }
{
    if places.is_empty() {
        return Ok(places);
    }
    match items {
        [] => Ok(places),
        [Item::Const(sym), rest @ ..] => {
            let next = after_const(alloc, leaves, &places, *sym)?;
            reach(alloc, leaves, chart, rest, slots, next)
        }
        [Item::Slot(k), rest @ ..] => match slots.get(*k as usize) {
            None => Ok(Vec::new(alloc)),
            Some(code) => {
                let next = after_slot(alloc, chart, &places, *code, leaves, rest)?;
                reach(alloc, leaves, chart, rest, slots, next)
            }
        },
    }
}

/// Which places were found, where one of them is the usual case.
#[derive(Clone, Copy)]
pub enum Ends {
    Nowhere,
    Only(usize),
    Several,
}

/// Where items may end.
#[derive(Debug, Drop)]
pub enum Reached {
    Nowhere,
    Only(usize),
    Several(Vec<usize>),
}

/// Whether the items may end at a place.
pub fn has_end(reached: &Reached, end: usize) -> bool
    ensures { IsReached reached.now end → IsTrue result }
{
    match reached {
        Reached::Nowhere => false,
        Reached::Only(other) => *other == end,
        Reached::Several(ends) => ends.contains(&end),
    }
}

/// One more place.
fn or_end(ends: Ends, end: usize) -> Ends
    ensures old { (m : ℕ) → IsAmong ends m → IsAmong result m }
    ensures this { IsAmong result end }
{
    match ends {
        Ends::Nowhere => Ends::Only(end),
        Ends::Only(other) => if other == end {
            Ends::Only(other)
        } else {
            Ends::Several
        },
        Ends::Several => Ends::Several,
    }
}

/// The ends of the entries of a typecode, at which the items behind can begin.
fn ends_of(entries: &[Entry], code: Typecode, leaves: &[Leaf], behind: &[Item]) -> Ends
    ensures { (x : Entry) → IsIn entries.now x → x.code ≡ code → CanLead leaves.now behind.now x.end
        → IsAmong result x.end }
{
    let mut ends = Ends::Nowhere;
    for entry in entries {
        if entry.code == code && can_lead(leaves, behind, entry.end) {
            ends = or_end(ends, entry.end);
        }
    }
    ends
}

/// The ends of the entries of a typecode that begin at a place, at which the items behind can begin.
pub fn ends_from(
    chart: &[List<Entry>],
    place: usize,
    code: Typecode,
    leaves: &[Leaf],
    behind: &[Item],
) -> Ends
    ensures { (m : ℕ) → IsEntry chart.now place m code → CanLead leaves.now behind.now m → IsAmong result m }
{
    match chart.get(place) {
        None => Ends::Nowhere,
        Some(entries) => ends_of(entries.as_slice(), code, leaves, behind),
    }
}

/// A place alone.
fn alone(alloc: Global, place: usize) -> Result<Vec<usize>, Memory>
    ensures { IfOk result (λ places. IsIn places.items place) }
{
    let mut places = Vec::new(alloc);
    places.push(place)?;
    Ok(places)
}

/// Where the items may end, from one place on. As long as there is one place, no list is made.
pub fn reach_from(
    alloc: Global,
    leaves: &[Leaf],
    chart: &[List<Entry>],
    items: &[Item],
    slots: &[Typecode],
    place: usize,
) -> Result<Reached, Memory>
    ensures { IfOk result (λ ends. (e : ℕ) → Reaches leaves.now chart.now slots.now items.now place e → IsReached ends e) }
{
    match items {
        [] => Ok(Reached::Only(place)),
        [Item::Const(sym), rest @ ..] => match leaves.get(place) {
            Some(Leaf::Const(other)) if *other == *sym => reach_from(
                alloc,
                leaves,
                chart,
                rest,
                slots,
                place + 1,
            ),
            _ => Ok(Reached::Nowhere),
        },
        [Item::Slot(k), rest @ ..] => match slots.get(*k as usize) {
            None => Ok(Reached::Nowhere),
            Some(code) => match ends_from(chart, place, *code, leaves, rest) {
                Ends::Nowhere => Ok(Reached::Nowhere),
                Ends::Only(end) => reach_from(alloc, leaves, chart, rest, slots, end),
                Ends::Several => {
                    let places = alone(alloc, place)?;
                    let ends = reach(alloc, leaves, chart, items, slots, places)?;
                    Ok(Reached::Several(ends))
                }
            },
        },
    }
}
