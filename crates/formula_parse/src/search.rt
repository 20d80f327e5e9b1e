ghost use Rattle.std.specs.Prelude.{◌≡◌, ◌<◌, ◌≤◌, ◌+◌, ℕ, length, IfOk, IsTrue, OnOk, slice_get, Some};
ghost use Rattle.mm_model.specs.declared.rows.Leaf.TheVariants.{Const};
ghost use Rattle.mm_model.specs.Rows.{IsGrammar};
ghost use Rattle.mm_model.specs.Typed.{Parses};
ghost use Rattle.formula_parse.specs.Finds.{Finds};
ghost use Rattle.formula_parse.specs.Fits.{Fits, IsLeaf, IsDivided};
ghost use Rattle.formula_parse.specs.Charts.{span, IsChart, IsEntry, Reaches};
ghost use Rattle.formula_parse.specs.Ends.{IsAmong};

use crate::found::{Found, add_pairs, discard, write_last};
use crate::making::add_nodes;
use crate::reach::{Ends, Entry, can_lead, ends_from, has_end, reach_from};
use mm_base::{List, Memory, Sym, Tree, Typecode};
use mm_model::{Item, Leaf, Production};
use std::alloc::Global;

/// The tree of a text that is one variable.
fn leaf(leaves: &[Leaf], want: Typecode) -> Found<Tree>
    ensures { Finds (IsLeaf leaves.now want) result }
{
    match leaves {
        [Leaf::Var(sym, code)] if *code == want => Found::One(Tree::Var(*sym, *code)),
        [Leaf::Work(code, number)] if *code == want => Found::One(Tree::Work(*code, *number)),
        _ => Found::Nothing,
    }
}

/// Finds the tree of a text that is one variable.
#[inline(never)]
fn write_leaf(leaves: &[Leaf], want: Typecode, found: &mut Found<Tree>)
    ensures { Finds (IsLeaf leaves.now want) found.new }
{
    *found = leaf(leaves, want);
}

/// Whether the chart has the part, with that typecode.
fn has(chart: &[List<Entry>], begin: usize, end: usize, code: Typecode) -> bool
    ensures { IsEntry chart.now begin end code → IsTrue result }
{
    match chart.get(begin) {
        None => false,
        Some(entries) => entries
            .as_slice()
            .iter()
            .any(|entry| entry.end == end && entry.code == code),
    }
}

/// Whether the part begins with the constant.
fn has_const(leaves: &[Leaf], begin: usize, end: usize, sym: Sym) -> bool
    ensures within { IsTrue result → begin < end }
    ensures stands { IsTrue result → slice_get leaves.now begin ≡ Some (Const sym) }
    ensures sees { begin < end → slice_get leaves.now begin ≡ Some (Const sym) → IsTrue result }
{
    match leaves.get(begin) {
        Some(Leaf::Const(other)) => begin < end && *other == sym,
        _ => false,
    }
}

/// Whether the chart lets the items lead from one place to another.
#[inline(never)]
fn may_fit(
    alloc: Global,
    leaves: &[Leaf],
    chart: &[List<Entry>],
    items: &[Item],
    slots: &[Typecode],
    begin: usize,
    end: usize,
) -> Result<bool, Memory>
    ensures { IfOk result (λ may. Reaches leaves.now chart.now slots.now items.now begin end → IsTrue may) }
{
    if items.is_empty() {
        return Ok(begin == end);
    }
    let reached = reach_from(alloc, leaves, chart, items, slots, begin)?;
    Ok(has_end(&reached, end))
}

/// How far behind the beginning, less one, the first of these places lies, and no more than `most`.
fn first_place(ends: Ends, begin: usize, most: usize) -> usize
    ensures within { result ≤ most }
    ensures none { (m : ℕ) → IsAmong ends m → begin < m → begin + result < m }
{
    match ends {
        Ends::Nowhere => 0,
        Ends::Only(end) => end.saturating_sub(begin).saturating_sub(1).min(most),
        Ends::Several => 0,
    }
}

/// How far behind the beginning the last of these places lies, and no more than `most`.
fn last_place(ends: Ends, begin: usize, most: usize) -> usize
    ensures within { result ≤ most }
    ensures none { (m : ℕ) → IsAmong ends m → m ≤ begin + most → m ≤ begin + result }
{
    match ends {
        Ends::Nowhere => 0,
        Ends::Only(end) => end.saturating_sub(begin).min(most),
        Ends::Several => most,
    }
}

/// Finds the trees of a part of a text, of a typecode, over the rows below a place. What it finds is written and not
/// answered, which takes less of the stack.
#[cycle(parse)]
pub fn trees(
    alloc: Global,
    rows: &[Production],
    before: u32,
    leaves: &[Leaf],
    chart: &[List<Entry>],
    begin: usize,
    end: usize,
    want: Typecode,
    found: &mut Found<Tree>,
) -> Result<(), Memory>
    requires grammar { IsGrammar rows.now }
    requires full { IsChart rows.now before leaves.now 0 chart.now }
    requires order { begin ≤ end }
    requires within { end ≤ length leaves.now }
    ensures { OnOk result (Finds (Parses rows.now before (span leaves.now begin end) want) found.new) }
{
    write_leaf(&leaves[begin..end], want, found);
    if let Some(entries) = chart.get(begin) {
        for entry in entries.as_slice() {
            if entry.end == end && entry.code == want {
                if let Some(row) = rows.get(entry.row) {
                    if row.at < before && row.gives == want {
                        let mut fitting = Found::Nothing;
                        let searched = sequences(
                            alloc,
                            rows,
                            before,
                            leaves,
                            chart,
                            row.items.as_slice(),
                            row.slots.as_slice(),
                            begin,
                            end,
                            &mut fitting,
                        );
                        match searched {
                            Ok(()) => add_nodes(row, fitting, found)?,
                            Err(fault) => {
                                discard(fitting);
                                return Err(fault);
                            }
                        }
                        if let Found::Two(_, _) = found {
                            return Ok(());
                        }
                    }
                }
            }
        }
    }
    Ok(())
}

/// Finds the trees for the slots of a list of items that makes the part.
#[cycle(parse)]
fn sequences(
    alloc: Global,
    rows: &[Production],
    before: u32,
    leaves: &[Leaf],
    chart: &[List<Entry>],
    items: &[Item],
    slots: &[Typecode],
    begin: usize,
    end: usize,
    found: &mut Found<List<Tree>>,
) -> Result<(), Memory>
    requires grammar { IsGrammar rows.now }
    requires full { IsChart rows.now before leaves.now 0 chart.now }
    requires order { begin ≤ end }
    requires within { end ≤ length leaves.now }
    ensures { OnOk result (Finds (Fits rows.now before slots.now items.now (span leaves.now begin end)) found.new) }
{
    *found = Found::Nothing;
    match items {
        [] => {
            if begin == end {
                *found = Found::One(List::from_vec(Vec::new(alloc)));
            }
            Ok(())
        }
        [Item::Const(sym), rest @ ..] => if has_const(leaves, begin, end, *sym) {
            sequences(
                alloc,
                rows,
                before,
                leaves,
                chart,
                rest,
                slots,
                begin + 1,
                end,
                found,
            )
        } else {
            Ok(())
        },
        [Item::Slot(k), rest @ ..] => match slots.get(*k as usize) {
            None => Ok(()),
            Some(code) => {
                if rest.is_empty() {
                    let mut last = Found::Nothing;
                    let searched = trees(
                        alloc, rows, before, leaves, chart, begin, end, *code, &mut last,
                    );
                    return match searched {
                        Ok(()) => write_last(alloc, last, found),
                        Err(fault) => {
                            discard(last);
                            Err(fault)
                        }
                    };
                }
                divisions(
                    alloc, rows, before, leaves, chart, *code, rest, slots, begin, end, found,
                )
            }
        },
    }
}

/// The same for a slot of that typecode, followed by items: each place of division is tried. Where the chart has one
/// place only at which the slot's part may end, the search goes straight on from there.
#[cycle(parse)]
#[inline(never)]
fn divisions(
    alloc: Global,
    rows: &[Production],
    before: u32,
    leaves: &[Leaf],
    chart: &[List<Entry>],
    code: Typecode,
    items: &[Item],
    slots: &[Typecode],
    begin: usize,
    end: usize,
    found: &mut Found<List<Tree>>,
) -> Result<(), Memory>
    requires grammar { IsGrammar rows.now }
    requires full { IsChart rows.now before leaves.now 0 chart.now }
    requires order { begin ≤ end }
    requires within { end ≤ length leaves.now }
    ensures { OnOk result (Finds (IsDivided rows.now before slots.now items.now code (span leaves.now begin end)) found.new) }
{
    *found = Found::Nothing;
    if end - begin < items.len() {
        return Ok(());
    }
    let ends = ends_from(chart, begin, code, leaves, items);
    let most = end - begin - items.len();
    let from = first_place(ends, begin, most);
    let to = last_place(ends, begin, most);
    for n in from..to {
        let middle = begin + n + 1;
        if let Ends::Several = ends {
            if !can_lead(leaves, items, middle) {
                continue;
            }
            if !may_fit(alloc, leaves, chart, items, slots, middle, end)? {
                continue;
            }
            if !has(chart, begin, middle, code) {
                continue;
            }
        }
        let mut first = Found::Nothing;
        if let Err(fault) = trees(
            alloc, rows, before, leaves, chart, begin, middle, code, &mut first,
        ) {
            discard(first);
            return Err(fault);
        }
        let mut rest = Found::Nothing;
        let searched = sequences(
            alloc, rows, before, leaves, chart, items, slots, middle, end, &mut rest,
        );
        match searched {
            Ok(()) => add_pairs(first, rest, found)?,
            Err(fault) => {
                discard(first);
                discard(rest);
                return Err(fault);
            }
        }
        if let Found::Two(_, _) = found {
            return Ok(());
        }
    }
    Ok(())
}
