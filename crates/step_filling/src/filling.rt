ghost use Rattle.std.specs.Prelude.{◌≡◌, ◌<◌, ◌≤◌, ◌+◌, length, filter_map, Some, IfOk, OnOk, IfErr};
ghost use Rattle.sheet_text.specs.declared.sheet.SheetItem.TheVariants as item;
ghost use Rattle.sheet_text.specs.Layout.{steps, step_of_item};
ghost use Rattle.step_chain.specs.declared.judged.Judged.TheVariants as judged;
ghost use Rattle.step_chain.specs.Held.{judgements_of};
ghost use Rattle.step_chain.specs.Levels.{IsUsed};
ghost use Rattle.step_chain.specs.Values.{judged_at, accepted_at};
ghost use Rattle.step_filling.specs.Filled.{IsPut, ArePut, IsNextFault, IsItemFault, step_count, IsOwnFault, IsFaultAmong, IsLongNamed, IsFilledPut, IsWantedPut, IsStandingPut};
ghost use Rattle.step_filling.specs.Kept.{with_comment};
ghost use Rattle.step_filling.specs.Answers.{AreFilled, IsFillFault};

use crate::accepted::{accepted_step, formula};
use crate::copies::copied_lines;
use crate::drafts::{own_step, reported};
use crate::fault::FillFault;
use crate::kept::Filling;
use crate::places::written_places;
use crate::wanted::read_wanted;
use hyp_derive::fill_from;
use mm_base::{Bytes, List, Memory, Tree};
use sheet_text::{Sheet, SheetItem, SheetStep};
use solve_model::Verdict;
use std::alloc::Global;
use step_chain::{Accepted, Chain, ChainTrees, Judged};
use written_steps::{DraftItem, DraftStep};

/// The fault of a wanted tree that is too long behind these.
fn long_wanted(alloc: Global, filling: &mut Filling, before: &[Tree], tokens: u64) -> FillFault
    ensures { IsLongNamed filling.old before.now tokens result }
{
    let Ok(filled) = fill_from(alloc, &filling.index, before) else {
        return FillFault::Memory;
    };
    let new = filled.made.as_slice().len();
    match filling.name_behind(new) {
        Ok(name) => FillFault::TooLong(name, tokens),
        Err(_) => FillFault::Memory,
    }
}

/// Puts in new steps of these trees, and a step of the worksheet behind them.
fn put_filled(filling: &mut Filling, made: List<Tree>, own: DraftStep) -> Result<(), Memory>
    ensures { OnOk result (IsFilledPut filling.old filling.new made own) }
{
    filling.make(made)?;
    filling.put_own(own)
}

/// Puts in an accepted step for which these trees are wanted.
fn put_wanted(
    alloc: Global,
    trees: &ChainTrees<'_, '_>,
    filling: &mut Filling,
    i: u32,
    step: &SheetStep,
    accepted: &Accepted,
    wanted: &[Tree],
) -> Result<(), FillFault>
    requires step { i < length trees.now.bound.steps }
    requires kept { accepted_at trees.now i ≡ Some accepted.now }
    ensures put { OnOk result (IsWantedPut trees.now i step.now accepted.now wanted.now filling.old filling.new) }
    ensures fault { IfErr result (IsOwnFault trees.now i step.now.name) }
{
    let filled = fill_from(alloc, &filling.index, wanted)?;
    let numbers = filling.numbers.as_slice();
    let places = filled.places.as_slice();
    match accepted_step(alloc, trees, i, numbers, step, accepted, places) {
        Err(fault) => Err(fault),
        Ok(own) => Ok(put_filled(filling, filled.made, own)?),
    }
}

/// Fills an accepted step.
fn fill_accepted(
    alloc: Global,
    trees: &ChainTrees<'_, '_>,
    filling: &mut Filling,
    i: u32,
    step: &SheetStep,
    accepted: &Accepted,
) -> Result<(), FillFault>
    requires step { i < length trees.now.bound.steps }
    requires next { i ≡ length filling.old.numbers }
    requires judged { judged_at trees.now i ≡ Some (judged.Fits accepted.now) }
    requires used { IsUsed trees.now.book accepted.now }
    ensures put { OnOk result (IsPut trees.now filling.old filling.new (item.Step step.now)) }
    ensures fault { IfErr result (IsNextFault trees.now filling.old step.now) }
{
    let wanted = read_wanted(alloc, trees, i, accepted.order.as_slice().len())?;
    let found = wanted.trees.as_slice();
    match wanted.long {
        Some(tokens) => Err(long_wanted(alloc, filling, found, tokens)),
        None => put_wanted(alloc, trees, filling, i, step, accepted, found),
    }
}

/// Puts in a step that is not accepted.
fn put_standing(
    alloc: Global,
    filling: &mut Filling,
    step: &SheetStep,
    tree: Tree,
    verdict: Verdict,
) -> Result<(), Memory>
    ensures { OnOk result (IsStandingPut step.now tree verdict filling.old filling.new) }
{
    let places = written_places(
        alloc,
        filling.numbers.as_slice(),
        step.places.as_slice(),
        &[],
    )?;
    let own = own_step(alloc, step, places, tree, reported(verdict), None)?;
    filling.put_own(own)
}

/// Fills a step that is not accepted.
fn fill_standing(
    alloc: Global,
    trees: &ChainTrees<'_, '_>,
    filling: &mut Filling,
    i: u32,
    step: &SheetStep,
    verdict: Verdict,
) -> Result<(), FillFault>
    requires step { i < length trees.now.bound.steps }
    requires next { i ≡ length filling.old.numbers }
    requires judged { judged_at trees.now i ≡ Some (judged.Stands verdict) }
    ensures put { OnOk result (IsPut trees.now filling.old filling.new (item.Step step.now)) }
    ensures fault { IfErr result (IsNextFault trees.now filling.old step.now) }
{
    match formula(alloc, trees, i, step.name.as_slice()) {
        Err(fault) => Err(fault),
        Ok(tree) => Ok(put_standing(alloc, filling, step, tree, verdict)?),
    }
}

/// Writes a step of the worksheet, behind the new steps that it needs.
fn fill_step(
    alloc: Global,
    trees: &ChainTrees<'_, '_>,
    filling: &mut Filling,
    step: &SheetStep,
) -> Result<(), FillFault>
    requires pushed { length (judgements_of trees.now) ≡ length trees.now.bound.steps }
    requires room { length filling.old.numbers < length trees.now.bound.steps }
    ensures put { OnOk result (IsPut trees.now filling.old filling.new (item.Step step.now)) }
    ensures fault { IfErr result (IsNextFault trees.now filling.old step.now) }
{
    let chain = trees.chain();
    let _pushed = chain.pushed();
    let i = filling.numbers.len() as u32;
    match chain.judged(i) {
        Judged::Stands(verdict) => fill_standing(alloc, trees, filling, i, step, *verdict),
        Judged::Fits(accepted) => fill_accepted(alloc, trees, filling, i, step, accepted),
    }
}

/// Puts in a comment.
fn fill_comment(alloc: Global, filling: &mut Filling, lines: &[Bytes]) -> Result<(), Memory>
    ensures { OnOk result (filling.new ≡ with_comment filling.old lines.now) }
{
    let lines = copied_lines(alloc, lines)?;
    filling.put_comment(lines)
}

/// Writes an item.
fn fill_item(
    alloc: Global,
    trees: &ChainTrees<'_, '_>,
    filling: &mut Filling,
    item: &SheetItem,
) -> Result<(), FillFault>
    requires pushed { length (judgements_of trees.now) ≡ length trees.now.bound.steps }
    requires room { length filling.old.numbers + step_count item.now ≤ length trees.now.bound.steps }
    ensures put { OnOk result (IsPut trees.now filling.old filling.new item.now) }
    ensures fault { IfErr result (IsItemFault trees.now filling.old item.now) }
{
    match item {
        SheetItem::Comment(lines) => Ok(fill_comment(alloc, filling, lines.as_slice())?),
        SheetItem::Step(step) => fill_step(alloc, trees, filling, step),
    }
}

/// Writes the items one after the other.
fn fill_each(
    alloc: Global,
    trees: &ChainTrees<'_, '_>,
    filling: &mut Filling,
    items: &[SheetItem],
) -> Result<(), FillFault>
    requires pushed { length (judgements_of trees.now) ≡ length trees.now.bound.steps }
    requires room { length filling.old.numbers + length (filter_map step_of_item items.now) ≤ length trees.now.bound.steps }
    ensures put { OnOk result (ArePut trees.now filling.old filling.new items.now) }
    ensures fault { IfErr result (IsFaultAmong trees.now filling.old items.now) }
{
    for item in items {
        match fill_item(alloc, trees, filling, item) {
            Err(fault) => return Err(fault),
            Ok(()) => {}
        }
    }
    Ok(())
}

/// The comments and steps of a worksheet whose steps are all judged, as they are written before new work variables are
/// named: each with its formula under the most general valuation of the accepted steps; each missing place of an accepted
/// step names the first step written before that has the formula that is wanted, or else a new step that stands just before
/// the step. It takes time in proportion to the trees that it gives and to the store of terms.
///
/// # Errors
/// `TooLong` with the step's name and the tokens of the first formula, in the order of writing, that has more than 4,096
/// tokens; it is known before a tree of that formula is built. `LongValue` where a value of an
/// accepted step has more than 4,096, though no formula up to that step has. `Memory` where memory runs out.
pub fn fill_items(
    alloc: Global,
    sheet: &Sheet,
    chain: &Chain<'_>,
) -> Result<List<DraftItem>, FillFault>
    requires pushed { length (judgements_of chain.now) ≡ length chain.now.bound.steps }
    requires steps { length (steps sheet.now) ≡ length chain.now.bound.steps }
    ensures filled { IfOk result (AreFilled chain.now sheet.now) }
    ensures fault { IfErr result (IsFillFault chain.now sheet.now) }
{
    let trees = chain.trees()?;
    let mut filling = Filling::new(alloc, sheet)?;
    match fill_each(alloc, &trees, &mut filling, sheet.items.as_slice()) {
        Err(fault) => Err(fault),
        Ok(()) => Ok(List::from_vec(filling.into_items())),
    }
}
