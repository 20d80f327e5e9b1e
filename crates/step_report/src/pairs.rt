ghost use Rattle.std.specs.Prelude.{◌≡◌, [], fold, IfOk, OnOk};
ghost use Rattle.written_model.specs.Pairs.{needed_by as needed_of, pairs_of};
ghost use Rattle.written_model.specs.WrittenSteps.{steps_in};
ghost use Rattle.written_steps.specs.Drafts.{AreSound, ForEachText, IsSoundItem, IsSoundUse, items_in, use_in};
ghost use Rattle.step_report.specs.PutPairs.{AreOrdered, put_either, put_draft};

use distinct_vars::needed;
use mm_base::{List, Memory, Pair};
use mm_database::Database;
use pair_set::PairSet;
use std::alloc::Global;
use written_model::DvMode;
use written_steps::{DraftItem, StepUse, pairs, variables};

/// The pairs that a use needs, by lesser and then greater symbol number.
pub fn needed_by(alloc: Global, db: &Database, by: &StepUse) -> Result<List<Pair>, Memory>
    requires { IsSoundUse db.now by.now }
    ensures { IfOk result (λ ps. ForEachText db.now (ps ≡ needed_of (use_in db.now by.now))) }
{
    needed(alloc, pairs(db, by), variables(db, by), &by.values)
}

/// Puts in pairs, the lesser variable first.
fn put_pairs(set: &mut PairSet, pairs: &[Pair]) -> Result<(), Memory>
    ensures { OnOk result (set.new ≡ fold put_either set.old pairs.now) }
{
    for pair in pairs {
        set.add(pair.a, pair.b)?;
    }
    Ok(())
}

/// Puts in the pairs that a use needs.
fn put_use(alloc: Global, db: &Database, set: &mut PairSet, by: &StepUse) -> Result<(), Memory>
    requires { IsSoundUse db.now by.now }
    ensures { OnOk result (ForEachText db.now (set.new ≡ fold put_either set.old (needed_of (use_in db.now by.now)))) }
{
    let pairs = needed_by(alloc, db, by)?;
    put_pairs(set, pairs.as_slice())
}

/// Puts in the pairs that an item needs.
fn put_item(alloc: Global, db: &Database, set: &mut PairSet, item: &DraftItem) -> Result<(), Memory>
    requires { IsSoundItem db.now item.now }
    ensures { OnOk result (ForEachText db.now (set.new ≡ put_draft db.now set.old item.now)) }
{
    match item {
        DraftItem::Comment(_) => Ok(()),
        DraftItem::Step(step) => match &step.by {
            None => Ok(()),
            Some(by) => put_use(alloc, db, set, by),
        },
    }
}

fn put_items(
    alloc: Global,
    db: &Database,
    set: &mut PairSet,
    items: &[DraftItem],
) -> Result<(), Memory>
    requires { AreSound db.now items.now }
    ensures { OnOk result (ForEachText db.now (set.new ≡ fold (put_draft db.now) set.old items.now)) }
{
    for item in items {
        put_item(alloc, db, set, item)?;
    }
    Ok(())
}

/// The given pairs and those that the steps need.
fn added_pairs(
    alloc: Global,
    db: &Database,
    given: &[Pair],
    items: &[DraftItem],
) -> Result<List<Pair>, Memory>
    requires { AreSound db.now items.now }
    ensures { IfOk result (λ ps. ForEachText db.now (ps ≡ fold (put_draft db.now) (fold put_either [] given.now) items.now)) }
{
    let mut set = PairSet::new(alloc);
    put_pairs(&mut set, given)?;
    put_items(alloc, db, &mut set, items)?;
    set.listed(alloc)
}

/// The pairs that are written, by lesser and then greater symbol number: the given ones, each with its lesser variable first,
/// and where pairs are added all that the steps need. It takes memory for the pairs, and for each step the time that
/// `distinct_vars::needed` takes. `Memory`: there is no room.
pub fn written_pairs(
    alloc: Global,
    db: &Database,
    mode: DvMode,
    given: &List<Pair>,
    items: &[DraftItem],
) -> Result<List<Pair>, Memory>
    requires { AreSound db.now items.now }
    ensures { IfOk result (λ ps. ForEachText db.now (AreOrdered given.now → ps ≡ pairs_of mode given.now (steps_in (items_in db.now items.now)))) }
{
    match mode {
        DvMode::Given => List::copy_of(alloc, given.as_slice()),
        DvMode::Add => added_pairs(alloc, db, given.as_slice(), items),
    }
}
