ghost use Rattle.std.specs.Prelude.{◌≡◌, [], length, fold, map, IfOk, OnOk};
ghost use Rattle.std.specs.List.{AllByRecursion};
ghost use Rattle.std.specs.Option.{option_copied};
ghost use Rattle.mm_database.specs.ByHead.{by_head};
ghost use Rattle.mm_model.specs.Names.{label};
ghost use Rattle.ref_search.specs.Fitting.{AreAllBelow, AreAnswer, AreFittingAmong, IsFitting, put_if, put_label};
ghost use Rattle.ref_search.specs.Placing.{IsClosed};
ghost use Rattle.ref_search.specs.Searching.{ForEachText, IsCandidate, RiseFrom};

use crate::searching::{fit_label, head};
use crate::sought::Sought;
use crate::wanted::Wanted;
use hyp_order::first_order;
use mm_base::{Label, List, Memory, Pair};
use mm_database::Database;
use std::alloc::Global;
use std::collections::BTreeSet;

/// Whether the assertion of a label fits in some order.
fn does_fit(alloc: Global, db: &Database, label: Label, sought: &Sought) -> Result<bool, Memory>
    requires closed { IsClosed sought.now.wanted.now }
    requires candidate { IsCandidate db.now.parsed (length sought.now.wanted.now.hyps) label }
    ensures { IfOk result (λ fits. ForEachText db.now (λ d. IsFitting d (option_copied sought.now.given) sought.now.wanted.now label fits)) }
{
    let fit = fit_label(alloc, db, label, sought)?;
    Ok(fit.is_some())
}

fn push_if(fits: bool, labels: &mut Vec<Label>, label: Label) -> Result<(), Memory>
    ensures { OnOk result (labels.new.items ≡ put_if fits labels.old.items label) }
{
    if fits {
        labels.push(label)?;
    }
    Ok(())
}

/// Those of these labels that are below the bound and whose assertion fits.
fn fitting_among(
    alloc: Global,
    db: &Database,
    labels: &[Label],
    bound: u32,
    sought: &Sought,
) -> Result<Vec<Label>, Memory>
    requires closed { IsClosed sought.now.wanted.now }
    requires candidates { AllByRecursion (IsCandidate db.now.parsed (length sought.now.wanted.now.hyps)) labels.now }
    requires rise { RiseFrom 0 labels.now }
    ensures { IfOk result (λ v. ForEachText db.now (λ d. AreFittingAmong d (option_copied sought.now.given) sought.now.wanted.now bound labels.now v.items)) }
{
    let mut fitting = Vec::new(alloc);
    for label in labels {
        if label.0 >= bound {
            return Ok(fitting);
        }
        let fits = does_fit(alloc, db, *label, sought)?;
        push_if(fits, &mut fitting, *label)?;
    }
    Ok(fitting)
}

/// The labels below the bound whose assertion has this head and fits.
fn fitting_at(
    alloc: Global,
    db: &Database,
    head: Option<Label>,
    bound: u32,
    sought: &Sought,
) -> Result<Vec<Label>, Memory>
    requires closed { IsClosed sought.now.wanted.now }
    ensures { IfOk result (λ v. ForEachText db.now (λ d. AreFittingAmong d (option_copied sought.now.given) sought.now.wanted.now bound
        (by_head db.now.parsed head (length sought.now.wanted.now.hyps)) v.items)) }
{
    let count = sought.wanted.hyps.as_slice().len();
    if count > u32::MAX as usize {
        return Err(Memory);
    }
    let labels = db.by_head(head, count as u32).as_slice();
    fitting_among(alloc, db, labels, bound, sought)
}

/// Puts in the numbers of labels.
fn add_labels(numbers: &mut BTreeSet<u32>, labels: &[Label]) -> Result<(), Memory>
    ensures { OnOk result (numbers.new.keys ≡ fold put_label numbers.old.keys labels.now) }
{
    for label in labels {
        add_label(numbers, *label)?;
    }
    Ok(())
}

fn add_label(numbers: &mut BTreeSet<u32>, label: Label) -> Result<(), Memory>
    ensures { OnOk result (numbers.new.keys ≡ put_label numbers.old.keys label) }
{
    numbers.insert(label.0)?;
    Ok(())
}

/// The numbers of the labels below the bound whose assertion fits: of the assertions whose conclusion is a variable, and
/// of those with the head of the wanted formula. The other ones never fit.
fn fitting_below(
    alloc: Global,
    db: &Database,
    bound: u32,
    sought: &Sought,
) -> Result<BTreeSet<u32>, Memory>
    requires closed { IsClosed sought.now.wanted.now }
    ensures { IfOk result (λ s. ForEachText db.now (λ d. AreAllBelow d (option_copied sought.now.given) sought.now.wanted.now bound s.keys)) }
{
    let early = fitting_at(alloc, db, None, bound, sought)?;
    let mut numbers = BTreeSet::new(alloc);
    add_labels(&mut numbers, early.as_slice())?;
    let Some(label) = head(&sought.wanted.formula) else {
        return Ok(numbers);
    };
    let late = fitting_at(alloc, db, Some(label), bound, sought)?;
    add_labels(&mut numbers, late.as_slice())?;
    Ok(numbers)
}

fn listed(alloc: Global, numbers: &BTreeSet<u32>) -> Result<List<Label>, Memory>
    ensures { IfOk result (λ labels. labels ≡ map label numbers.now.keys) }
{
    let labels = numbers.iter().map(|number| Label(*number)).collect(alloc)?;
    Ok(List::from_vec(labels))
}

/// All usable assertions before a place that fit as one that `first` finds, by their labels, in database order. It goes
/// through the same assertions as `first` does, to the place.
///
/// # Errors
/// `Memory`: there is no room for the list, or for what `first` needs, or there are 2^32 or more wanted hypotheses, which no
/// worksheet within the limits has.
pub fn all(
    alloc: Global,
    db: &Database,
    place: u32,
    wanted: &Wanted,
    allowed: Option<&List<Pair>>,
) -> Result<List<Label>, Memory>
    requires { IsClosed wanted.now }
    ensures { IfOk result (AreAnswer db.now place wanted.now (option_copied allowed.entry)) }
{
    let count = wanted.hyps.as_slice().len();
    if count > u32::MAX as usize {
        return Err(Memory);
    }
    let places = first_order(alloc, count as u32)?;
    let bound = db.before(place);
    let sought = Sought {
        wanted,
        places: places.as_slice(),
        given: allowed,
    };
    let numbers = fitting_below(alloc, db, bound, &sought)?;
    listed(alloc, &numbers)
}
