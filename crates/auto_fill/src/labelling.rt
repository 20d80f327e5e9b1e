ghost use Rattle.std.specs.Prelude.{◌≡◌, ◌≤◌, ◌++◌, length, slice_index_or, IfOk};
ghost use Rattle.std.specs.List.{AllByRecursion};
ghost use Rattle.std.specs.Option.{option_copied};
ghost use Rattle.written_model.specs.WrittenSteps.{no_tree};
ghost use Rattle.mm_database.specs.ByHead.{by_head};
ghost use Rattle.ref_search.specs.Searching.{ForEachText, IsCandidate, IsSoundUse, RiseFrom};
ghost use Rattle.auto_fill.specs.declared.walking.Fit.{Fit as FitOf};
ghost use Rattle.auto_fill.specs.Walking.{HasFit, wanted_of};
ghost use Rattle.auto_fill.specs.Labelling.{HasAuto, IsCount, IsFirstAmong, IsLabelFit, IsSound, at_head, last_found, of_count, of_counts, upto};

use crate::sought::Sought;
use crate::walking::{Fit, fit_to};
use auto_model::Auto;
use mm_base::{Label, Memory, Tree};
use mm_database::Database;
use model_laws::frames_are_whole;
use ref_search::{frame_of, head};
use std::alloc::Global;

/// The first tuple with which the assertion of a label serves the step.
fn fit_label(
    alloc: Global,
    db: &Database,
    label: Label,
    count: u32,
    sought: &Sought,
) -> Result<Option<Fit>, Memory>
    requires candidate { IsCandidate db.now.parsed count label }
    requires count { IsCount count }
    ensures first { IfOk result (λ o. ForEachText db.now (λ d.
        IsLabelFit d (option_copied sought.now.given) (wanted_of sought.now.trees.now sought.now.number) sought.now.places.now label o)) }
    ensures sound { IfOk result (HasFit (λ (fit : FitOf). IsSoundUse db.now label fit.trees)) }
{
    frames_are_whole();
    match frame_of(db.frames(), label) {
        None => Ok(None),
        Some(frame) => fit_to(
            alloc,
            frame,
            db.vars(label),
            db.tree(label),
            db.hyp_trees(label),
            sought,
        ),
    }
}

fn auto_by(label: Label, fit: Fit) -> Auto
    ensures { result ≡ record { label = label; places = fit.places; trees = fit.trees } }
{
    let Fit { places, trees } = fit;
    Auto {
        label,
        places,
        trees,
    }
}

/// The first of these labels, each with that number of `$e`, that is below the bound and serves.
fn first_among(
    alloc: Global,
    db: &Database,
    labels: &[Label],
    count: u32,
    bound: u32,
    sought: &Sought,
) -> Result<Option<Auto>, Memory>
    requires candidates { AllByRecursion (IsCandidate db.now.parsed count) labels.now }
    requires count { IsCount count }
    requires rise { RiseFrom 0 labels.now }
    ensures first { IfOk result (λ o. ForEachText db.now (λ d.
        IsFirstAmong d (option_copied sought.now.given) (wanted_of sought.now.trees.now sought.now.number) sought.now.places.now labels.now bound o)) }
    ensures sound { IfOk result (HasAuto (IsSound db.now bound)) }
{
    for label in labels {
        if label.0 >= bound {
            return Ok(None);
        }
        match fit_label(alloc, db, *label, count, sought)? {
            None => {}
            Some(fit) => return Ok(Some(auto_by(*label, fit))),
        }
    }
    Ok(None)
}

/// The first label below the bound whose assertion has this head and that number of `$e`, and serves.
fn first_at(
    alloc: Global,
    db: &Database,
    head: Option<Label>,
    count: u32,
    bound: u32,
    sought: &Sought,
) -> Result<Option<Auto>, Memory>
    requires count { IsCount count }
    ensures first { IfOk result (λ o. ForEachText db.now (λ d.
        IsFirstAmong d (option_copied sought.now.given) (wanted_of sought.now.trees.now sought.now.number) sought.now.places.now
        (by_head db.now.parsed head count) bound o)) }
    ensures sound { IfOk result (HasAuto (IsSound db.now bound)) }
{
    let labels = db.by_head(head, count).as_slice();
    first_among(alloc, db, labels, count, bound, sought)
}

/// The number of the label that is found, else the bound.
fn below(auto: &Option<Auto>, bound: u32) -> u32
    ensures { result ≡ upto bound auto.now }
{
    match auto {
        None => bound,
        Some(auto) => auto.label.0,
    }
}

/// The one that was found last, else the one before.
fn last(late: Option<Auto>, early: Option<Auto>) -> Option<Auto>
    ensures { result ≡ last_found late early }
{
    match late {
        None => early,
        Some(auto) => Some(auto),
    }
}

/// The first label below the bound whose assertion has this head, where there is one.
fn first_headed(
    alloc: Global,
    db: &Database,
    head: Option<Label>,
    count: u32,
    bound: u32,
    sought: &Sought,
) -> Result<Option<Auto>, Memory>
    requires count { IsCount count }
    ensures first { IfOk result (λ o. ForEachText db.now (λ d.
        IsFirstAmong d (option_copied sought.now.given) (wanted_of sought.now.trees.now sought.now.number) sought.now.places.now
        (at_head db.now.parsed head count) bound o)) }
    ensures sound { IfOk result (HasAuto (IsSound db.now bound)) }
{
    match head {
        None => Ok(None),
        Some(label) => first_at(alloc, db, Some(label), count, bound, sought),
    }
}

/// The first label below the bound whose assertion has that number of `$e` and serves: an assertion whose conclusion is
/// a variable, or one with the head of the step's formula. The other ones never serve.
fn first_of_count(
    alloc: Global,
    db: &Database,
    count: u32,
    bound: u32,
    sought: &Sought,
) -> Result<Option<Auto>, Memory>
    requires count { IsCount count }
    ensures first { IfOk result (λ o. ForEachText db.now (λ d.
        IsFirstAmong d (option_copied sought.now.given) (wanted_of sought.now.trees.now sought.now.number) sought.now.places.now
        (of_count db.now.parsed (slice_index_or sought.now.trees.now sought.now.number no_tree) count) bound o)) }
    ensures sound { IfOk result (HasAuto (IsSound db.now bound)) }
{
    let head = head(&sought.trees[sought.number as usize]);
    let early = first_at(alloc, db, None, count, bound, sought)?;
    let late = first_headed(alloc, db, head, count, below(&early, bound), sought)?;
    Ok(last(late, early))
}

/// The first label below the bound whose assertion has one to three `$e` and serves.
pub fn first_below(
    alloc: Global,
    db: &Database,
    bound: u32,
    sought: &Sought,
) -> Result<Option<Auto>, Memory>
    ensures first { IfOk result (λ o. ForEachText db.now (λ d.
        IsFirstAmong d (option_copied sought.now.given) (wanted_of sought.now.trees.now sought.now.number) sought.now.places.now
        (of_counts db.now.parsed (slice_index_or sought.now.trees.now sought.now.number no_tree)) bound o)) }
    ensures sound { IfOk result (HasAuto (IsSound db.now bound)) }
{
    let one = first_of_count(alloc, db, 1, bound, sought)?;
    let two = first_of_count(alloc, db, 2, below(&one, bound), sought)?;
    let found = last(two, one);
    let three = first_of_count(alloc, db, 3, below(&found, bound), sought)?;
    Ok(last(three, found))
}
