ghost use Rattle.std.specs.Prelude.{◌≡◌, ◌<◌, length, IfOk};
ghost use Rattle.std.specs.List.{AllByRecursion};
ghost use Rattle.std.specs.Option.{option_copied};
ghost use Rattle.mm_database.specs.ByHead.{by_head};
ghost use Rattle.mm_frames.specs.Contents.{frame_at};
ghost use Rattle.ref_search.specs.declared.placing.Fit.{Fit as FitOf};
ghost use Rattle.ref_search.specs.Placing.{HasValues, IsClosed};
ghost use Rattle.ref_search.specs.Searching.{ForEachText, IsCandidate, IsFirstAmong, IsFirstBelow, IsLabelFit, IsSoundBelow, IsSoundUse, HasFound, RiseFrom, head_of, upto};
ghost use Rattle.ref_search.specs.Wholes.{IsAnswer};

use crate::placing::{Fit, fit_to};
use crate::sought::Sought;
use crate::wanted::{Found, Wanted};
use hyp_order::first_order;
use mm_base::{Label, List, Memory, Pair, Tree};
use mm_database::Database;
use mm_frames::Frames;
use mm_model::Frame;
use model_laws::frames_are_whole;
use std::alloc::Global;

/// The frame of a label; none where it is no assertion's.
pub fn frame_of(frames: &Frames, label: Label) -> Option<&Frame>
    ensures { option_copied result ≡ frame_at frames.now label }
{
    match frames.frames().get(label.0 as usize) {
        None => None,
        Some(frame) => frame.as_ref(),
    }
}

/// The first order in which the assertion of a label fits.
pub(crate) fn fit_label(
    alloc: Global,
    db: &Database,
    label: Label,
    sought: &Sought,
) -> Result<Option<Fit>, Memory>
    requires closed { IsClosed sought.now.wanted.now }
    requires candidate { IsCandidate db.now.parsed (length sought.now.wanted.now.hyps) label }
    ensures first { IfOk result (λ o. ForEachText db.now (λ d. IsLabelFit d (option_copied sought.now.given) sought.now.wanted.now label o)) }
    ensures sound { IfOk result (HasValues (λ (fit : FitOf). IsSoundUse db.now label fit.trees)) }
{
    frames_are_whole();
    match frame_of(db.frames(), label) {
        None => Ok(None),
        Some(frame) => fit_to(
            alloc,
            frame,
            db.vars(label),
            db.tree(label),
            db.hyp_trees(label),
            sought,
        ),
    }
}

fn found_by(label: Label, fit: Fit) -> Found
    ensures { result ≡ record { label = label; trees = fit.trees; order = fit.order } }
{
    let Fit { order, trees } = fit;
    Found {
        label,
        trees,
        order,
    }
}

/// The first of these labels that is below the bound and whose assertion fits.
fn first_among(
    alloc: Global,
    db: &Database,
    labels: &[Label],
    bound: u32,
    sought: &Sought,
) -> Result<Option<Found>, Memory>
    requires closed { IsClosed sought.now.wanted.now }
    requires candidates { AllByRecursion (IsCandidate db.now.parsed (length sought.now.wanted.now.hyps)) labels.now }
    requires rise { RiseFrom 0 labels.now }
    ensures first { IfOk result (λ o. ForEachText db.now (λ d. IsFirstAmong d (option_copied sought.now.given) sought.now.wanted.now labels.now bound o)) }
    ensures sound { IfOk result (HasFound (IsSoundBelow db.now bound)) }
{
    for label in labels {
        if label.0 >= bound {
            return Ok(None);
        }
        match fit_label(alloc, db, *label, sought)? {
            None => {}
            Some(fit) => return Ok(Some(found_by(*label, fit))),
        }
    }
    Ok(None)
}

/// The first label below the bound whose assertion has this head and fits.
fn first_at(
    alloc: Global,
    db: &Database,
    head: Option<Label>,
    bound: u32,
    sought: &Sought,
) -> Result<Option<Found>, Memory>
    requires closed { IsClosed sought.now.wanted.now }
    ensures first { IfOk result (λ o. ForEachText db.now (λ d. IsFirstAmong d (option_copied sought.now.given) sought.now.wanted.now
        (by_head db.now.parsed head (length sought.now.wanted.now.hyps)) bound o)) }
    ensures sound { IfOk result (HasFound (IsSoundBelow db.now bound)) }
{
    let count = sought.wanted.hyps.as_slice().len();
    if count > u32::MAX as usize {
        return Err(Memory);
    }
    let labels = db.by_head(head, count as u32).as_slice();
    first_among(alloc, db, labels, bound, sought)
}

/// The label at the head of a tree; none where it is a variable.
pub fn head(tree: &Tree) -> Option<Label>
    ensures { result ≡ head_of tree.now }
{
    match tree {
        Tree::Var(_, _) => None,
        Tree::Work(_, _) => None,
        Tree::Fresh(_, _) => None,
        Tree::Node(label, _, _) => Some(*label),
    }
}

/// The number of the label that is found, else the bound.
fn below(found: &Option<Found>, bound: u32) -> u32
    ensures { result ≡ upto bound found.now }
{
    match found {
        None => bound,
        Some(found) => found.label.0,
    }
}

/// The first label below the bound whose assertion fits: an assertion whose conclusion is a variable, or one with the
/// head of the wanted formula. The other ones never fit.
fn first_below(
    alloc: Global,
    db: &Database,
    bound: u32,
    sought: &Sought,
) -> Result<Option<Found>, Memory>
    requires closed { IsClosed sought.now.wanted.now }
    ensures first { IfOk result (λ o. ForEachText db.now (λ d. IsFirstBelow d (option_copied sought.now.given) sought.now.wanted.now bound o)) }
    ensures sound { IfOk result (HasFound (IsSoundBelow db.now bound)) }
{
    let early = first_at(alloc, db, None, bound, sought)?;
    let Some(label) = head(&sought.wanted.formula) else {
        return Ok(early);
    };
    let bound = below(&early, bound);
    match first_at(alloc, db, Some(label), bound, sought)? {
        None => Ok(early),
        Some(late) => Ok(Some(late)),
    }
}

/// The first usable assertion before a place, in database order, that has as many `$e` as there are wanted hypotheses,
/// and of which one substitution makes the conclusion the wanted formula and the `$e` the wanted hypotheses in some
/// order, without a clash; where pairs are given, each needed pair has to be among them. Two to six hypotheses are tried
/// in each order, in lexicographic order of their places, else as they are listed. None exactly where there is none.
///
/// It goes through the assertions whose conclusion is a variable and those with the head of the wanted formula. It takes
/// memory for one order, for the bindings of an assertion whose conclusion has the wanted formula's shape, and for copies
/// of the values where all trees fit. `Memory`: there is no room for them, or there are 2^32 or more wanted hypotheses, which
/// no worksheet within the limits has.
pub fn first(
    alloc: Global,
    db: &Database,
    place: u32,
    wanted: &Wanted,
    allowed: Option<&List<Pair>>,
) -> Result<Option<Found>, Memory>
    requires { IsClosed wanted.now }
    ensures answer { IfOk result (IsAnswer db.now place wanted.now (option_copied allowed.entry)) }
    ensures sound { IfOk result (HasFound (IsSoundBelow db.now (length db.now.contents.labels))) }
{
    let count = wanted.hyps.as_slice().len();
    if count > u32::MAX as usize {
        return Err(Memory);
    }
    let places = first_order(alloc, count as u32)?;
    let bound = db.before(place);
    let sought = Sought {
        wanted,
        places: places.as_slice(),
        given: allowed,
    };
    first_below(alloc, db, bound, &sought)
}
