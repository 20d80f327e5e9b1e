//! The frames of all assertions.

ghost use Rattle.std.specs.Prelude.{◌≡◌, ◌<◌, ◌^◌, ℕ, List, [], length, None, IfOk, OnOk};
ghost use Rattle.mm_model.specs.Statements.{statements, statement_fault};
ghost use Rattle.frame_lists.specs.Lists.{AreOf};
ghost use Rattle.frame_lists.specs.Listings.{frames_of};
ghost use Rattle.frame_lists.specs.Orders.{IsAdded, IsFrameIf, IsFrameOf};
ghost use Rattle.frame_lists.specs.Steps as step;
ghost use Rattle.frame_lists.specs.Together.{IsFront};

use crate::entry::{Entry, is_assertion, is_axiom};
use crate::hypotheses::mandatory_hypotheses;
use crate::listed::Listed;
use crate::mandatory::mark_mandatory;
use crate::pairs::pairs_known;
use crate::scope::Scope;
use crate::stack::Stack;
use crate::together::Together;
use mm_base::{Label, List, Memory};
use mm_model::Frame;
use model_laws::statements_are_sound;
use number_set::NumberSet;
use std::alloc::Global;

/// The frame of an assertion. The set is used for its mandatory variables.
fn assertion(
    alloc: Global,
    listed: &Listed,
    scope: &Scope,
    marked: &mut NumberSet,
    together: &Together,
    entry: &Entry,
    number: u32,
    label: u32,
) -> Result<Frame, Memory>
    requires { IsFront listed.now scope.now.distinct together.now }
    ensures { IfOk result (IsFrameOf listed.now scope.now entry.now number label) }
{
    mark_mandatory(marked, scope, listed, entry.symbols.as_slice())?;
    Ok(Frame {
        label: Label(label),
        is_axiom: is_axiom(entry.kind),
        at: number,
        formula: List::copy_of(alloc, entry.symbols.as_slice())?,
        hyps: mandatory_hypotheses(alloc, listed, scope, marked)?,
        pairs: pairs_known(alloc, listed, scope.distinct.as_slice(), together, marked)?,
    })
}

/// The frame of the label of a statement, if that is an assertion.
fn of_label(
    alloc: Global,
    listed: &Listed,
    scope: &Scope,
    marked: &mut NumberSet,
    together: &Together,
    entry: &Entry,
    number: u32,
    label: u32,
) -> Result<Option<Frame>, Memory>
    requires { IsFront listed.now scope.now.distinct together.now }
    ensures { IfOk result (IsFrameIf (step.is_assertion entry.now.kind) listed.now scope.now entry.now number label) }
{
    if is_assertion(entry.kind) {
        return Ok(Some(assertion(alloc, listed, scope, marked, together, entry, number, label)?));
    }
    Ok(None)
}

/// Adds what the label of a statement has, if it has one.
fn add_frame(
    alloc: Global,
    listed: &Listed,
    scope: &Scope,
    marked: &mut NumberSet,
    together: &mut Together,
    frames: &mut Stack<Option<Frame>>,
    entry: &Entry,
    number: u32,
    label: u32,
) -> Result<(), Memory>
    requires { IsFront listed.now scope.now.distinct together.old }
    ensures front { OnOk result (IsFront listed.now scope.now.distinct together.new) }
    ensures added { OnOk result (IsAdded (step.is_label_of listed.now label number) listed.now scope.now entry.now number label frames.old frames.new) }
{
    if listed.is_label_of(label, number) {
        together.follow(alloc, listed, scope.distinct.as_slice())?;
        let frame = of_label(alloc, listed, scope, marked, together, entry, number, label)?;
        frames.push(frame)?;
    }
    Ok(())
}

/// Adds what each label has, in one pass over the statements, to an empty list. The set is used for mandatory variables.
fn add_frames(
    alloc: Global,
    listed: &Listed,
    scope: &mut Scope,
    marked: &mut NumberSet,
    together: &mut Together,
    frames: &mut Stack<Option<Frame>>,
) -> Result<(), Memory>
    requires number { length listed.now.entries < 2 ^ 32 }
    requires nothing_active { scope.old ≡ step.first_scope }
    requires nothing_known { IsFront listed.now [] together.old }
    requires no_frames { frames.old ≡ [] }
    ensures { (text : List ℕ) → statement_fault text ≡ None → AreOf listed.now (statements text) → OnOk result (frames.new ≡ frames_of (statements text)) }
{
    statements_are_sound();
    let entries = listed.entries.as_slice();
    for number in 0..entries.len() {
        let entry = &entries[number];
        let label = frames.len() as u32;
        add_frame(
            alloc,
            listed,
            scope,
            marked,
            together,
            frames,
            entry,
            number as u32,
            label,
        )?;
        scope.pass(entry, number as u32, label)?;
        together.cut(scope.distinct.len());
    }
    Ok(())
}

/// The same, with a scope and a set of its own.
fn fill_frames(
    alloc: Global,
    listed: &Listed,
    frames: &mut Stack<Option<Frame>>,
) -> Result<(), Memory>
    requires number { length listed.now.entries < 2 ^ 32 }
    requires no_frames { frames.old ≡ [] }
    ensures { (text : List ℕ) → statement_fault text ≡ None → AreOf listed.now (statements text) → OnOk result (frames.new ≡ frames_of (statements text)) }
{
    let mut scope = Scope::new(alloc);
    let mut marked = NumberSet::new(alloc);
    let mut together = Together::new(alloc);
    add_frames(
        alloc,
        listed,
        &mut scope,
        &mut marked,
        &mut together,
        frames,
    )
}

/// The frames by label; none where it is no label of an assertion. It takes one pass over the statements. At an assertion
/// its frame and the active `$e` are looked at, and of the active `$d` those few that came last and those from the first wide
/// one on; all of them where it has more than 64 variables.
pub fn frames_by_label(alloc: Global, listed: &Listed) -> Result<Stack<Option<Frame>>, Memory>
    requires { length listed.now.entries < 2 ^ 32 }
    ensures { (text : List ℕ) → statement_fault text ≡ None → AreOf listed.now (statements text) → IfOk result (λ fs. fs ≡ frames_of (statements text)) }
{
    let mut frames = Stack::new(alloc);
    fill_frames(alloc, listed, &mut frames)?;
    Ok(frames)
}
