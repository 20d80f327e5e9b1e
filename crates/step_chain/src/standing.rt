ghost use Rattle.std.specs.Prelude.{◌≡◌, ◌<◌, ℕ, List, length, IsSome, Some, is_some, slice_index_or};
ghost use Rattle.mm_base.specs.declared.kinds.Kinds.{Kinds};
ghost use Rattle.mm_frames.specs.Contents.{frame_at};
ghost use Rattle.step_chain.specs.Standings.{standing_in, standing_at_label, standing_at_position, standing_at_usable, IsStandingOf};
ghost use Rattle.mm_database.specs.Books.{parsed_at, database_of};
ghost use Rattle.mm_database.specs.Opened.{IsOpened};

use mm_base::Label;
use mm_database::Database;
use solve_model::{BoundStep, Verdict};

/// What stands of a step before anything is solved.
#[derive(Clone, Copy, Debug)]
pub enum Standing {
    Settled(Verdict),
    /// It is a candidate of the usable assertion of this label.
    Candidate(Label),
}

/// What stands of a step of a usable assertion.
fn standing_of_usable(db: &Database, step: &BoundStep, label: Label) -> Standing
    requires { IsSome (parsed_at db.now.parsed label) }
    ensures { result ≡ standing_at_usable step.now label (parsed_at db.now.parsed label) }
{
    if step.places.as_slice().len() > db.hyp_trees(label).as_slice().len() {
        return Standing::Settled(Verdict::TooManyHyps);
    }
    Standing::Candidate(label)
}

fn has_frame(db: &Database, label: Label) -> bool
    ensures { result ≡ is_some (frame_at db.now.contents label) }
{
    match db.frames().frames().get(label.0 as usize) {
        Some(entry) => entry.is_some(),
        None => false,
    }
}

/// The number of a label's statement.
fn position_at(positions: &[u32], label: Label) -> u32
    ensures { result ≡ slice_index_or positions.now label.0 0 }
{
    match positions.get(label.0 as usize) {
        Some(position) => *position,
        None => 0,
    }
}

/// What stands of a step of an assertion at this position.
fn standing_at(db: &Database, place: u32, step: &BoundStep, label: Label, position: u32) -> Standing
    ensures { result ≡ standing_at_position db.now place step.now label position }
{
    if position >= place {
        return Standing::Settled(Verdict::NotUsable);
    }
    if !db.usable(label) {
        return Standing::Settled(Verdict::NotUsable);
    }
    standing_of_usable(db, step, label)
}

/// What stands of a step with this reference.
fn standing_of_label(db: &Database, place: u32, step: &BoundStep, label: Label) -> Standing
    ensures { result ≡ standing_at_label db.now place step.now label }
{
    if !has_frame(db, label) {
        return Standing::Settled(Verdict::UnknownRef);
    }
    let position = position_at(db.frames().positions(), label);
    standing_at(db, place, step, label, position)
}

fn standing_kept(db: &Database, place: u32, step: &BoundStep) -> Standing
    ensures { result ≡ standing_in db.now place step.now }
{
    if step.hyp {
        return Standing::Settled(Verdict::Hyp);
    }
    let Some(reference) = &step.reference else {
        return Standing::Settled(Verdict::NoRef);
    };
    match db.frames().label(reference.as_slice()) {
        Some(label) => standing_of_label(db, place, step, label),
        None => Standing::Settled(Verdict::UnknownRef),
    }
}

/// What stands of a step before anything is solved. It takes constant time.
pub fn standing_of(db: &Database, place: u32, step: &BoundStep) -> Standing
    ensures kept { result ≡ standing_in db.now place step.now }
    ensures standing { (kinds : Kinds) (text : List ℕ) → IsOpened kinds text db.now
        → IsStandingOf (database_of kinds text db.now.rows db.now.parsed) db.now place step.now result }
{
    standing_kept(db, place, step)
}
