ghost use Rattle.std.specs.Prelude.{◌≡◌, length, map, Some, IsSome};
ghost use Rattle.std.specs.Option.{option_copied};
ghost use Rattle.mm_model.specs.Productions.{TypedVariable};
ghost use Rattle.mm_model.specs.Book.{Assertion};
ghost use Rattle.mm_frames.specs.Contents.{frame_at};
ghost use Rattle.mm_database.specs.Opened.{IsOpened};
ghost use Rattle.mm_database.specs.Books.{parsed_at};
ghost use Rattle.written_steps.specs.Drafts.{IsSoundUse, usable_in, ForEachText};

use crate::draft::StepUse;
use mm_base::{Label, List, Pair, Sym};
use mm_database::Database;
use mm_frames::Frames;
use mm_model::Frame;

/// The variables of the assertion's frame, in its order.
pub fn variables<'d>(db: &'d Database, by: &StepUse) -> &'d List<Sym>
    requires { IsSoundUse db.now by.now }
    ensures { ForEachText db.now ((a : Assertion) → usable_in db.now by.now.label ≡ Some a → result.now ≡ map (λ (v : TypedVariable). v.sym) a.vars) }
{
    db.vars(by.label)
}

/// How many `$e` the assertion has.
pub fn hyp_count(db: &Database, by: &StepUse) -> usize
    requires { IsSoundUse db.now by.now }
    ensures { (a : Assertion) → usable_in db.now by.now.label ≡ Some a → result ≡ length a.hyps }
{
    db.hyp_trees(by.label).as_slice().len()
}

/// The frame of a label; none where it is no assertion's.
fn frame_of(frames: &Frames, label: Label) -> Option<&Frame>
    ensures { option_copied result ≡ frame_at frames.now label }
{
    match frames.frames().get(label.0 as usize) {
        None => None,
        Some(frame) => frame.as_ref(),
    }
}

/// The mandatory pairs of the assertion.
pub fn pairs<'d>(db: &'d Database, by: &StepUse) -> &'d List<Pair>
    requires { IsSoundUse db.now by.now }
    ensures { (a : Assertion) → usable_in db.now by.now.label ≡ Some a → result.now ≡ a.frame.pairs }
{
    match frame_of(db.frames(), by.label) {
        Some(frame) => &frame.pairs,
        None => unreachable!(),
    }
}
