//! How many `$e` are active at a place.

ghost use Rattle.std.specs.Prelude.{◌≡◌, ◌≤◌, ℕ, List, length, IfOk};
ghost use Rattle.mm_model.specs.Frames.{active_at};
ghost use Rattle.mm_model.specs.Productions.{essentials};
ghost use Rattle.mm_model.specs.Statements.{statements, statement_fault};
ghost use Rattle.mm_frames.specs.Contents.{contents_of};

use mm_base::Memory;
use mm_frames::{Frames, Hyp};

/// How many of these hypotheses are `$e`.
fn count_essentials(hyps: &[Hyp]) -> usize
    ensures { result ≡ length (essentials hyps.now) }
{
    let mut count = 0;
    for hyp in hyps {
        if !hyp.floating {
            count += 1;
        }
    }
    count
}

/// How many `$e` are active at a place. It takes one pass over the statements below the place.
pub(crate) fn outer_hyps(frames: &Frames, place: u32) -> Result<usize, Memory>
    requires { place ≤ length frames.now.entries }
    ensures { (text : List ℕ) → frames.now ≡ contents_of text → statement_fault text ≡ None
        → IfOk result (λ count. count ≡ length (essentials (active_at (statements text) place).hyps)) }
{
    match frames.active_at(place) {
        Err(_) => Err(Memory),
        Ok(active) => Ok(count_essentials(active.hyps.as_slice())),
    }
}
