//! What a label of a proof names.

ghost use Rattle.std.specs.Prelude.{◌≡◌, ℕ, List, ◌++◌, ◌∷◌, [], length, OnOk, IfOk};
ghost use Rattle.std.specs.Option.{option_copied};
ghost use Rattle.mm_model.specs.declared.frames.Hyp.{Hyp};
ghost use Rattle.mm_model.specs.Names.{Name};
ghost use Rattle.mm_frames.specs.Contents.{frame_at};
ghost use Rattle.written_model.specs.Written.{frames_of};
ghost use Rattle.proof_export.specs.Books.{book_in};
ghost use Rattle.proof_export.specs.Places.{AreHyps, number_at};

use indexmap::IndexMap;
use mm_base::{Label, Memory};
use mm_frames::{Frame, Frames, Hyp};
use std::alloc::Global;

/// Puts in the hypothesis of this number, if none has its label.
fn put_hyp(
    alloc: Global,
    places: &mut IndexMap<Vec<u8>, usize>,
    hyp: &Hyp,
    place: usize,
) -> Result<(), Memory>
    ensures { OnOk result ((hyps : List Hyp) → length hyps ≡ place → AreHyps hyps places.old.entries → AreHyps (hyps ++ hyp.now ∷ []) places.new.entries) }
{
    let name = hyp.name.as_slice();
    if !places.contains_key(name) {
        places.insert(Vec::from_slice(alloc, name)?, place)?;
    }
    Ok(())
}

/// Hypotheses by their labels: the number of the first with each label.
pub(crate) fn hyp_places(alloc: Global, hyps: &[Hyp]) -> Result<IndexMap<Vec<u8>, usize>, Memory>
    ensures { IfOk result (λ places. AreHyps hyps.now places.entries) }
{
    let mut places = IndexMap::new(alloc);
    for (place, hyp) in hyps.iter().enumerate() {
        put_hyp(alloc, &mut places, hyp, place)?;
    }
    Ok(places)
}

/// The number of the first hypothesis with a label.
pub(crate) fn hyp_place(places: &IndexMap<Vec<u8>, usize>, label: &[u8]) -> Option<usize>
    ensures { result ≡ number_at places.now.entries label.now }
{
    places.get(label).copied()
}

/// The frame of a label; none where it is no label of an assertion.
fn frame_at(frames: &Frames, label: Label) -> Option<&Frame>
    ensures { option_copied result ≡ frame_at frames.now label }
{
    match frames.frames().get(label.0 as usize) {
        None => None,
        Some(frame) => frame.as_ref(),
    }
}

/// The frame of an assertion, by its name.
pub(crate) fn frame_named<'f>(frames: &'f Frames, name: &[u8]) -> Option<&'f Frame>
    ensures { (provable : Name) → option_copied result ≡ frames_of (book_in frames.now provable) name.now }
{
    match frames.label(name) {
        None => None,
        Some(label) => frame_at(frames, label),
    }
}
