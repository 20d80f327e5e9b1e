//! What the labels of a proof name, looked up once.

ghost use Rattle.std.specs.Prelude.{◌≡◌, ℕ, ◌+◌, ◌-◌, ◌≤◌, ◌<◌, ◌^◌, List, [], ◌++◌, ◌∷◌, length, OnOk, IfOk};
ghost use Rattle.std.specs.Option.{option_copied};
ghost use Rattle.proof_model.specs.Machine.{Frames};
ghost use Rattle.stack_verify.specs.Lookups.{IsFound, IsIndexOf, look, place_of};

use crate::run::Found;
use mm_base::Memory;
use mm_model::{Frame, Hyp};
use names::Names;
use proof_model::Theorem;
use std::alloc::Global;

/// The active hypotheses of a theorem by their labels.
#[derive(Drop)]
pub(crate) struct HypLabels {
    /// The labels, each once.
    labels: Names,
    /// The number of the first hypothesis with each of them.
    places: Vec<u32>,
}

fn place_at(places: &[u32], number: Option<u32>) -> Option<u32>
    ensures { result ≡ look places.now number }
{
    match number {
        None => None,
        Some(k) => places.get(k as usize).copied(),
    }
}

impl HypLabels {
    fn new(alloc: Global) -> HypLabels
        ensures index { IsIndexOf [] result }
        ensures empty { length result.labels ≡ 0 }
    {
        HypLabels {
            labels: Names::new(alloc),
            places: Vec::new(alloc),
        }
    }

    /// Puts in the hypothesis of this number, if its label is not there.
    fn add(&mut self, hyp: &Hyp, place: u32) -> Result<(), Memory>
        requires { length self.old.labels + 1 < 2 ^ 32 }
        ensures added { OnOk result ((hyps : List Hyp) → length hyps ≡ place → IsIndexOf hyps self.old → IsIndexOf (hyps ++ hyp.now ∷ []) self.new) }
        ensures grown { OnOk result (length self.new.labels ≤ length self.old.labels + 1) }
    {
        let name = hyp.name.as_slice();
        if !self.labels.contains(name) {
            self.labels.add(name)?;
            self.places.push(place)?;
        }
        Ok(())
    }

    /// The hypotheses by their labels.
    pub(crate) fn of(alloc: Global, hyps: &[Hyp]) -> Result<HypLabels, Memory>
        requires { length hyps.now < 2 ^ 32 - 1 }
        ensures { IfOk result (λ index. IsIndexOf hyps.now index) }
    {
        let mut index = HypLabels::new(alloc);
        for (place, hyp) in hyps.iter().enumerate() {
            index.add(hyp, place as u32)?;
        }
        Ok(index)
    }

    /// The number of the first hypothesis with a label.
    pub(crate) fn place(&self, label: &[u8]) -> Option<u32>
        ensures { (hyps : List Hyp) → IsIndexOf hyps self.now → result ≡ place_of hyps label.now }
    {
        place_at(self.places.as_slice(), self.labels.number(label))
    }
}

/// What a label names: a hypothesis, and else an assertion before the theorem's place.
pub(crate) fn found_of<'f>(
    theorem: &Theorem,
    hyp: Option<u32>,
    frame: Option<&'f Frame>,
) -> Found<'f>
    ensures { (frames : Frames) (label : List ℕ) → hyp ≡ place_of theorem.now.hyps label → option_copied frame.entry ≡ frames label → IsFound frames theorem.now label result }
{
    match hyp {
        Some(number) => Found::Hyp(number),
        None => match frame {
            None => Found::Nothing,
            Some(frame) => {
                if frame.at < theorem.at {
                    Found::Assertion(frame)
                } else {
                    Found::Nothing
                }
            }
        },
    }
}
