//! Laws of proofs. Each is the contract of a function that does nothing.
#![tactic(auto)]

ghost use Rattle.proof_model.specs.declared.theorem.Theorem.{Theorem};
ghost use Rattle.proof_model.specs.Machine.{Frames};
ghost use Rattle.proof_laws.specs.Accepted.{EndsWithTheorem};
ghost use Rattle.proof_laws.specs.CodeEnds.{CodeEndsAsLabels, LabelsEndAsCode, CodeIsAccepted, LabelsAreAccepted};
ghost use Rattle.proof_laws.specs.Labels.{NormalRunsLabels};
ghost use Rattle.proof_laws.specs.Spellings.{NumberIsSpelledOnce, NumberIsSpelled, StepsAreSpelledOnce, StepsAreSpelled};
ghost use Rattle.proof_laws.specs.WrittenCode.{WrittenSpells, WrittenIsSound, SpellsOne, SoundSpells};

/// A proof is accepted exactly where it ends with the theorem's formula alone on the stack.
pub fn accepted_ends_with_theorem()
    ensures { (frames : Frames) (theorem : Theorem) → EndsWithTheorem frames theorem }
{}

/// A normal proof ends with the stack that its labels leave, one after the other.
pub fn normal_proof_runs_its_labels()
    ensures { (frames : Frames) (theorem : Theorem) → NormalRunsLabels frames theorem }
{}

/// A proof whose labels have their arities and its compressed code end with the same stack: where the labels end with one,
/// the code does, and the other way where no label is `?`. So each is accepted where the other is.
pub fn code_ends_alike()
    ensures code { (frames : Frames) (theorem : Theorem) → CodeEndsAsLabels frames theorem }
    ensures labels { (frames : Frames) (theorem : Theorem) → LabelsEndAsCode frames theorem }
    ensures code_accepted { (frames : Frames) (theorem : Theorem) → CodeIsAccepted frames theorem }
    ensures labels_accepted { (frames : Frames) (theorem : Theorem) → LabelsAreAccepted frames theorem }
{}

/// Each number from 1 has exactly one spelling in letters, and so has each list of steps.
pub fn one_spelling()
    ensures number_once { NumberIsSpelledOnce }
    ensures number { NumberIsSpelled }
    ensures steps_once { StepsAreSpelledOnce }
    ensures steps { StepsAreSpelled }
{}

/// The text of a code is read as that code: it spells it, has no fault, and no text spells two codes.
pub fn written_code_is_read()
    ensures spells { WrittenSpells }
    ensures sound { WrittenIsSound }
    ensures one { SpellsOne }
{}

/// A text without a fault is a code: it spells one.
pub fn sound_text_is_a_code()
    ensures { SoundSpells }
{}
