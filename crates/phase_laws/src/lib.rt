//! Laws of what the phases of the unifier hand on. Each is the contract of a function that does nothing.
#![tactic(auto)]

ghost use Rattle.std.specs.Prelude.{ℕ, List};
ghost use Rattle.mm_model.specs.Book.{Database};
ghost use Rattle.written_model.specs.declared.options.Options.{Options};
ghost use Rattle.written_model.specs.Written.{Writing};
ghost use Rattle.phase_laws.specs.Places.{BoundIsCounted, SoundIsShort};
ghost use Rattle.phase_laws.specs.Ends.{WrittenIsEarlier, FinishedIsProvable, LabelHasName};

/// Of a text of at most 2^24 bytes, which is what a text without a fault has, each place names a step, and there are fewer
/// than 2^32 steps, and places of a step.
pub fn bound_is_counted()
    ensures counted { BoundIsCounted }
    ensures short { SoundIsShort }
{}

/// Each place of what a worksheet becomes names an earlier step.
pub fn written_is_earlier()
    ensures { (db : Database) (text : List ℕ) (options : Options) (w : Writing) → WrittenIsEarlier db text options w }
{}

/// The steps of a finished worksheet have what its proof is written from.
pub fn finished_is_provable()
    ensures { FinishedIsProvable }
{}

/// A label that is found by a name has that name.
pub fn label_has_name()
    ensures { LabelHasName }
{}
