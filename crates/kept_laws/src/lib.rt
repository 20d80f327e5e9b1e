//! Laws of what the text of a database with a theorem put in keeps. Each is the contract of a function that does nothing.
#![tactic(auto)]

ghost use Rattle.call_answers.specs.Kept.{LawOfInstalling};
ghost use Rattle.kept_laws.specs.KeptProofs.{NewProofIsAccepted, OldProofsEndAsBefore};

use installed_laws::{finished_can_be_put_in, installed_text_has_no_fault};

/// The new theorem of a finished worksheet is accepted in the text with it, where it can be put in.
pub fn new_proof_is_accepted()
    ensures { NewProofIsAccepted }
{}

/// A proof of a text that was accepted is accepted in the text with a theorem that can be put in; and one that does not name
/// the theorem is accepted there only where it was.
pub fn old_proofs_end_as_before()
    ensures { OldProofsEndAsBefore }
{}

/// What `install` writes of a finished worksheet over a text without a fault has no fault, has the old labels in their order with
/// their frames and the new ones, and proves what the text proved, and the new theorem.
pub fn installing_keeps_all()
    ensures { LawOfInstalling }
{
    finished_can_be_put_in();
    installed_text_has_no_fault();
}
