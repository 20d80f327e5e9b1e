//! Laws of what the proofs of a written worksheet leave on the stack. Each is the contract of a function that does nothing.
#![tactic(auto)]

ghost use Rattle.std.specs.Prelude.{ℕ, List};
ghost use Rattle.mm_base.specs.declared.kinds.Kinds.{Kinds};
ghost use Rattle.mm_model.specs.Book.{Database};
ghost use Rattle.proof_model.specs.declared.theorem.Theorem.{Theorem};
ghost use Rattle.written_model.specs.declared.options.Options.{Options};
ghost use Rattle.written_model.specs.Written.{Writing};
ghost use Rattle.written_model.specs.ProofsPush.{TreeProofPushes, StepProofPushes, StepProofHasArities};
ghost use Rattle.push_laws.specs.QedProof.{QedProofIsAccepted, QedCodeIsRead};
ghost use Rattle.push_laws.specs.WrittenProof.{WrittenProofIsAccepted, UnfinishedHasNoProof};

use answer_laws::written_reads_back;

/// The proof of a tree pushes its typecode and its text.
pub fn tree_proof_pushes()
    ensures { (kinds : Kinds) (db : Database) (theorem : Theorem) → TreeProofPushes kinds db theorem }
{}

/// In a finished worksheet the proof of each step below `qed` pushes its formula, and each label in it has as many subproofs as
/// it takes hypotheses.
pub fn step_proof_pushes()
    ensures pushes { (db : Database) (text : List ℕ) (options : Options) (w : Writing) → StepProofPushes db text options w }
    ensures arities { (db : Database) (text : List ℕ) (options : Options) (w : Writing) → StepProofHasArities db text options w }
{}

/// The stack machine accepts the proof of a finished worksheet for the printed theorem with the printed pairs: its labels, and
/// its compressed code.
pub fn qed_proof_is_accepted()
    ensures { (db : Database) (text : List ℕ) (options : Options) (w : Writing) → QedProofIsAccepted db text options w }
{}

/// The compressed code of the proof of a finished worksheet can be written, and its text has no fault and spells it.
pub fn qed_code_is_read()
    ensures { (db : Database) (text : List ℕ) (options : Options) (w : Writing) → QedCodeIsRead db text options w }
{}

/// The written text of a finished worksheet without a late fault proves itself: the theorem and the proof are read back from
/// its bytes, and the stack machine accepts the proof for the theorem.
pub fn written_proof_is_accepted()
    ensures { (db : Database) (text : List ℕ) (options : Options) (w : Writing) → WrittenProofIsAccepted db text options w }
{
    written_reads_back();
}

/// The written text of an unfinished worksheet has no proof.
pub fn written_without_proof()
    ensures { (db : Database) (text : List ℕ) (options : Options) (w : Writing) → UnfinishedHasNoProof db text options w }
{
    written_reads_back();
}
