//! Laws of the theorems of a database, each the contract of a function that does nothing.
#![tactic(auto)]

ghost use Rattle.theorem_laws.specs.ProofPlaces.{ProofsStand};

/// In a text without a fault the proof of each `$p` stands between its `$=` and its `$.`.
pub fn proofs_stand()
    ensures { ProofsStand }
{}
