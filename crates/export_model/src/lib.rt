//! Proofs of a database as worksheets. It has definitions and no code of its own.
#![tactic(auto)]
