//! The assertions that a step of a written worksheet fits. It has definitions and no code of its own.
#![tactic(auto)]
