//! Tests of the libraries that read databases, formulas and proofs: examples from outside, and the public calls, by
//! themselves or through others, where memory is ample.
#![tactic(auto)]

#[cfg(test)]
mod ambiguous_texts;
#[cfg(test)]
mod base;
#[cfg(test)]
mod database;
#[cfg(test)]
mod formulas;
#[cfg(test)]
mod frames;
#[cfg(test)]
mod proof_codes;
#[cfg(test)]
mod proofs;
#[cfg(test)]
mod tokens;
