//! Tests of the chain of a worksheet's steps and of proofs as graphs: examples from outside, through the public calls, where
//! memory is ample.
#![tactic(auto)]

#[cfg(test)]
mod chains;
#[cfg(test)]
mod graphs;
#[cfg(test)]
mod opened;
