//! Tests of whole calls of the program over files and sinks in memory: their words, worksheets that are unified, proofs that
//! are checked or become worksheets, theorems that are put into databases, steps that are asked about or filled, trials, and
//! files that are refused.
#![tactic(auto)]

#[cfg(test)]
mod autos;
#[cfg(test)]
mod calls;
#[cfg(test)]
mod databases;
#[cfg(test)]
mod ends;
#[cfg(test)]
mod exports;
#[cfg(test)]
mod files;
#[cfg(test)]
mod installs;
#[cfg(test)]
mod library;
#[cfg(test)]
mod row;
#[cfg(test)]
mod rows;
#[cfg(test)]
mod selects;
#[cfg(test)]
mod trial;
#[cfg(test)]
mod verify;
#[cfg(test)]
mod words;
#[cfg(test)]
mod worksheets;
