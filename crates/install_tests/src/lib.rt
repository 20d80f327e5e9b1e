//! Tests of theorems that are put into the text of a database.
#![tactic(auto)]

#[cfg(test)]
mod theorems;
