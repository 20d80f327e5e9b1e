//! Answers a call of the program: reads the files that its words name, and writes what comes of them.
#![tactic(auto)]

mod auto;
mod both;
mod call;
mod command;
mod deliver;
mod endings;
mod export;
mod files;
mod install;
mod opening;
mod options;
mod select;
mod sheet;
mod trial;
mod unify;
mod verify;

pub use call::run;
