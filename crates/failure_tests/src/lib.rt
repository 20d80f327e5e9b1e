//! Tests of the program where the outside fails or means harm: devices of which each call fails in turn, sinks with room for a
//! part of their text, files that change between two calls, and texts that are cut, deep, or larger than a limit.
#![tactic(auto)]

#[cfg(test)]
mod calls;
#[cfg(test)]
mod changing;
#[cfg(test)]
mod commands;
#[cfg(test)]
mod cuts;
#[cfg(test)]
mod depths;
#[cfg(test)]
mod devices;
#[cfg(test)]
mod doublings;
#[cfg(test)]
mod given;
#[cfg(test)]
mod rooms;
#[cfg(test)]
mod scripted;
#[cfg(test)]
mod sizes;
#[cfg(test)]
mod texts;
