//! Tests of the libraries that read, bind, fill and write worksheets, that search for references, and of the store of
//! terms: examples from outside, and the public calls, by themselves or through others, where memory is ample.
#![tactic(auto)]

#[cfg(test)]
mod binding;
#[cfg(test)]
mod layout;
#[cfg(test)]
mod opened;
#[cfg(test)]
mod orders;
#[cfg(test)]
mod searching;
#[cfg(test)]
mod selecting;
#[cfg(test)]
mod sheets;
#[cfg(test)]
mod terms;
#[cfg(test)]
mod trail;
#[cfg(test)]
mod trees;
#[cfg(test)]
mod work_variables;
