//! The stack machine over the steps of an accepted proof: it looks for no faults.

ghost use Rattle.std.specs.Prelude.{◌≡◌, ◌≤◌, ◌<◌, length, drop, take, reverse, slice_get, slice_index_or, [], OnOk, Ok};
ghost use Rattle.proof_model.specs.Machine.{start, push, use_kept, keep_top};
ghost use Rattle.proof_export.specs.Machines.{state, applied_to};

use crate::substitution::substituted;
use mm_base::{List, Memory, Sym};
use mm_model::Frame;
use std::alloc::Global;

/// The stack, and what the marked steps left.
#[derive(Drop)]
pub(crate) struct Machine {
    alloc: Global,
    /// The entries, the oldest first.
    stack: Vec<List<Sym>>,
    /// What the marked steps left, in order of marking.
    kept: Vec<List<Sym>>,
}

fn behind(entries: &[List<Sym>], place: usize) -> &[List<Sym>]
    requires { place ≤ length entries.now }
    ensures { result.now ≡ drop place entries.now }
{
    &entries[place..]
}

impl Machine {
    pub(crate) fn new(alloc: Global) -> Machine
        ensures { state result ≡ start }
    {
        Machine {
            alloc,
            stack: Vec::new(alloc),
            kept: Vec::new(alloc),
        }
    }

    /// So many of the newest entries, the oldest of them first.
    pub(crate) fn top(&self, count: usize) -> &[List<Sym>]
        requires { count ≤ length (state self.now).stack }
        ensures { result.now ≡ reverse (take count (state self.now).stack) }
    {
        behind(self.stack.as_slice(), self.stack.len() - count)
    }

    /// The newest entry; the empty one where there is none.
    pub(crate) fn newest(&self) -> &[Sym]
        ensures { result.now ≡ slice_index_or (state self.now).stack 0 [] }
    {
        match self.stack.as_slice().last() {
            None => &[],
            Some(formula) => formula.as_slice(),
        }
    }

    pub(crate) fn push(&mut self, formula: &[Sym]) -> Result<(), Memory>
        ensures { OnOk result (state self.new ≡ push formula.now (state self.old)) }
    {
        self.stack.push(List::copy_of(self.alloc, formula)?)?;
        Ok(())
    }

    /// Pushes what a marked step left.
    pub(crate) fn push_kept(&mut self, number: u32) -> Result<(), Memory>
        requires { number < length (state self.old).kept }
        ensures { OnOk result (use_kept (slice_get (state self.old).kept number) (state self.old) ≡ Ok (state self.new)) }
    {
        let formula = List::copy_of(self.alloc, self.kept.as_slice()[number as usize].as_slice())?;
        self.stack.push(formula)?;
        Ok(())
    }

    /// Keeps the newest entry, if the step is marked.
    pub(crate) fn keep_top(&mut self, marked: bool) -> Result<(), Memory>
        ensures { OnOk result (state self.new ≡ keep_top marked (state self.old)) }
    {
        if marked {
            if let Some(formula) = self.stack.as_slice().last() {
                let formula = List::copy_of(self.alloc, formula.as_slice())?;
                self.kept.push(formula)?;
            }
        }
        Ok(())
    }

    /// Takes the entries for an assertion's hypotheses, and pushes its substituted formula.
    pub(crate) fn apply(&mut self, frame: &Frame) -> Result<(), Memory>
        requires { length frame.now.hyps ≤ length (state self.old).stack }
        ensures { OnOk result (state self.new ≡ applied_to frame.now (state self.old)) }
    {
        let hyps = frame.hyps.as_slice();
        let entries = self.top(hyps.len());
        let formula = substituted(self.alloc, hyps, entries, frame.formula.as_slice())?;
        self.stack.truncate(self.stack.len() - hyps.len());
        self.stack.push(formula)?;
        Ok(())
    }
}
