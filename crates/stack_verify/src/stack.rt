//! The stack: its entries and the kept formulas are parts of one list of symbols that only grows.

ghost use Rattle.std.specs.Prelude.{◌≡◌, ◌≤◌, ◌+◌, drop, length, vec_len, OnOk, IfErr, Ok, slice_get};
ghost use Rattle.proof_model.specs.Machine.{start, push, apply_frame, use_kept, keep_top};
ghost use Rattle.stack_verify.specs.Contexts.{IsKnown};
ghost use Rattle.stack_verify.specs.Stacked.{IsSound, only, state};
ghost use Rattle.std.specs.Option.{option_copied};
ghost use Rattle.stack_verify.specs.Steps.{FailsWith};

use crate::entries::check_entries;
use crate::fault::StepFault;
use crate::formula::{Span, formula_in, push_substituted};
use crate::known::Known;
use crate::pairs::Buffers;
use crate::taken::Entries;
use mm_base::{Memory, Sym};
use mm_model::Frame;
use proof_model::Theorem;
use std::alloc::Global;

#[derive(Drop)]
pub(crate) struct Stack {
    symbols: Vec<Sym>,
    /// The entries, the oldest first.
    pub(crate) entries: Vec<Span>,
    /// What the marked steps left, in order of marking.
    kept: Vec<Span>,
}

fn span_at(spans: &[Span], number: u32) -> Option<Span>
    ensures { result ≡ slice_get spans.now number }
{
    spans.get(number as usize).copied()
}

fn behind(spans: &[Span], place: usize) -> &[Span]
    requires { place ≤ length spans.now }
    ensures { result.now ≡ drop place spans.now }
{
    &spans[place..]
}

impl Stack {
    pub(crate) fn new(alloc: Global) -> Stack
        ensures sound { IsSound result }
        ensures empty { state result ≡ start }
        ensures count { vec_len result.entries ≡ 0 }
    {
        Stack {
            symbols: Vec::new(alloc),
            entries: Vec::new(alloc),
            kept: Vec::new(alloc),
        }
    }

    pub(crate) fn len(&self) -> usize
        ensures stack { result ≡ length (state self.now).stack }
        ensures count { result ≡ vec_len self.now.entries }
    {
        self.entries.len()
    }

    pub(crate) fn push(&mut self, formula: &[Sym]) -> Result<(), Memory>
        requires { IsSound self.old }
        ensures sound { OnOk result (IsSound self.new) }
        ensures pushed { OnOk result (state self.new ≡ push formula.now (state self.old)) }
        ensures grown { OnOk result (vec_len self.new.entries ≤ vec_len self.old.entries + 1) }
    {
        let from = self.symbols.len();
        self.symbols.extend_from_slice(formula)?;
        let to = self.symbols.len();
        self.entries.push(Span { from, to })?;
        Ok(())
    }

    /// Pushes what a marked step left.
    pub(crate) fn push_kept(&mut self, number: u32) -> Result<(), StepFault>
        requires { IsSound self.old }
        ensures sound { OnOk result (IsSound self.new) }
        ensures pushed { OnOk result (use_kept (slice_get (state self.old).kept number) (state self.old) ≡ Ok (state self.new)) }
        ensures grown { OnOk result (vec_len self.new.entries ≤ vec_len self.old.entries + 1) }
        ensures fault { IfErr result (λ e. FailsWith e (use_kept (slice_get (state self.old).kept number) (state self.old))) }
    {
        match span_at(self.kept.as_slice(), number) {
            None => Err(StepFault::Unknown),
            Some(span) => {
                self.entries.push(span)?;
                Ok(())
            }
        }
    }

    /// Keeps the newest entry, if the step is marked.
    pub(crate) fn keep_top(&mut self, marked: bool) -> Result<(), Memory>
        requires { IsSound self.old }
        ensures sound { OnOk result (IsSound self.new) }
        ensures kept { OnOk result (state self.new ≡ keep_top marked (state self.old)) }
        ensures same { OnOk result (vec_len self.new.entries ≡ vec_len self.old.entries) }
    {
        if marked {
            if let Some(span) = self.entries.as_slice().last().copied() {
                self.kept.push(span)?;
            }
        }
        Ok(())
    }

    /// The entry, where there is one alone.
    pub(crate) fn only(&self) -> Option<&[Sym]>
        requires { IsSound self.now }
        ensures { option_copied result ≡ only (state self.now).stack }
    {
        match self.entries.as_slice() {
            [span] => Some(formula_in(self.symbols.as_slice(), *span)),
            _ => None,
        }
    }

    /// Takes the entries for an assertion's hypotheses, and pushes its substituted formula.
    pub(crate) fn apply(
        &mut self,
        buffers: &mut Buffers,
        theorem: &Theorem,
        known: &Known,
        frame: &Frame,
    ) -> Result<(), StepFault>
        requires known { IsKnown theorem.now known.now }
        requires sound { IsSound self.old }
        ensures sound { OnOk result (IsSound self.new) }
        ensures applied { OnOk result (apply_frame theorem.now frame.now (state self.old) ≡ Ok (state self.new)) }
        ensures grown { OnOk result (vec_len self.new.entries ≤ vec_len self.old.entries + 1) }
        ensures fault { IfErr result (λ e. FailsWith e (apply_frame theorem.now frame.now (state self.old))) }
    {
        let hyps = frame.hyps.as_slice();
        let count = self.entries.len();
        if count < hyps.len() {
            return Err(StepFault::Underflow);
        }
        let below = count - hyps.len();
        let symbols = self.symbols.as_slice();
        let spans = behind(self.entries.as_slice(), below);
        check_entries(buffers, theorem, known, frame, symbols, spans)?;
        buffers.formula.clear();
        let entries = Entries {
            hyps,
            symbols,
            spans,
        };
        push_substituted(&mut buffers.formula, &entries, frame.formula.as_slice())?;
        self.entries.truncate(below);
        self.push(buffers.formula.as_slice())?;
        Ok(())
    }
}
