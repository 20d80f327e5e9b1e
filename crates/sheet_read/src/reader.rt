//! Reading the lines behind the header.

use crate::fault::{SheetCode, SheetFault};
use crate::forms::StepHead;
use crate::lines::{LineKind, TextLine, ends_proof, has_two_tokens, is_footer, kind_of, tokens_in};
use crate::statements::{
    comment_lines, formula_of, head_of, indented, is_bad_distinct, names_of, places_of,
    reference_of, symbols_of,
};
use mm_base::List;
use names::Names;
use sheet_text::{PairLine, SheetItem, SheetStep};
use std::alloc::Global;
use std::marker::Model;

/// What was read so far.
#[derive(Drop)]
pub struct Reader {
    alloc: Global,
    /// The names of the steps, in order.
    names: Names,
    items: Vec<SheetItem>,
    pairs: Vec<PairLine>,
    /// The line of the proof that is not ended.
    proof: Option<u32>,
}

impl Model for Reader {
    ghost use Rattle.sheet_read.specs.Reading.{Reading};

    ghost Value = { Reading };

    ghost view = { λ r. record { names = r.names; items = r.items.items; pairs = r.pairs.items; proof = r.proof } };
}

impl Reader {
    ghost use Rattle.std.specs.Prelude.{◌≡◌, ◌<◌, ◌+◌, ◌^◌, None, Some, OnOk, IfOk, IfErr, length, List, ℕ};
    ghost use Rattle.sheet_text.specs.SheetStatements.{tokens_in};
    ghost use Rattle.sheet_text.specs.Forms.{step_of};
    ghost use Rattle.sheet_text.specs.TextFaults.{symbols_of};
    ghost use Rattle.sheet_read.specs.Faults.{IsFault};
    ghost use Rattle.sheet_read.specs.Parts.{line_in, lines_in, statement_in, targets, step_in_form};
    ghost use Rattle.sheet_read.specs.Reading.{first_reading, is_misplaced, at_line, proof_from, step_code, with_step, with_comment, with_pair, distinct_code, footer_fault, fault_with, with_kind, fault_at, with_line, ends_at, unended};

    pub fn new(alloc: Global) -> Reader
        ensures { result ≡ first_reading }
    {
        Reader {
            alloc,
            names: Names::new(alloc),
            items: Vec::new(alloc),
            pairs: Vec::new(alloc),
            proof: None,
        }
    }

    /// The comments and steps, and the `$d` statements.
    pub fn into_parts(self) -> (List<SheetItem>, List<PairLine>)
        ensures items { result.0 ≡ self.items }
        ensures pairs { result.1 ≡ self.pairs }
    {
        let Reader { items, pairs, .. } = self;
        (List::from_vec(items), List::from_vec(pairs))
    }

    /// A comment, with the lines that belong to it.
    fn comment(&mut self, line: &TextLine<'_>, more: &[TextLine<'_>]) -> Result<(), SheetFault>
        ensures next { OnOk result (self.new ≡ with_comment self.old (statement_in line.now more.now)) }
        ensures memory { IfErr result (λ e. IsFault e None) }
    {
        let lines = comment_lines(self.alloc, line, more)?;
        self.items.push(SheetItem::Comment(lines))?;
        Ok(())
    }

    /// A `$d` statement, with the lines that belong to it.
    fn distinct(&mut self, line: &TextLine<'_>, more: &[TextLine<'_>]) -> Result<(), SheetFault>
        ensures no_fault { OnOk result (distinct_code (symbols_of (tokens_in (statement_in line.now more.now))) ≡ None) }
        ensures next { OnOk result (self.new ≡ with_pair self.old line.now.number (symbols_of (tokens_in (statement_in line.now more.now)))) }
        ensures fault { IfErr result (λ e. IsFault e (at_line line.now.number (distinct_code (symbols_of (tokens_in (statement_in line.now more.now)))))) }
    {
        let tokens = tokens_in(self.alloc, line, more)?;
        let symbols = symbols_of(tokens.as_slice());
        if is_bad_distinct(self.alloc, symbols)? {
            return Err(SheetFault::At(SheetCode::BadDistinct, line.number));
        }
        let names = names_of(self.alloc, symbols)?;
        self.pairs.push(PairLine {
            line: line.number,
            names,
        })?;
        Ok(())
    }

    /// Whether a step may not stand here: `qed` stands before, or it is a hypothesis of that name.
    fn is_misplaced(&self, head: &StepHead<'_>) -> bool
        ensures { (formula : List (List ℕ)) → result ≡ is_misplaced self.now.names (step_in_form head.now formula) }
    {
        self.names.contains(b"qed") || (head.name == b"qed".as_slice() && head.hyp)
    }

    /// A step that has the form of one.
    fn keep_step(
        &mut self,
        line: u32,
        head: &StepHead<'_>,
        formula: &[&[u8]],
    ) -> Result<(), SheetFault>
        requires room { length self.old.names + 1 < 2 ^ 32 }
        ensures no_fault { OnOk result (step_code self.old.names (Some (step_in_form head.now (targets formula.now))) ≡ None) }
        ensures next { OnOk result (self.new ≡ with_step self.old line (Some (step_in_form head.now (targets formula.now)))) }
        ensures fault { IfErr result (λ e. IsFault e (at_line line (step_code self.old.names (Some (step_in_form head.now (targets formula.now)))))) }
    {
        if self.names.contains(head.name) {
            return Err(SheetFault::At(SheetCode::NameTwice, line));
        }
        let places = match places_of(self.alloc, &self.names, head.places)? {
            None => return Err(SheetFault::At(SheetCode::HypUnknown, line)),
            Some(places) => places,
        };
        if self.is_misplaced(head) {
            return Err(SheetFault::At(SheetCode::QedPlace, line));
        }
        let step = SheetStep {
            line,
            hyp: head.hyp,
            name: List::copy_of(self.alloc, head.name)?,
            places,
            reference: reference_of(self.alloc, head.reference)?,
            formula: names_of(self.alloc, formula)?,
        };
        self.names.add(head.name)?;
        self.items.push(SheetItem::Step(step))?;
        Ok(())
    }

    /// A step, with the lines that belong to it.
    fn step(&mut self, line: &TextLine<'_>, more: &[TextLine<'_>]) -> Result<(), SheetFault>
        requires room { length self.old.names + 1 < 2 ^ 32 }
        ensures no_fault { OnOk result (step_code self.old.names (step_of (tokens_in (statement_in line.now more.now))) ≡ None) }
        ensures next { OnOk result (self.new ≡ with_step self.old line.now.number (step_of (tokens_in (statement_in line.now more.now)))) }
        ensures fault { IfErr result (λ e. IsFault e (at_line line.now.number (step_code self.old.names (step_of (tokens_in (statement_in line.now more.now)))))) }
    {
        let tokens = tokens_in(self.alloc, line, more)?;
        let words = tokens.as_slice();
        match head_of(words) {
            None => Err(SheetFault::At(SheetCode::BadStep, line.number)),
            Some(head) => self.keep_step(line.number, &head, formula_of(words)),
        }
    }

    /// The footer, with the lines behind it.
    fn footer(&self, line: &TextLine<'_>, behind: &[TextLine<'_>]) -> Result<(), SheetFault>
        ensures no_fault { OnOk result (footer_fault self.now.names (line_in line.now) (lines_in behind.now) ≡ None) }
        ensures fault { IfErr result (λ e. IsFault e (footer_fault self.now.names (line_in line.now) (lines_in behind.now))) }
    {
        if has_two_tokens(line.bytes) {
            return Err(SheetFault::At(SheetCode::TextAfterFooter, line.number));
        }
        if !self.names.contains(b"qed") {
            return Err(SheetFault::At(SheetCode::QedPlace, line.number));
        }
        if behind.is_empty() {
            return Ok(());
        }
        Err(SheetFault::At(SheetCode::TextAfterFooter, behind[0].number))
    }

    /// A line of a kind where no proof is open.
    fn open_line(
        &mut self,
        kind: LineKind,
        line: &TextLine<'_>,
        behind: &[TextLine<'_>],
    ) -> Result<(), SheetFault>
        requires room { length self.old.names + 1 < 2 ^ 32 }
        ensures no_fault { OnOk result (fault_with kind self.old (line_in line.now) (lines_in behind.now) ≡ None) }
        ensures next { OnOk result (self.new ≡ with_kind kind self.old (line_in line.now) (lines_in behind.now)) }
        ensures fault { IfErr result (λ e. IsFault e (fault_with kind self.old (line_in line.now) (lines_in behind.now))) }
    {
        match kind {
            LineKind::Indented => Ok(()),
            LineKind::Comment => self.comment(line, indented(behind)),
            LineKind::Distinct => self.distinct(line, indented(behind)),
            LineKind::Proof => {
                self.begin_proof(line);
                Ok(())
            }
            LineKind::Footer => self.footer(line, behind),
            LineKind::Step => self.step(line, indented(behind)),
        }
    }

    fn begin_proof(&mut self, line: &TextLine<'_>)
        ensures { self.new ≡ record self.old { proof = proof_from (line_in line.now) } }
    {
        self.proof = if ends_proof(line) {
            None
        } else {
            Some(line.number)
        };
    }

    /// Reads a line, with the lines behind it, and answers whether it is the footer.
    pub fn line(&mut self, line: &TextLine<'_>, behind: &[TextLine<'_>]) -> Result<bool, SheetFault>
        requires room { length self.old.names + 1 < 2 ^ 32 }
        ensures no_fault { OnOk result (fault_at self.old (line_in line.now) (lines_in behind.now) ≡ None) }
        ensures next { OnOk result (self.new ≡ with_line self.old (line_in line.now) (lines_in behind.now)) }
        ensures ends { IfOk result (λ b. b ≡ ends_at self.old (line_in line.now)) }
        ensures fault { IfErr result (λ e. IsFault e (fault_at self.old (line_in line.now) (lines_in behind.now))) }
    {
        match self.proof {
            None => {
                let kind = kind_of(line);
                self.open_line(kind, line, behind)?;
                Ok(is_footer(kind))
            }
            Some(_) => {
                if ends_proof(line) {
                    self.proof = None;
                }
                Ok(false)
            }
        }
    }

    /// The fault of a sheet that ends without its footer, where the line past the last has this number.
    pub fn unended(&self, past: u32) -> SheetFault
        ensures { IsFault result (Some (unended past self.now.proof)) }
    {
        match self.proof {
            None => SheetFault::At(SheetCode::NoFooter, past),
            Some(line) => SheetFault::At(SheetCode::ProofUnended, line),
        }
    }
}
