//! Reading a keyword.

ghost use Rattle.std.specs.Prelude.{◌≡◌};
ghost use Rattle.mm_frames.specs.Reading.{is_constants, is_provable, needs_symbol};

use crate::fault::ReadFault;
use crate::reader::{Reader, Stage};
use crate::scopes::Scope;
use frame_lists::{Entry, EntryKind, StatementKind};
use mm_base::{List, Memory};

fn is_constants(kind: StatementKind) -> bool
    ensures { result ≡ is_constants kind }
{
    matches!(kind, StatementKind::Constants)
}

fn is_provable(kind: StatementKind) -> bool
    ensures { result ≡ is_provable kind }
{
    matches!(kind, StatementKind::Provable)
}

/// Whether a statement of this kind may not be without symbols, and has code 26 then.
fn needs_symbol(kind: StatementKind) -> bool
    ensures { result ≡ needs_symbol kind }
{
    !matches!(kind, StatementKind::Distinct | StatementKind::Floating)
}

impl Reader {
    ghost use Rattle.std.specs.Prelude.{◌≡◌, None, OnOk, IfOk, IfErr};
    ghost use Rattle.mm_frames.specs.Reading.{FailsAt, between_code, begins_code, labelled_code, with_stage, equals_code, with_proof, symbols_end_code, end_code, entry_of, ended_entry, with_end, with_block, with_open, close_code, with_close};

    /// Only where a statement begins.
    fn between(&self, start: u32) -> Result<(), ReadFault>
        ensures no_fault { OnOk result (between_code self.now ≡ None) }
        ensures fault { IfErr result (λ e. FailsAt e start (between_code self.now)) }
    {
        match self.stage {
            Stage::Between => Ok(()),
            _ => Err(ReadFault::StrayToken(start)),
        }
    }

    /// `$c`, `$v` or `$d`
    pub fn begin(&mut self, kind: StatementKind, start: u32) -> Result<(), ReadFault>
        ensures no_fault { OnOk result (begins_code self.old kind ≡ None) }
        ensures next { OnOk result (self.new ≡ with_stage self.old kind) }
        ensures fault { IfErr result (λ e. FailsAt e start (begins_code self.old kind)) }
    {
        if is_constants(kind) && !self.scopes.is_empty() {
            return Err(ReadFault::ConstInBlock(start));
        }
        self.between(start)?;
        self.stage = Stage::Symbols(kind);
        Ok(())
    }

    /// `$f`, `$e`, `$a` or `$p`
    pub fn begin_labelled(&mut self, kind: StatementKind, start: u32) -> Result<(), ReadFault>
        ensures no_fault { OnOk result (labelled_code self.old ≡ None) }
        ensures next { OnOk result (self.new ≡ with_stage self.old kind) }
        ensures fault { IfErr result (λ e. FailsAt e start (labelled_code self.old)) }
    {
        match self.stage {
            Stage::Labelled => {
                self.stage = Stage::Symbols(kind);
                Ok(())
            }
            _ => Err(ReadFault::LabelMissing(start)),
        }
    }

    /// `$=`, behind which the proof begins at this byte.
    pub fn equals(&mut self, start: u32, proof: u32) -> Result<(), ReadFault>
        ensures no_fault { OnOk result (equals_code self.old ≡ None) }
        ensures next { OnOk result (self.new ≡ with_proof self.old proof) }
        ensures fault { IfErr result (λ e. FailsAt e start (equals_code self.old)) }
    {
        match self.stage {
            Stage::Symbols(kind) => {
                if needs_symbol(kind) && self.formula.is_empty() {
                    return Err(ReadFault::EmptyFormula(start));
                }
                if !is_provable(kind) {
                    return Err(ReadFault::StrayToken(start));
                }
                self.stage = Stage::Proof(proof);
                Ok(())
            }
            _ => Err(ReadFault::StrayToken(start)),
        }
    }

    /// Whether a statement of this kind may end without a proof.
    fn symbols_end(&self, kind: StatementKind, start: u32) -> Result<(), ReadFault>
        ensures no_fault { OnOk result (symbols_end_code self.now kind ≡ None) }
        ensures fault { IfErr result (λ e. FailsAt e start (symbols_end_code self.now kind)) }
    {
        if needs_symbol(kind) && self.formula.is_empty() {
            return Err(ReadFault::EmptyFormula(start));
        }
        match kind {
            StatementKind::Distinct if self.listed.len() < 2 => Err(ReadFault::DistinctShort(
                start,
            )),
            StatementKind::Floating if self.formula.len() < 2 => Err(ReadFault::BadHypothesis(
                start,
            )),
            StatementKind::Provable => Err(ReadFault::NoProof(start)),
            _ => Ok(()),
        }
    }

    /// The statement so far, as one that is ended.
    fn ended(&self, kind: StatementKind, proof: Option<(u32, u32)>) -> Result<Entry, Memory>
        ensures { IfOk result (λ e. e ≡ entry_of self.now kind proof) }
    {
        Ok(Entry {
            kind: EntryKind::Statement(kind),
            start: self.begins,
            symbols: self.formula.copied()?,
            proof,
        })
    }

    /// The statement so far, if it may end at this `$.`.
    fn ending(&self, start: u32) -> Result<Entry, ReadFault>
        ensures no_fault { OnOk result (end_code self.now ≡ None) }
        ensures entry { IfOk result (λ e. e ≡ ended_entry self.now start) }
        ensures fault { IfErr result (λ e. FailsAt e start (end_code self.now)) }
    {
        match self.stage {
            Stage::Proof(from) => Ok(self.ended(StatementKind::Provable, Some((from, start)))?),
            Stage::Symbols(kind) => {
                self.symbols_end(kind, start)?;
                Ok(self.ended(kind, None)?)
            }
            _ => Err(ReadFault::StrayToken(start)),
        }
    }

    /// `$.`
    pub fn end(&mut self, start: u32) -> Result<(), ReadFault>
        ensures no_fault { OnOk result (end_code self.old ≡ None) }
        ensures next { OnOk result (self.new ≡ with_end self.old start) }
        ensures fault { IfErr result (λ e. FailsAt e start (end_code self.old)) }
    {
        let entry = self.ending(start)?;
        self.entries.push(entry)?;
        self.stage = Stage::Between;
        self.formula.cut(0);
        self.listed.cut(0);
        Ok(())
    }

    /// A `${` or `$}`, as a statement.
    fn block(&mut self, kind: EntryKind) -> Result<(), Memory>
        ensures { OnOk result (self.new ≡ with_block self.old kind) }
    {
        let symbols = self.formula.none();
        self.entries.push(Entry {
            kind,
            start: self.begins,
            symbols,
            proof: None,
        })?;
        Ok(())
    }

    /// `${`
    pub fn open_block(&mut self, start: u32) -> Result<(), ReadFault>
        ensures no_fault { OnOk result (between_code self.old ≡ None) }
        ensures next { OnOk result (self.new ≡ with_open self.old) }
        ensures fault { IfErr result (λ e. FailsAt e start (between_code self.old)) }
    {
        self.between(start)?;
        let scope = Scope {
            variables: self.variables.len(),
            typed: self.typed.len(),
        };
        self.scopes.open(scope)?;
        self.block(EntryKind::OpenBlock)?;
        Ok(())
    }

    /// `$}`
    pub fn close_block(&mut self, start: u32) -> Result<(), ReadFault>
        ensures no_fault { OnOk result (close_code self.old ≡ None) }
        ensures next { OnOk result (self.new ≡ with_close self.old) }
        ensures fault { IfErr result (λ e. FailsAt e start (close_code self.old)) }
    {
        match self.scopes.close() {
            None => Err(ReadFault::BlockUnopened(start)),
            Some(scope) => {
                self.between(start)?;
                self.variables.cut(scope.variables);
                self.typed.cut(scope.typed);
                self.block(EntryKind::CloseBlock)?;
                Ok(())
            }
        }
    }
}
