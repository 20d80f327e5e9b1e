//! Reading a word: a label, a symbol of a statement, or a part of a proof.

ghost use Rattle.std.specs.Prelude.{◌≡◌, slice_get, unwrap_or, false};
ghost use Rattle.mm_frames.specs.Kinds.{wants_label, is_extra};

use crate::fault::ReadFault;
use crate::reader::{Meaning, Reader, Stage};
use frame_lists::StatementKind;
use mm_base::Sym;
use mm_model::are_label_bytes;
use mm_tokens::TokenKind;

fn wants_label(kind: TokenKind) -> bool
    ensures { result ≡ wants_label kind }
{
    matches!(
        kind,
        TokenKind::Floating | TokenKind::Essential | TokenKind::Axiom | TokenKind::Provable
    )
}

fn is_extra(next: Option<TokenKind>) -> bool
    ensures { result ≡ is_extra next }
{
    match next {
        None => false,
        Some(kind) => !wants_label(kind),
    }
}

fn flag(flags: &[bool], number: u32) -> bool
    ensures { result ≡ unwrap_or (slice_get flags.now number) false }
{
    flags.get(number as usize).copied().unwrap_or(false)
}

impl Reader {
    ghost use Rattle.std.specs.Prelude.{◌≡◌, None, OnOk, IfErr, slice_get, unwrap_or, false};
    ghost use Rattle.mm_frames.specs.Reading.{IsReady, FailsAt, meaning_of, label_code, with_label, constant_code, with_constant, distinct_code, with_distinct, variable_code, with_variable, floating_code, with_floating, formula_code, with_symbol, typecode_code, typed_code, symbol_code, with_symbol_of, word_code, with_word};

    fn meaning(&self, name: &[u8]) -> Meaning
        ensures { result ≡ meaning_of self.now name.now }
    {
        match self.symbols.number(name) {
            None => Meaning::Nothing,
            Some(number) => {
                if flag(self.constants.as_slice(), number) {
                    Meaning::Constant(Sym(number))
                } else if self.variables.contains(number) {
                    Meaning::Variable(Sym(number))
                } else {
                    Meaning::Nothing
                }
            }
        }
    }

    /// A word where a statement begins.
    fn label(&mut self, name: &[u8], start: u32, next: Option<TokenKind>) -> Result<(), ReadFault>
        requires { IsReady self.old }
        ensures no_fault { OnOk result (label_code self.old name.now next ≡ None) }
        ensures next { OnOk result (self.new ≡ with_label self.old name.now) }
        ensures fault { IfErr result (λ e. FailsAt e start (label_code self.old name.now next)) }
    {
        if self.labels.contains(name) {
            return Err(ReadFault::LabelTaken(start));
        }
        if is_extra(next) {
            return Err(ReadFault::LabelExtra(start));
        }
        if !are_label_bytes(name) {
            return Err(ReadFault::BadLabel(start));
        }
        let position = self.entries.len() as u32;
        self.labels.add(name)?;
        self.positions.push(position)?;
        self.stage = Stage::Labelled;
        Ok(())
    }

    /// A symbol of `$c`.
    fn constant(&mut self, name: &[u8], start: u32) -> Result<(), ReadFault>
        requires { IsReady self.old }
        ensures no_fault { OnOk result (constant_code self.old name.now ≡ None) }
        ensures next { OnOk result (self.new ≡ with_constant self.old name.now) }
        ensures fault { IfErr result (λ e. FailsAt e start (constant_code self.old name.now)) }
    {
        if self.symbols.contains(name) {
            return Err(ReadFault::Redeclared(start));
        }
        let number = self.symbols.add(name)?;
        self.constants.push(true)?;
        self.formula.push(Sym(number))?;
        Ok(())
    }

    /// A symbol of `$d`.
    fn distinct(&mut self, name: &[u8], start: u32) -> Result<(), ReadFault>
        ensures no_fault { OnOk result (distinct_code self.old (meaning_of self.old name.now) ≡ None) }
        ensures next { OnOk result (self.new ≡ with_distinct self.old (meaning_of self.old name.now)) }
        ensures fault { IfErr result (λ e. FailsAt e start (distinct_code self.old (meaning_of self.old name.now))) }
    {
        match self.meaning(name) {
            Meaning::Variable(symbol) => {
                if self.listed.contains(symbol.0) {
                    return Err(ReadFault::DistinctTwice(start));
                }
                self.listed.insert(symbol.0)?;
                self.formula.push(symbol)?;
                Ok(())
            }
            _ => Err(ReadFault::NotActive(start)),
        }
    }

    /// A symbol of `$v`.
    fn variable(&mut self, name: &[u8], start: u32) -> Result<(), ReadFault>
        requires { IsReady self.old }
        ensures no_fault { OnOk result (variable_code self.old name.now ≡ None) }
        ensures next { OnOk result (self.new ≡ with_variable self.old name.now) }
        ensures fault { IfErr result (λ e. FailsAt e start (variable_code self.old name.now)) }
    {
        match self.symbols.number(name) {
            Some(number) => {
                if flag(self.constants.as_slice(), number) {
                    return Err(ReadFault::Redeclared(start));
                }
                if self.variables.contains(number) {
                    return Err(ReadFault::Redeclared(start));
                }
                self.variables.insert(number)?;
                self.formula.push(Sym(number))?;
                Ok(())
            }
            None => {
                let number = self.symbols.add(name)?;
                self.constants.push(false)?;
                self.variables.insert(number)?;
                self.formula.push(Sym(number))?;
                Ok(())
            }
        }
    }

    /// The first symbol of `$f`.
    fn typecode(&mut self, meaning: Meaning, start: u32) -> Result<(), ReadFault>
        ensures no_fault { OnOk result (typecode_code meaning ≡ None) }
        ensures next { OnOk result (self.new ≡ with_floating self.old meaning) }
        ensures fault { IfErr result (λ e. FailsAt e start (typecode_code meaning)) }
    {
        match meaning {
            Meaning::Nothing => Err(ReadFault::NotActive(start)),
            Meaning::Variable(_) => Err(ReadFault::FirstNotConst(start)),
            Meaning::Constant(symbol) => {
                self.formula.push(symbol)?;
                Ok(())
            }
        }
    }

    /// The second symbol of `$f`.
    fn typed_variable(&mut self, meaning: Meaning, start: u32) -> Result<(), ReadFault>
        ensures no_fault { OnOk result (typed_code self.old meaning ≡ None) }
        ensures next { OnOk result (self.new ≡ with_floating self.old meaning) }
        ensures fault { IfErr result (λ e. FailsAt e start (typed_code self.old meaning)) }
    {
        match meaning {
            Meaning::Variable(symbol) => {
                if self.typed.contains(symbol.0) {
                    return Err(ReadFault::TwoTypes(start));
                }
                self.typed.insert(symbol.0)?;
                self.formula.push(symbol)?;
                Ok(())
            }
            _ => Err(ReadFault::NotActive(start)),
        }
    }

    /// A symbol of `$f`.
    fn floating(&mut self, meaning: Meaning, start: u32) -> Result<(), ReadFault>
        ensures no_fault { OnOk result (floating_code self.old meaning ≡ None) }
        ensures next { OnOk result (self.new ≡ with_floating self.old meaning) }
        ensures fault { IfErr result (λ e. FailsAt e start (floating_code self.old meaning)) }
    {
        if self.formula.is_empty() {
            return self.typecode(meaning, start);
        }
        if self.formula.len() > 1 {
            return Err(ReadFault::BadHypothesis(start));
        }
        self.typed_variable(meaning, start)
    }

    /// A symbol of `$e`, `$a` or `$p`.
    fn symbol(&mut self, meaning: Meaning, start: u32) -> Result<(), ReadFault>
        ensures no_fault { OnOk result (formula_code self.old meaning ≡ None) }
        ensures next { OnOk result (self.new ≡ with_symbol self.old meaning) }
        ensures fault { IfErr result (λ e. FailsAt e start (formula_code self.old meaning)) }
    {
        match meaning {
            Meaning::Nothing => Err(ReadFault::NotActive(start)),
            Meaning::Constant(symbol) => {
                self.formula.push(symbol)?;
                Ok(())
            }
            Meaning::Variable(symbol) => {
                if self.formula.is_empty() {
                    return Err(ReadFault::FirstNotConst(start));
                }
                if !self.typed.contains(symbol.0) {
                    return Err(ReadFault::NoType(start));
                }
                self.formula.push(symbol)?;
                Ok(())
            }
        }
    }

    /// A symbol of a statement of this kind.
    fn symbol_of(&mut self, kind: StatementKind, name: &[u8], start: u32) -> Result<(), ReadFault>
        requires { IsReady self.old }
        ensures no_fault { OnOk result (symbol_code self.old kind name.now ≡ None) }
        ensures next { OnOk result (self.new ≡ with_symbol_of self.old kind name.now) }
        ensures fault { IfErr result (λ e. FailsAt e start (symbol_code self.old kind name.now)) }
    {
        match kind {
            StatementKind::Constants => self.constant(name, start),
            StatementKind::Variables => self.variable(name, start),
            StatementKind::Distinct => self.distinct(name, start),
            StatementKind::Floating => {
                let meaning = self.meaning(name);
                self.floating(meaning, start)
            }
            _ => {
                let meaning = self.meaning(name);
                self.symbol(meaning, start)
            }
        }
    }

    /// A token that is no keyword.
    pub fn word(
        &mut self,
        name: &[u8],
        start: u32,
        next: Option<TokenKind>,
    ) -> Result<(), ReadFault>
        requires { IsReady self.old }
        ensures no_fault { OnOk result (word_code self.old name.now next ≡ None) }
        ensures next { OnOk result (self.new ≡ with_word self.old name.now) }
        ensures fault { IfErr result (λ e. FailsAt e start (word_code self.old name.now next)) }
    {
        match self.stage {
            Stage::Between => self.label(name, start, next),
            Stage::Labelled => Err(ReadFault::StrayToken(start)),
            Stage::Proof(_) => Ok(()),
            Stage::Symbols(kind) => self.symbol_of(kind, name, start),
        }
    }
}
