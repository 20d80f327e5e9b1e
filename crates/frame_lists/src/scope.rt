//! What is active, as the statements are passed.

ghost use Rattle.std.specs.Prelude.{◌≡◌, OnOk};
ghost use Rattle.frame_lists.specs.Steps.{declared};

use crate::entry::{Entry, EntryKind, StatementKind};
use crate::listed::Listed;
use crate::stack::Stack;
use mm_base::{Memory, Sym};
use number_set::NumberSet;
use std::alloc::Global;

/// How much was active where a block began.
#[derive(Clone, Copy, Debug)]
pub(crate) struct Block {
    pub variables: usize,
    pub floats: usize,
    pub essentials: usize,
    pub hyps: usize,
    pub distinct: usize,
}

/// What is active behind the statements that were passed.
#[derive(Drop)]
pub(crate) struct Scope {
    /// The active variables, each where it was first declared.
    pub variables: NumberSet,
    /// The variables of the active `$f`, in order.
    pub typed: NumberSet,
    /// The labels of the active `$f`, in order.
    pub floats: Stack<u32>,
    /// The labels of the active `$e`, in order.
    pub essentials: Stack<u32>,
    /// The labels of the active `$f` and `$e`, in order.
    pub hyps: Stack<u32>,
    /// The numbers of the active `$d`, in order.
    pub distinct: Stack<u32>,
    /// The open blocks, the innermost last.
    pub blocks: Stack<Block>,
}

/// Adds the variables that are not active yet.
fn declare(variables: &mut NumberSet, symbols: &[Sym]) -> Result<(), Memory>
    ensures { OnOk result (variables.new ≡ declared variables.old symbols.now) }
{
    for symbol in symbols {
        if !variables.contains(symbol.0) {
            variables.insert(symbol.0)?;
        }
    }
    Ok(())
}

impl Scope {
    ghost use Rattle.std.specs.Prelude.{◌≡◌, OnOk};
    ghost use Rattle.frame_lists.specs.Steps.{first_scope, with_float, with_open, with_close, passed};

    pub fn new(alloc: Global) -> Scope
        ensures { result ≡ first_scope }
    {
        Scope {
            variables: NumberSet::new(alloc),
            typed: NumberSet::new(alloc),
            floats: Stack::new(alloc),
            essentials: Stack::new(alloc),
            hyps: Stack::new(alloc),
            distinct: Stack::new(alloc),
            blocks: Stack::new(alloc),
        }
    }

    /// A `$f` with this label and these symbols.
    fn float(&mut self, label: u32, symbols: &[Sym]) -> Result<(), Memory>
        ensures { OnOk result (self.new ≡ with_float self.old label symbols.now) }
    {
        match symbols.get(1) {
            None => Ok(()),
            Some(variable) => {
                if self.typed.contains(variable.0) {
                    return Ok(());
                }
                self.typed.insert(variable.0)?;
                self.floats.push(label)
            }
        }
    }

    fn open(&mut self) -> Result<(), Memory>
        ensures { OnOk result (self.new ≡ with_open self.old) }
    {
        let block = Block {
            variables: self.variables.len(),
            floats: self.floats.len(),
            essentials: self.essentials.len(),
            hyps: self.hyps.len(),
            distinct: self.distinct.len(),
        };
        self.blocks.push(block)
    }

    fn close(&mut self)
        ensures { self.new ≡ with_close self.old }
    {
        match self.blocks.pop() {
            None => {}
            Some(block) => {
                self.variables.cut(block.variables);
                self.typed.cut(block.floats);
                self.floats.cut(block.floats);
                self.essentials.cut(block.essentials);
                self.hyps.cut(block.hyps);
                self.distinct.cut(block.distinct);
            }
        }
    }

    /// Passes the statement of this number, whose label, if it has one, has the other.
    pub fn pass(&mut self, entry: &Entry, number: u32, label: u32) -> Result<(), Memory>
        ensures { OnOk result (self.new ≡ passed entry.now.kind entry.now.symbols number label self.old) }
    {
        match entry.kind {
            EntryKind::OpenBlock => self.open(),
            EntryKind::CloseBlock => {
                self.close();
                Ok(())
            }
            EntryKind::Statement(StatementKind::Variables) => declare(
                &mut self.variables,
                entry.symbols.as_slice(),
            ),
            EntryKind::Statement(StatementKind::Distinct) => self.distinct.push(number),
            EntryKind::Statement(StatementKind::Floating) => {
                self.hyps.push(label)?;
                self.float(label, entry.symbols.as_slice())
            }
            EntryKind::Statement(StatementKind::Essential) => {
                self.hyps.push(label)?;
                self.essentials.push(label)
            }
            EntryKind::Statement(_) => Ok(()),
        }
    }
}
