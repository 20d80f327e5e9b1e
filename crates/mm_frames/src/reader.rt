//! What the reader keeps of the tokens before: everything by number.

use crate::scopes::Scopes;
use frame_lists::{Entry, Stack, StatementKind};
use mm_base::Sym;
use names::Names;
use number_set::NumberSet;
use std::alloc::Global;

/// How far the statement that is not ended has come.
#[derive(Clone, Copy, Debug)]
pub enum Stage {
    /// A statement begins.
    Between,
    /// Its label was read.
    Labelled,
    /// Its symbols are read.
    Symbols(StatementKind),
    /// Its proof is read, which begins at this byte.
    Proof(u32),
}

/// What a name stands for where it is read.
#[derive(Clone, Copy, Debug)]
pub enum Meaning {
    /// No constant and no active variable.
    Nothing,
    Constant(Sym),
    /// An active variable.
    Variable(Sym),
}

/// The reader's lists. They have what the statement that is not ended adds to them.
#[derive(Drop)]
pub struct Reader {
    /// The names of the symbols, in the order in which they were first declared.
    pub symbols: Names,
    /// Whether a symbol is a constant, by its number.
    pub constants: Stack<bool>,
    /// The labels, in order.
    pub labels: Names,
    /// The active variables, in the order of their `$v`.
    pub variables: NumberSet,
    /// The variables of the active `$f`, in order.
    pub typed: NumberSet,
    pub scopes: Scopes,
    pub stage: Stage,
    /// The symbols of the statement so far.
    pub formula: Stack<Sym>,
    /// The symbols of a `$d` so far.
    pub listed: NumberSet,
    /// The byte where the statement begins.
    pub begins: u32,
    /// The statements that are ended, in order.
    pub entries: Stack<Entry>,
    /// The numbers of the statements of the labels, by label.
    pub positions: Stack<u32>,
}

impl Reader {
    ghost use Rattle.std.specs.Prelude.{◌≡◌};
    ghost use Rattle.mm_frames.specs.Reading.{first_reader, noted};

    pub fn new(alloc: Global) -> Reader
        ensures { result ≡ first_reader }
    {
        Reader {
            symbols: Names::new(alloc),
            constants: Stack::new(alloc),
            labels: Names::new(alloc),
            variables: NumberSet::new(alloc),
            typed: NumberSet::new(alloc),
            scopes: Scopes::new(alloc),
            stage: Stage::Between,
            formula: Stack::new(alloc),
            listed: NumberSet::new(alloc),
            begins: 0,
            entries: Stack::new(alloc),
            positions: Stack::new(alloc),
        }
    }

    /// Keeps where a statement begins, if one begins at this byte.
    pub fn note(&mut self, start: u32)
        ensures { self.new ≡ noted self.old start }
    {
        match self.stage {
            Stage::Between => self.begins = start,
            _ => {}
        }
    }
}
