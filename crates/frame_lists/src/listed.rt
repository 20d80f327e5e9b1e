use crate::entry::{Entry, is_floating};
use crate::stack::Stack;
use mm_base::{List, Memory, Sym};
use mm_model::Hyp;
use names::Names;
use std::alloc::Global;

/// The labels and the statements of a database.
#[derive(Drop)]
pub struct Listed {
    /// The labels, in order.
    pub labels: Names,
    /// The numbers of the statements of the labels, by label.
    pub positions: Stack<u32>,
    /// The statements in order.
    pub entries: Stack<Entry>,
}

impl Listed {
    ghost use Rattle.std.specs.Prelude.{◌≡◌, ◌+◌, ◌<◌, ◌^◌, IfOk, slice_index_or, []};
    ghost use Rattle.frame_lists.specs.Steps.{symbols_at, floating_at, position_at, is_label_of, hypothesis_at, label_after};

    /// The symbols of the statement of this number.
    pub(crate) fn symbols(&self, number: u32) -> &[Sym]
        ensures { result.now ≡ symbols_at self.now number }
    {
        match self.entries.as_slice().get(number as usize) {
            None => &[],
            Some(entry) => entry.symbols.as_slice(),
        }
    }

    /// The number of the statement of a label.
    pub(crate) fn position(&self, label: u32) -> u32
        ensures { result ≡ position_at self.now label }
    {
        match self.positions.as_slice().get(label as usize) {
            None => 0,
            Some(position) => *position,
        }
    }

    /// Whether the label is that of the statement of this number.
    pub(crate) fn is_label_of(&self, label: u32, number: u32) -> bool
        ensures { result ≡ is_label_of self.now label number }
    {
        match self.positions.as_slice().get(label as usize) {
            None => false,
            Some(position) => *position == number,
        }
    }

    /// The label that comes next behind the statement of this number, where this one came next before it.
    pub(crate) fn next_label(&self, label: u32, number: u32) -> u32
        requires { label + 1 < 2 ^ 32 }
        ensures { result ≡ label_after self.now label number }
    {
        if self.is_label_of(label, number) {
            return label + 1;
        }
        label
    }

    /// The hypothesis of this label.
    pub(crate) fn hypothesis(&self, alloc: Global, label: u32) -> Result<Hyp, Memory>
        ensures { IfOk result (λ h. h ≡ hypothesis_at self.now label) }
    {
        let number = self.position(label);
        Ok(Hyp {
            name: List::copy_of(alloc, self.name(label))?,
            floating: self.is_floating(number),
            formula: List::copy_of(alloc, self.symbols(number))?,
        })
    }

    /// The name of a label.
    fn name(&self, label: u32) -> &[u8]
        ensures { result.now ≡ slice_index_or self.now.labels label [] }
    {
        if label < self.labels.count() {
            return self.labels.name(label);
        }
        &[]
    }

    fn is_floating(&self, number: u32) -> bool
        ensures { result ≡ floating_at self.now number }
    {
        match self.entries.as_slice().get(number as usize) {
            None => false,
            Some(entry) => is_floating(entry.kind),
        }
    }
}
