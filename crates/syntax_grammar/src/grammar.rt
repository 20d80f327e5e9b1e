ghost use Rattle.std.specs.Prelude.{◌≡◌, ◌++◌, ◌∷◌, [], IfOk, reverse, slice_get};
ghost use Rattle.std.specs.Option.{option_copied};
ghost use Rattle.mm_model.specs.Chains.{chain_from, kept};
ghost use Rattle.mm_model.specs.Rows.{AreRows, IsGrammar};
ghost use Rattle.mm_model.specs.Texts.{row_of};
ghost use Rattle.syntax_grammar.specs.Selections as spec;

use crate::index::{const_index, label_index, lone_index, next_index, slot_index};
use crate::joins::Joins;
use crate::table::Table;
use mm_base::{Label, List, Memory, Rows, Sym, Typecode};
use mm_model::{Item, Production};
use std::alloc::Global;
use std::marker::Model;

/// The productions that are kept, in their order.
#[derive(Debug, Drop)]
pub struct Grammar {
    rows: List<Production>,
    by_label: Rows<usize>,
    by_const: Table,
    by_slot: Table,
    by_next: Table,
    lone: Table,
}

impl Model for Grammar {
    ghost use Rattle.std.specs.Prelude.{List};
    ghost use Rattle.mm_model.specs.declared.rows.Production.{Production};
    ghost use Rattle.mm_model.specs.Rows.{IsGrammar};
    ghost use Rattle.syntax_grammar.specs.Selections.{has_label, begins_const, begins_slot, has_next, is_lone};
    ghost use Rattle.syntax_grammar.specs.Index.{IsIndex, IsTable};

    ghost Value = { List Production };

    ghost view = { λ g. g.rows };

    ghost invariant = { λ g. IsGrammar g.rows × IsIndex has_label g.rows g.by_label
        × IsTable begins_const g.rows g.by_const × IsTable begins_slot g.rows g.by_slot
        × IsTable has_next g.rows g.by_next × IsTable is_lone g.rows g.lone };
}

/// The typecode of a chain's variable.
fn chain_from(row: &Production) -> Option<Typecode>
    ensures { result ≡ chain_from row.now }
{
    match row.items.as_slice() {
        [Item::Slot(k)] => row.slots.as_slice().get(*k as usize).copied(),
        _ => None,
    }
}

/// The grammar of these productions, with what they are looked up by.
fn indexed(alloc: Global, rows: List<Production>) -> Result<Grammar, Memory>
    requires { IsGrammar rows }
    ensures { IfOk result (λ g. g ≡ rows) }
{
    let by_label = label_index(alloc, rows.as_slice())?;
    let by_const = const_index(alloc, rows.as_slice())?;
    let by_slot = slot_index(alloc, rows.as_slice())?;
    let by_next = next_index(alloc, rows.as_slice())?;
    let lone = lone_index(alloc, rows.as_slice())?;
    Ok(Grammar {
        rows,
        by_label,
        by_const,
        by_slot,
        by_next,
        lone,
    })
}

/// Keeps the productions, in their order, but a chain for which the chains kept before it already lead from what it
/// gives to its variable's typecode: it would close a cycle. `are_rows` tells whether productions can be given. It takes
/// time in proportion to them, and for each chain to those kept before it that are reached from what it gives, of which
/// those that join the same two typecodes count once.
///
/// Fails where memory runs out.
pub fn keep_rows(rows: List<Production>) -> Result<Grammar, Memory>
    requires { AreRows rows }
    ensures { IfOk result (λ g. g ≡ kept rows) }
{
    let alloc = rows.allocator();
    let mut kept = Vec::new(alloc);
    let mut joins = Joins::new(alloc);
    for row in rows.into_vec() {
        if let Some(from) = chain_from(&row) {
            if joins.leads(row.gives, from)? {
                continue;
            }
            joins.add(alloc, from, row.gives)?;
        }
        kept.push(row)?;
    }
    indexed(alloc, List::from_vec(kept))
}

impl Grammar {
    /// The productions that are kept, in their order.
    pub fn kept(&self) -> &List<Production>
        ensures rows { result.now ≡ self.now }
        ensures grammar { IsGrammar self.now }
    {
        &self.rows
    }

    /// The kept production of a number, from 0. None where there are not so many.
    pub fn row(&self, number: usize) -> Option<&Production>
        ensures { option_copied result ≡ slice_get self.now number }
    {
        self.rows.as_slice().get(number)
    }

    /// The kept production with that label. None exactly where there is none. It takes constant time.
    pub fn production(&self, label: Label) -> Option<&Production>
        ensures { option_copied result ≡ row_of self.now label }
    {
        match self.by_label.at(label.0 as u64) {
            [number, ..] => self.row(*number),
            [] => None,
        }
    }

    /// The numbers, from 0, of the kept productions whose text begins with that constant, in their order. It takes
    /// constant time.
    pub fn rows_by_const(&self, first: Sym) -> &[usize]
        ensures { result.now ≡ spec.numbers (spec.begins_const first.0) 0 self.now }
    {
        self.by_const.at(first)
    }

    /// The numbers, from 0, of the kept productions whose text begins with a slot of that typecode, in their order. It
    /// takes constant time.
    pub fn rows_by_slot(&self, first: Typecode) -> &[usize]
        ensures { result.now ≡ spec.numbers (spec.begins_slot first.0.0) 0 self.now }
    {
        self.by_slot.at(first.0)
    }

    /// The numbers, from 0, of the kept productions that have that constant behind their first item, or behind the slot
    /// that follows their first item, in their order. It takes constant time.
    pub fn rows_by_next(&self, next: Sym) -> &[usize]
        ensures { result.now ≡ spec.numbers (spec.has_next next.0) 0 self.now }
    {
        self.by_next.at(next)
    }

    /// The numbers, from 0, of the kept productions that have no such constant and begin with that symbol, as a constant
    /// or as a slot's typecode, in their order. It takes constant time.
    pub fn lone_rows(&self, first: Sym) -> &[usize]
        ensures { result.now ≡ spec.numbers (spec.is_lone first.0) 0 self.now }
    {
        self.lone.at(first)
    }

    /// The labels of the kept productions whose text begins with that constant, in their order. It takes time in
    /// proportion to their number.
    ///
    /// Fails where memory runs out.
    pub fn by_first(&self, first: Sym) -> Result<List<Label>, Memory>
        ensures { IfOk result (λ labels. labels ≡ spec.by_first self.now first) }
    {
        let mut labels = Vec::new(self.rows.allocator());
        for number in self.by_const.at(first) {
            if let Some(row) = self.row(*number) {
                labels.push(row.label)?;
            }
        }
        Ok(List::from_vec(labels))
    }

    /// The labels of the kept chains that give that typecode, in their order. It goes over all kept productions.
    ///
    /// Fails where memory runs out.
    pub fn chains(&self, to: Typecode) -> Result<List<Label>, Memory>
        ensures { IfOk result (λ labels. labels ≡ spec.chains_to self.now to) }
    {
        let mut labels = Vec::new(self.rows.allocator());
        for row in self.rows.as_slice() {
            if chain_from(row).is_some() && row.gives == to {
                labels.push(row.label)?;
            }
        }
        Ok(List::from_vec(labels))
    }
}
