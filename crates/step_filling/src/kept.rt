ghost use Rattle.std.specs.Prelude.{◌≡◌, ◌<◌, ◌^◌, ◌++◌, ◌∷◌, [], suc, List, length, map, zip, slice_get, Some, IfOk, OnOk};
ghost use Rattle.mm_model.specs.Names.{Name};
ghost use Rattle.written_model.specs.Filled.{derived_names};
ghost use Rattle.hyp_derive.specs.Naming.{HaveSameNames};
ghost use Rattle.written_steps.specs.declared.draft.DraftItem.TheVariants as draft;
ghost use Rattle.step_filling.specs.Kept.{with_comment, IsBegun, AreDerivedPut, AreMade, IsOwnPut};

use crate::drafts::derived_step;
use hyp_derive::{StepNames, TreeIndex};
use mm_base::{Bytes, List, Memory, Name, Tree};
use sheet_text::Sheet;
use std::alloc::Global;
use std::marker::Model;
use written_steps::{DraftItem, DraftStep};

/// What is written so far.
#[derive(Drop)]
pub struct Filling {
    alloc: Global,
    pub items: Vec<DraftItem>,
    /// For each step of the worksheet read so far the number of its written step.
    pub numbers: Vec<u32>,
    /// The trees of the steps that are written.
    pub index: TreeIndex,
    /// The names that are used.
    pub names: StepNames,
}

impl Model for Filling {
    ghost use Rattle.step_filling.specs.Kept.{Kept};
    ghost use Rattle.mm_base.specs.contracts.tree.Tree as tree;
    ghost use Rattle.std.specs.Coded.{codes};

    ghost Value = { Kept };

    ghost coded = { Prim.hlevel (codes, tree.the_row.coded) };

    ghost view = { λ f. record { items = f.items.items; numbers = f.numbers.items; trees = f.index; names = f.names } };
}

/// Puts in a step.
fn put(items: &mut Vec<DraftItem>, index: &mut TreeIndex, step: DraftStep) -> Result<(), Memory>
    ensures items { OnOk result (items.new.items ≡ items.old.items ++ draft.Step step ∷ []) }
    ensures index { OnOk result (index.new ≡ index.old ++ step.tree ∷ []) }
{
    let tree = step.tree.copy()?;
    index.push(tree)?;
    items.push(DraftItem::Step(step))?;
    Ok(())
}

/// Puts in new steps of these trees, each with a new name.
fn put_derived(
    alloc: Global,
    items: &mut Vec<DraftItem>,
    index: &mut TreeIndex,
    names: &mut StepNames,
    made: List<Tree>,
) -> Result<(), Memory>
    ensures { OnOk result (AreDerivedPut items.old.items items.new.items index.old index.new names.old names.new made) }
{
    for tree in made.into_vec() {
        let name = names.derive()?;
        put(items, index, derived_step(alloc, name, tree))?;
    }
    Ok(())
}

impl Filling {
    /// Nothing is written of a worksheet.
    pub fn new(alloc: Global, sheet: &Sheet) -> Result<Filling, Memory>
        ensures { IfOk result (IsBegun sheet.now) }
    {
        let names = StepNames::of(alloc, sheet)?;
        Ok(Filling {
            alloc,
            items: Vec::new(alloc),
            numbers: Vec::new(alloc),
            index: TreeIndex::new(alloc),
            names,
        })
    }

    /// Puts in a comment.
    pub fn put_comment(&mut self, lines: List<Bytes>) -> Result<(), Memory>
        ensures { OnOk result (self.new ≡ with_comment self.old lines) }
    {
        self.items.push(DraftItem::Comment(lines))?;
        Ok(())
    }

    /// Puts in new steps of these trees.
    pub fn make(&mut self, made: List<Tree>) -> Result<(), Memory>
        ensures { OnOk result (AreMade self.old self.new made) }
    {
        put_derived(
            self.alloc,
            &mut self.items,
            &mut self.index,
            &mut self.names,
            made,
        )
    }

    /// The name that a new step would have behind so many new steps; from now on all their names are used.
    pub fn name_behind(&mut self, count: usize) -> Result<Name, Memory>
        requires { count < 2 ^ 63 }
        ensures { IfOk result (λ name. (used : List Name) → HaveSameNames self.old.names used → slice_get (derived_names (suc count) used) count ≡ Some name) }
    {
        let names = self.names.derive_all(count + 1)?;
        let name = List::copy_of(self.alloc, names.as_slice()[count].as_slice())?;
        Ok(name)
    }

    /// The items, given back.
    pub fn into_items(self) -> Vec<DraftItem>
        ensures { result.items ≡ self.items }
    {
        let Filling {
            alloc: _,
            items,
            numbers: _,
            index: _,
            names: _,
        } = self;
        items
    }

    /// Puts in a step of the worksheet.
    pub fn put_own(&mut self, step: DraftStep) -> Result<(), Memory>
        ensures { OnOk result (IsOwnPut self.old self.new step) }
    {
        self.names.add(step.name.as_slice())?;
        self.numbers.push(self.index.len())?;
        put(&mut self.items, &mut self.index, step)
    }
}
