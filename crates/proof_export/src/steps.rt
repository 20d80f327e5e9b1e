//! The steps of the worksheet so far.

ghost use Rattle.std.specs.Prelude.{◌≡◌, List, Option, Some, ◌∷◌, [], ◌++◌, length, map, codes, false, OnOk, IfOk};
ghost use Rattle.mm_model.specs.Names.{Name};
ghost use Rattle.proof_model.specs.Machine.{Formula, same_formula};
ghost use Rattle.sheet_text.specs.declared.sheet.SheetItem.TheVariants as item;
ghost use Rattle.export_model.specs.Exported.{Push, hyp_steps, number_name, place_in, step_with};
ghost use Rattle.proof_export.specs.Books.{book_in};
ghost use Rattle.proof_export.specs.Leads.{Goes, HasFormulas, ArePlaces, items_of, push_with, taken_for};

use crate::places::{first_step, put_step};
use crate::sheet::{number_name, tokens};
use indexmap::IndexMap;
use mm_base::{List, Memory, Name, Sym};
use mm_frames::{Frames, Hyp};
use sheet_text::{Given, SheetItem, SheetStep};
use std::alloc::Global;

#[derive(Drop)]
pub(crate) struct Steps {
    alloc: Global,
    items: Vec<SheetItem>,
    /// By the numbers of a formula's symbols the first step with that formula.
    places: IndexMap<Vec<u32>, u32>,
}

fn same_formula(one: &[Sym], other: &[Sym]) -> bool
    ensures { result ≡ same_formula one.now other.now }
{
    one == other
}

impl Steps {
    pub(crate) fn new(alloc: Global) -> Steps
        ensures formulas { HasFormulas result [] }
        ensures items { result.items.items ≡ [] }
    {
        Steps {
            alloc,
            items: Vec::new(alloc),
            places: IndexMap::new(alloc),
        }
    }

    pub(crate) fn into_items(self) -> List<SheetItem>
        ensures { result ≡ self.items.items }
    {
        let Steps {
            alloc: _,
            items,
            places: _,
        } = self;
        List::from_vec(items)
    }

    /// The first step with a formula, or `?`.
    fn place(&self, formula: &[Sym]) -> Result<Given, Memory>
        ensures { (fs : List Formula) → HasFormulas self.now fs → IfOk result (λ g. g ≡ place_in fs formula.now) }
    {
        let number = first_step(self.alloc, &self.places, formula)?;
        match number {
            None => Ok(Given::Gap),
            Some(number) => Ok(Given::Step(number)),
        }
    }

    /// The places of the `$e` among these hypotheses, where these entries are taken for them.
    pub(crate) fn places(&self, hyps: &[Hyp], entries: &[List<Sym>]) -> Result<List<Given>, Memory>
        requires { length entries.now ≡ length hyps.now }
        ensures { (fs : List Formula) → HasFormulas self.now fs → IfOk result (λ gs. gs ≡ map (place_in fs) (taken_for hyps.now entries.now)) }
    {
        let mut places = Vec::new(self.alloc);
        for (place, hyp) in hyps.iter().enumerate() {
            if !hyp.floating {
                places.push(self.place(entries[place].as_slice())?)?;
            }
        }
        Ok(List::from_vec(places))
    }

    fn count(&self) -> Result<u32, Memory>
        ensures { IfOk result (λ n. n ≡ length self.now.items.items) }
    {
        match u32::try_from(self.items.len()) {
            Err(_) => Err(Memory),
            Ok(count) => Ok(count),
        }
    }

    fn put(
        &mut self,
        frames: &Frames,
        hyp: bool,
        name: Name,
        places: List<Given>,
        reference: Option<Name>,
        formula: &[Sym],
    ) -> Result<(), Memory>
        ensures items { OnOk result (self.new.items.items ≡ self.old.items.items ++ item.Step (step_with (book_in frames.now []) hyp name places reference formula.now) ∷ []) }
        ensures places { self.new.places.entries ≡ self.old.places.entries }
    {
        let formula = tokens(self.alloc, frames, formula)?;
        self.items.push(SheetItem::Step(SheetStep {
            line: 0,
            hyp,
            name,
            places,
            reference,
            formula,
        }))?;
        Ok(())
    }

    /// The step of a `$e` behind the steps so far.
    pub(crate) fn put_hyp(&mut self, frames: &Frames, hyp: &Hyp) -> Result<(), Memory>
        ensures formulas { OnOk result ((fs : List Formula) → HasFormulas self.old fs → HasFormulas self.new (fs ++ hyp.now.formula ∷ [])) }
        ensures items { OnOk result (self.new.items.items ≡ self.old.items.items ++ items_of (hyp_steps (book_in frames.now []) (length self.old.items.items) (hyp.now ∷ []))) }
    {
        let number = self.count()?;
        let name = number_name(self.alloc, number)?;
        let label = List::copy_of(self.alloc, hyp.name.as_slice())?;
        let formula = hyp.formula.as_slice();
        put_step(self.alloc, &mut self.places, formula, number)?;
        let places = List::from_vec(Vec::new(self.alloc));
        self.put(frames, true, name, places, Some(label), formula)?;
        Ok(())
    }

    /// The step of a formula that an assertion gives, where no step has it.
    fn put_new(
        &mut self,
        frames: &Frames,
        label: Name,
        places: List<Given>,
        formula: &[Sym],
    ) -> Result<(), Memory>
        ensures formulas { OnOk result ((fs : List Formula) → HasFormulas self.old fs → HasFormulas self.new (fs ++ formula.now ∷ [])) }
        ensures items { OnOk result (self.new.items.items ≡ self.old.items.items
            ++ item.Step (step_with (book_in frames.now []) false (number_name (length self.old.items.items)) places (Some label) formula.now) ∷ []) }
    {
        let number = self.count()?;
        let name = number_name(self.alloc, number)?;
        put_step(self.alloc, &mut self.places, formula, number)?;
        self.put(frames, false, name, places, Some(label), formula)?;
        Ok(())
    }

    /// The last step, for the theorem's formula.
    pub(crate) fn put_qed(
        &mut self,
        frames: &Frames,
        places: List<Given>,
        reference: Option<Name>,
        formula: &[Sym],
    ) -> Result<(), Memory>
        ensures { OnOk result (self.new.items.items ≡ self.old.items.items
            ++ item.Step (step_with (book_in frames.now []) false (codes "qed") places reference formula.now) ∷ []) }
    {
        let name = List::copy_of(self.alloc, b"qed")?;
        self.put(frames, false, name, places, reference, formula)?;
        Ok(())
    }

    /// What an assertion gives: the last step, where it is the theorem's formula; else a step, where none has it. Whether
    /// it was the last.
    pub(crate) fn put_push(
        &mut self,
        frames: &Frames,
        theorem: &[Sym],
        label: &[u8],
        places: List<Given>,
        formula: &[Sym],
    ) -> Result<bool, Memory>
        ensures { IfOk result (λ last. (provable : Name) (taken : List Formula) (rest : List Push) → ArePlaces self.old places taken
            → Goes last (book_in frames.now provable) theorem.now self.old (push_with label.now taken formula.now ∷ rest) self.new rest) }
    {
        let label = List::copy_of(self.alloc, label)?;
        if same_formula(formula, theorem) {
            self.put_qed(frames, places, Some(label), formula)?;
            return Ok(true);
        }
        let number = first_step(self.alloc, &self.places, formula)?;
        match number {
            Some(_) => Ok(false),
            None => {
                self.put_new(frames, label, places, formula)?;
                Ok(false)
            }
        }
    }
}
