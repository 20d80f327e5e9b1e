ghost use Rattle.std.specs.Prelude.{◌≡◌, ◌+◌, ◌<◌, ◌≤◌, ◌∷◌, ◌++◌, ◌^◌, [], length, take, set, Some, None, IfOk, OnOk, OnErr, vec_len};
ghost use Rattle.term_arena.specs.Inside.{IsPacked};

use mm_base::Memory;
use std::alloc::Global;
use std::marker::Model;
use term_model::{Id, Shape};

/// A term as the store keeps it: its children begin at a place of the list of all children.
#[derive(Clone, Copy, Debug)]
pub struct Entry {
    shape: Shape,
    constants: u32,
    start: u32,
}

/// The terms of a store, and what each node is bound to.
#[derive(Drop)]
pub struct Terms {
    entries: Vec<Entry>,
    /// The children of all terms, term by term.
    children: Vec<Id>,
    bound: Vec<Option<u32>>,
}

impl Model for Terms {
    ghost use Rattle.term_model.specs.Marks.{Graph};
    ghost use Rattle.term_arena.specs.Inside.{entry_terms, IsTerms};

    ghost Value = { Graph };

    ghost view = { λ t. record { nodes = entry_terms t.children.items t.entries.items; bound = t.bound.items } };

    ghost invariant = { λ t. IsTerms t.entries.items t.children.items t.bound.items };
}

impl Terms {
    ghost use Rattle.std.specs.Prelude.{option_map};
    ghost use Rattle.term_model.specs.Terms.{shape_of, children_of, constants_of, shape_count, term_of, term_at};
    ghost use Rattle.term_model.specs.Marks.{bound_at};

    pub fn new(alloc: Global) -> Terms
        ensures nodes { result.nodes ≡ [] }
        ensures bound { result.bound ≡ [] }
    {
        Terms {
            entries: Vec::new(alloc),
            children: Vec::new(alloc),
            bound: Vec::new(alloc),
        }
    }

    pub fn allocator(&self) -> Global {
        *self.entries.allocator()
    }

    pub fn count(&self) -> u32
        ensures count { result ≡ length self.now.nodes }
        ensures same { length self.now.bound ≡ length self.now.nodes }
    {
        self.entries.len() as u32
    }

    /// Puts a term behind the others. Where there is no room for it nothing changes.
    pub fn add(&mut self, shape: Shape, constants: u32, children: &[Id]) -> Result<Id, Memory>
        requires { shape_count shape ≡ length children.now }
        ensures id { IfOk result (λ id. id.0 ≡ length self.old.nodes) }
        ensures nodes { OnOk result (self.new.nodes ≡ self.old.nodes ++ term_of shape constants children.now ∷ []) }
        ensures bound { OnOk result (self.new.bound ≡ self.old.bound ++ None ∷ []) }
        ensures short { OnOk result (length self.new.nodes < 2 ^ 32) }
        ensures err { OnErr result (self.new ≡ self.old) }
    {
        let start = self.children.len();
        if self.entries.len() >= u32::MAX as usize || start + children.len() > u32::MAX as usize {
            return Err(Memory);
        }
        let entry = Entry {
            shape,
            constants,
            start: start as u32,
        };
        self.entries.reserve(1)?;
        self.bound.reserve(1)?;
        self.children.extend_from_slice(children)?;
        let id = Id(self.entries.len() as u32);
        self.entries.push(entry).unwrap();
        self.bound.push(None).unwrap();
        Ok(id)
    }

    pub fn shape(&self, i: u32) -> Shape
        requires { i < length self.now.nodes }
        ensures { result ≡ shape_of (term_at self.now.nodes i) }
    {
        self.entries[i as usize].shape
    }

    pub fn constants(&self, i: u32) -> u32
        requires { i < length self.now.nodes }
        ensures { result ≡ constants_of (term_at self.now.nodes i) }
    {
        let entry = self.entries[i as usize];
        match entry.shape {
            Shape::Node(_, _, _) => entry.constants,
            _ => 0,
        }
    }

    pub fn children(&self, i: u32) -> &[Id]
        requires { i < length self.now.nodes }
        ensures { result.now ≡ children_of (term_at self.now.nodes i) }
    {
        let entry = self.entries[i as usize];
        let start = entry.start as usize;
        &self.children[start..start + entry.shape.count() as usize]
    }

    pub fn target(&self, i: u32) -> Option<u32>
        requires { i < length self.now.nodes }
        ensures { result ≡ bound_at self.now.bound i }
    {
        self.bound[i as usize]
    }

    pub fn bind(&mut self, from: u32, to: u32)
        requires { from < length self.old.nodes }
        ensures { self.new ≡ record self.old { bound = set self.old.bound from (Some to) } }
    {
        self.bound[from as usize] = Some(to);
    }

    pub fn unbind(&mut self, i: u32)
        requires { i < length self.old.nodes }
        ensures { self.new ≡ record self.old { bound = set self.old.bound i None } }
    {
        self.bound[i as usize] = None;
    }

    /// Leaves the first so many terms.
    pub fn cut(&mut self, count: u32)
        requires { count ≤ length self.old.nodes }
        ensures { self.new ≡ record { nodes = take count self.old.nodes; bound = take count self.old.bound } }
    {
        let count = count as usize;
        let kept = children_before(&self.entries, count, self.children.len());
        self.children.truncate(kept);
        self.entries.truncate(count);
        self.bound.truncate(count);
    }
}

/// How many children stand before those of a term, or in all where there is no such term.
fn children_before(entries: &[Entry], count: usize, all: usize) -> usize
    requires { IsPacked 0 entries.now all }
    ensures packed { IsPacked 0 (take count entries.now) result }
    ensures within { result ≤ all }
{
    match entries.get(count) {
        Some(entry) => entry.start as usize,
        None => all,
    }
}
