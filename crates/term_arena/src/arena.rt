ghost use Rattle.std.specs.Prelude.{◌≡◌, ◌+◌, ◌^◌, ◌<◌, ◌≤◌, ◌∷◌, ◌++◌, [], length, IfOk, OnOk, OnErr, slice_get, Some, None, take, true, false, ◌≢◌, IsTrue, ◌↔◌};

use crate::cycles::settle_since;
use crate::sizes::measure_all;
use crate::terms::Terms;
use crate::walk::Walk;
use mm_base::{Label, List, Memory, Sym, Typecode};
use std::alloc::Global;
use std::marker::Model;
use term_model::{Id, Shape};
use undo_trail::Trail;

/// A store of terms with shared parts, whose nodes may be bound to each other. A node that is bound stands for the node
/// that it is bound to. Nodes and bindings are added at the end, and are taken back from the end.
#[derive(Drop)]
pub struct Arena {
    terms: Terms,
    /// The nodes that are bound, in the order in which they were.
    trail: Trail,
    walk: Walk,
    ready: bool,
}

/// A state of a store to go back to: how many nodes it has, and how many bindings were made.
#[derive(Clone, Copy, Debug, PartialEq, Eq)]
pub struct Mark {
    pub nodes: u32,
    pub trail: u32,
}

impl Model for Arena {
    ghost use Rattle.term_model.specs.Store.{Store};
    ghost use Rattle.term_arena.specs.Inside.{links_of, IsArena};

    ghost Value = { Store };

    ghost view = { λ a. record { nodes = a.terms.nodes; links = links_of a.trail.entries a.terms.bound; ready = a.ready } };

    ghost invariant = { λ a. IsArena a.terms.nodes a.terms.bound a.trail a.walk.states a.ready };
}

impl Arena {
    ghost use Rattle.std.specs.List.{AllByRecursion};
    ghost use Rattle.term_model.specs.Terms as term;
    ghost use Rattle.term_model.specs.Terms.{term_code, term_at, shape_of, shape_count, children_of, term_of, HasChildrenBelow};
    ghost use Rattle.term_model.specs.Links.{end_of, target_of, link_at, AreBelow};
    ghost use Rattle.term_model.specs.Store.{with_node, with_link, cut_to, IsStore, IsClosed, IsSolved, HasSolution};
    ghost use Rattle.term_model.specs.Sizes.{AreSizes, AreTreeSizes};

    /// No nodes, and not ready.
    pub fn new(alloc: Global) -> Result<Arena, Memory>
        ensures nodes { IfOk result (λ a. a.nodes ≡ []) }
        ensures links { IfOk result (λ a. a.links ≡ []) }
        ensures ready { IfOk result (λ a. a.ready ≡ false) }
        ensures solved { IfOk result (λ a. IsSolved a.nodes a.links) }
    {
        Ok(Arena {
            terms: Terms::new(alloc),
            trail: Trail::new(alloc)?,
            walk: Walk::new(alloc)?,
            ready: false,
        })
    }

    /// How many nodes there are.
    pub fn count(&self) -> u32
        ensures count { result ≡ length self.now.nodes }
        ensures store { IsStore self.now.nodes self.now.links }
        ensures links { length self.now.links ≤ length self.now.nodes }
    {
        self.terms.count()
    }

    /// What kind of term a node is, whatever it is bound to.
    pub fn look(&self, id: Id) -> Shape
        requires { id.0 < length self.now.nodes }
        ensures { result ≡ shape_of (term_at self.now.nodes id.0) }
    {
        self.terms.shape(id.0)
    }

    /// The child of a production at a place, from 0.
    pub fn child(&self, id: Id, k: u32) -> Id
        requires id { id.0 < length self.now.nodes }
        requires k { k < length (children_of (term_at self.now.nodes id.0)) }
        ensures child { slice_get (children_of (term_at self.now.nodes id.0)) k ≡ Some result }
        ensures below { result.0 < length self.now.nodes }
    {
        self.terms.children(id.0)[k as usize]
    }

    /// The unbound node at the end of a node's bindings. It takes as many steps as bindings lead there.
    pub fn follow(&self, id: Id) -> Id
        requires { id.0 < length self.now.nodes }
        ensures end { result.0 ≡ end_of self.now.links id.0 }
        ensures below { result.0 < length self.now.nodes }
        ensures unbound { target_of self.now.links result.0 ≡ None }
    {
        let mut at = id.0;
        while let Some(to) = self.terms.target(at) {
            at = to;
        }
        Id(at)
    }

    fn add(&mut self, shape: Shape, constants: u32, children: &[Id]) -> Result<Id, Memory>
        requires count { shape_count shape ≡ length children.now }
        requires below { HasChildrenBelow (length self.old.nodes) (term_of shape constants children.now) }
        ensures id { IfOk result (λ id. id.0 ≡ length self.old.nodes) }
        ensures ok { OnOk result (self.new ≡ with_node self.old (term_of shape constants children.now)) }
        ensures solved { IsSolved self.old.nodes self.old.links → IsSolved self.new.nodes self.new.links }
        ensures err { OnErr result (self.new ≡ self.old) }
    {
        let id = self.terms.add(shape, constants, children)?;
        self.ready = false;
        Ok(id)
    }

    /// Adds a variable, as the last node. `Memory`: there is no room or no number for it, and nothing changed.
    pub fn add_var(&mut self, sym: Sym, code: Typecode) -> Result<Id, Memory>
        ensures id { IfOk result (λ id. id.0 ≡ length self.old.nodes) }
        ensures ok { OnOk result (self.new ≡ with_node self.old (term.Var sym code)) }
        ensures solved { IsSolved self.old.nodes self.old.links → IsSolved self.new.nodes self.new.links }
        ensures err { OnErr result (self.new ≡ self.old) }
    {
        self.add(Shape::Var(sym, code), 0, &[])
    }

    /// Adds a node that stands for any tree of a typecode, as the last node. `Memory`: there is no room or no number for
    /// it, and nothing changed.
    pub fn add_free(&mut self, code: Typecode) -> Result<Id, Memory>
        ensures id { IfOk result (λ id. id.0 ≡ length self.old.nodes) }
        ensures ok { OnOk result (self.new ≡ with_node self.old (term.Free code)) }
        ensures solved { IsSolved self.old.nodes self.old.links → IsSolved self.new.nodes self.new.links }
        ensures err { OnErr result (self.new ≡ self.old) }
    {
        self.add(Shape::Free(code), 0, &[])
    }

    /// Adds a production, with the number of constants in its text and its children in order, as the last node. `Memory`:
    /// there is no room or no number for it, and nothing changed.
    pub fn add_node(
        &mut self,
        label: Label,
        code: Typecode,
        constants: u32,
        children: &[Id],
    ) -> Result<Id, Memory>
        requires { AllByRecursion (λ id. id.0 < length self.old.nodes) children.now }
        ensures id { IfOk result (λ id. id.0 ≡ length self.old.nodes) }
        ensures ok { OnOk result (self.new ≡ with_node self.old (term.Node label code constants children.now)) }
        ensures solved { IsSolved self.old.nodes self.old.links → IsSolved self.new.nodes self.new.links }
        ensures err { OnErr result (self.new ≡ self.old) }
    {
        let Ok(count) = u32::try_from(children.len()) else {
            return Err(Memory);
        };
        self.add(Shape::Node(label, code, count), constants, children)
    }

    /// Makes room for every binding and for the walks of `acyclic` and `acyclic_since`. `Memory`: there is no room, and
    /// nothing changed.
    pub fn ready(&mut self) -> Result<(), Memory>
        ensures ok { OnOk result (self.new ≡ record self.old { ready = true }) }
        ensures err { OnErr result (self.new ≡ self.old) }
    {
        let count = self.terms.count();
        let bound = self.trail.mark();
        self.trail.reserve(count - bound)?;
        self.walk.reserve(count)?;
        self.ready = true;
        Ok(())
    }

    /// Binds a node to the end of another. It takes no memory.
    pub fn bind(&mut self, from: Id, to: Id)
        requires ready { self.old.ready ≡ true }
        requires from { from.0 < length self.old.nodes }
        requires to { to.0 < length self.old.nodes }
        requires unbound { target_of self.old.links from.0 ≡ None }
        requires apart { from.0 ≢ end_of self.old.links to.0 }
        requires code { term_code (term_at self.old.nodes from.0) ≡ term_code (term_at self.old.nodes (end_of self.old.links to.0)) }
        ensures { self.new ≡ with_link self.old (record { from = from.0; to = end_of self.old.links to.0 }) }
    {
        let end = self.follow(to);
        self.terms.bind(from.0, end.0);
        self.trail.note(from.0);
    }

    /// Whether the store has a solution: one finite tree a node that respects the terms and the bindings. It takes time
    /// in proportion to the bound nodes and what they are made of, and no memory.
    pub fn acyclic(&mut self) -> bool
        requires ready { self.old.ready ≡ true }
        requires closed { IsClosed self.old.nodes self.old.links }
        ensures same { self.new ≡ self.old }
        ensures solvable { IsTrue result ↔ HasSolution self.old.nodes self.old.links }
    {
        settle_since(&self.terms, &self.trail, &mut self.walk, 0)
    }

    /// The same, where there is a solution under the first `trail` bindings. It takes time in proportion to the nodes
    /// that were bound since then and what they are made of, however large the store is, and no memory.
    pub fn acyclic_since(&mut self, trail: u32) -> bool
        requires ready { self.old.ready ≡ true }
        requires trail { trail ≤ length self.old.links }
        requires closed { IsClosed self.old.nodes self.old.links }
        requires solvable { HasSolution self.old.nodes (take trail self.old.links) }
        ensures same { self.new ≡ self.old }
        ensures solvable { IsTrue result ↔ HasSolution self.old.nodes self.old.links }
    {
        settle_since(&self.terms, &self.trail, &mut self.walk, trail)
    }

    /// The number of tokens of the text of each node's tree: a variable and an unbound free node count 1, a production
    /// counts its constants and its children's numbers, and a bound node has the number of its end. A number above
    /// 2^64 - 1 is given as 2^64 - 1. Each node is counted once, however often it is shared. `Memory`: there is no room
    /// for 16 bytes a node.
    pub fn sizes(&self) -> Result<List<u64>, Memory>
        requires { IsSolved self.now.nodes self.now.links }
        ensures sizes { IfOk result (AreSizes self.now.nodes self.now.links) }
        ensures trees { IfOk result (AreTreeSizes self.now.nodes self.now.links) }
    {
        let sizes = measure_all(self.terms.allocator(), &self.terms)?;
        Ok(List::from_vec(sizes))
    }

    /// Takes back the bindings that were made since a mark, and then the nodes that were added. A store that was ready
    /// stays so.
    pub fn undo_to(&mut self, mark: Mark)
        requires nodes { mark.nodes ≤ length self.old.nodes }
        requires trail { mark.trail ≤ length self.old.links }
        requires kept { AreBelow mark.nodes (take mark.trail self.old.links) }
        ensures { self.new ≡ cut_to self.old mark.nodes mark.trail }
    {
        while let Some(i) = self.trail.back_to(mark.trail) {
            self.terms.unbind(i);
        }
        self.terms.cut(mark.nodes);
    }

    /// The present state, for `undo_to`.
    pub fn mark(&self) -> Mark
        ensures nodes { result.nodes ≡ length self.now.nodes }
        ensures trail { result.trail ≡ length self.now.links }
        ensures store { IsStore self.now.nodes self.now.links }
        ensures few { length self.now.links ≤ length self.now.nodes }
    {
        Mark {
            nodes: self.terms.count(),
            trail: self.trail.mark(),
        }
    }

    /// The node that a binding bound, by the number of the binding, from 0.
    pub fn noted(&self, k: u32) -> Id
        requires { k < length self.now.links }
        ensures { result.0 ≡ (link_at self.now.links k).from }
    {
        Id(self.trail.entry(k))
    }

    /// The two nodes of a binding, by its number, from 0.
    pub fn link(&self, k: u32) -> (Id, Id)
        requires { k < length self.now.links }
        ensures from { result.0.0 ≡ (link_at self.now.links k).from }
        ensures to { result.1.0 ≡ (link_at self.now.links k).to }
        ensures from_below { result.0.0 < length self.now.nodes }
        ensures to_below { result.1.0 < length self.now.nodes }
    {
        let from = self.trail.entry(k);
        match self.terms.target(from) {
            Some(to) => (Id(from), Id(to)),
            None => unreachable!(),
        }
    }
}
