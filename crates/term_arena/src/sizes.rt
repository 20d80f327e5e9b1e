ghost use Rattle.std.specs.Prelude.{◌≡◌, ◌<◌, ◌≤◌, ℕ, length, true, IfOk};
ghost use Rattle.term_model.specs.Terms.{term_at};
ghost use Rattle.term_model.specs.Marks.{is_marked, bound_at, IsGraph, IsCyclic, IsPartlySolved};
ghost use Rattle.term_arena.specs.Walks.{marks_of, IsIdle, KeepsMarks};
ghost use Rattle.term_model.specs.Sizes.{node_tokens, AreMeasured, AreAllMeasured};
ghost use Rattle.term_arena.specs.Counted.{IsCounted};

use crate::cycles::step;
use crate::terms::Terms;
use crate::walk::{Step, Walk};
use mm_base::Memory;
use std::alloc::Global;
use term_model::Shape;

/// The tokens of a node's text, from those of the nodes that it is made of.
fn tokens(terms: &Terms, sizes: &[u64], node: u32) -> u64
    requires graph { IsGraph terms.now.nodes terms.now.bound }
    requires sizes { length sizes.now ≡ length terms.now.nodes }
    requires node { node < length terms.now.nodes }
    ensures { result ≡ node_tokens sizes.now (bound_at terms.now.bound node) (term_at terms.now.nodes node) }
{
    if let Some(to) = terms.target(node) {
        return sizes[to as usize];
    }
    let Shape::Node(_, _, _) = terms.shape(node) else {
        return 1;
    };
    let mut total = u64::from(terms.constants(node));
    for child in terms.children(node) {
        total = total.saturating_add(sizes[child.0 as usize]);
    }
    total
}

/// Counts a node that a step has settled.
fn count(terms: &Terms, sizes: &mut Vec<u64>, node: u32, did: Step)
    requires graph { IsGraph terms.now.nodes terms.now.bound }
    requires sizes { length sizes.old.items ≡ length terms.now.nodes }
    requires node { node < length terms.now.nodes }
    ensures { IsCounted terms.now.nodes terms.now.bound node sizes.old.items sizes.new.items did }
{
    if let Step::Settled = did {
        let total = tokens(terms, sizes, node);
        sizes[node as usize] = total;
    }
}

/// Counts the tokens of a node and of what it is made of.
fn measure(terms: &Terms, walk: &mut Walk, sizes: &mut Vec<u64>, root: u32)
    requires graph { IsGraph terms.now.nodes terms.now.bound }
    requires acyclic { IsCyclic terms.now.nodes terms.now.bound → ⊥ }
    requires room { length terms.now.nodes ≤ length walk.old.states }
    requires root { root < length terms.now.nodes }
    requires idle { IsIdle walk.old }
    requires solved { IsPartlySolved terms.now.nodes terms.now.bound (marks_of walk.old.states) }
    requires measured { AreMeasured terms.now.nodes terms.now.bound (marks_of walk.old.states) sizes.old.items }
    ensures room { length walk.new.states ≡ length walk.old.states }
    ensures idle { IsIdle walk.new }
    ensures settled { is_marked (marks_of walk.new.states) root ≡ true }
    ensures kept { KeepsMarks walk.old.states walk.new.states }
    ensures solved { IsPartlySolved terms.now.nodes terms.now.bound (marks_of walk.new.states) }
    ensures measured { AreMeasured terms.now.nodes terms.now.bound (marks_of walk.new.states) sizes.new.items }
{
    if walk.is_settled(root) {
        return;
    }
    walk.open(root);
    while let Some(last) = walk.last() {
        let did = step(terms, walk, last);
        if let Step::Cycle = did {
            return;
        }
        count(terms, sizes, last, did);
    }
}

/// The tokens of all nodes, where no path comes back to itself.
pub fn measure_all(alloc: Global, terms: &Terms) -> Result<Vec<u64>, Memory>
    requires graph { IsGraph terms.now.nodes terms.now.bound }
    requires acyclic { IsCyclic terms.now.nodes terms.now.bound → ⊥ }
    ensures { IfOk result (λ sizes. AreAllMeasured terms.now.nodes terms.now.bound sizes.items) }
{
    let nodes = terms.count();
    let mut walk = Walk::new(alloc)?;
    walk.reserve(nodes)?;
    walk.clear();
    let mut sizes = vec![in alloc; 0; nodes as usize]?;
    for root in 0..nodes {
        measure(terms, &mut walk, &mut sizes, root);
    }
    Ok(sizes)
}
