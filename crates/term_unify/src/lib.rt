//! Unification of two nodes of a store of terms, and the most general tree of a node.
#![tactic(auto)]

mod reading;

ghost use Rattle.std.specs.Prelude.{◌≡◌, ◌<◌, ◌≤◌, ◌++◌, length, drop, true, List, IsOk, OnOk, OnErr, ◌↔◌};
ghost use Rattle.mm_base.specs.declared.tree.Tree.{Tree};
ghost use Rattle.std.specs.Bool.{OnTrue, OnFalse};
ghost use Rattle.term_model.specs.Links.{Link, end_of, link_at};
ghost use Rattle.term_model.specs.Store.{tree_at, ends_of, Agrees, IsClosed, IsClosedUpTo, IsSolved, IsStore, Solution, HasSolution};
ghost use Rattle.term_model.specs.Terms.{term_at, children_of};
ghost use Rattle.std.specs.List.{AllByRecursion};
ghost use Rattle.term_unify.specs.Steps.{Extends, Forces, Excludes, HaveSameTree, HaveSameChildren, IsOriented, KeepsSolutions, HasNone, pairs_of};

pub use reading::read_off;
use term_arena::{Arena, Id, Shape};

/// No solution makes the two nodes equal.
#[derive(Clone, Copy, Debug, PartialEq, Eq)]
pub struct NoFit;

/// Makes two nodes equal: Ok where some solution gives them one tree, and the solutions are then exactly those that do.
/// Bindings are added at the end, at most one for each node, and no node is added or copied. It takes no memory, and time
/// in proportion to the pairs of nodes that it joins, the bindings that lead from them to their ends, and what hangs on
/// the nodes that it bound. `NoFit`: no solution gives them one tree, and nothing has changed.
pub fn unify(arena: &mut Arena, a: Id, b: Id) -> Result<(), NoFit>
    requires ready { arena.old.ready ≡ true }
    requires a { a.0 < length arena.old.nodes }
    requires b { b.0 < length arena.old.nodes }
    requires solved { IsSolved arena.old.nodes arena.old.links }
    ensures nodes { arena.new.nodes ≡ arena.old.nodes }
    ensures ready { arena.new.ready ≡ true }
    ensures solved { IsSolved arena.new.nodes arena.new.links }
    ensures fits { IsOk result ↔ ((trees : List Tree) × Solution arena.old.nodes arena.old.links trees × HaveSameTree a.0 b.0 trees) }
    ensures solutions { OnOk result ((trees : List Tree) → Solution arena.new.nodes arena.new.links trees ↔ (Solution arena.old.nodes arena.old.links trees × HaveSameTree a.0 b.0 trees)) }
    ensures bindings { OnOk result ((more : List Link) × (arena.new.links ≡ arena.old.links ++ more)) }
    ensures unchanged { OnErr result (arena.new ≡ arena.old) }
{
    let mark = arena.mark();
    if !merge(arena, a, b) {
        return Err(NoFit);
    }
    if !close_all(arena, mark.trail) {
        arena.undo_to(mark);
        return Err(NoFit);
    }
    if !arena.acyclic_since(mark.trail) {
        arena.undo_to(mark);
        return Err(NoFit);
    }
    Ok(())
}

/// Binds the ends of two nodes to each other, unless they are one already or their typecodes differ.
fn merge(arena: &mut Arena, x: Id, y: Id) -> bool
    requires ready { arena.old.ready ≡ true }
    requires x { x.0 < length arena.old.nodes }
    requires y { y.0 < length arena.old.nodes }
    ensures extends { Extends arena.old arena.new }
    ensures joined { OnTrue result (end_of arena.new.links x.0 ≡ end_of arena.new.links y.0) }
    ensures forced { OnTrue result (Forces arena.old arena.new (HaveSameTree x.0 y.0)) }
    ensures none { OnFalse result (Excludes arena.old (HaveSameTree x.0 y.0)) }
    ensures unchanged { OnFalse result (arena.new ≡ arena.old) }
{
    let left = arena.follow(x);
    let right = arena.follow(y);
    if left == right {
        return true;
    }
    let first = arena.look(left);
    let second = arena.look(right);
    if first.code() != second.code() {
        return false;
    }
    if first.is_free() {
        arena.bind(left, right);
    } else {
        arena.bind(right, left);
    }
    true
}

/// Merges the children of two productions of one label, pair by pair.
fn merge_children(arena: &mut Arena, from: Id, to: Id, count: u32) -> bool
    requires ready { arena.old.ready ≡ true }
    requires from { from.0 < length arena.old.nodes }
    requires to { to.0 < length arena.old.nodes }
    requires first { length (children_of (term_at arena.old.nodes from.0)) ≡ count }
    requires second { length (children_of (term_at arena.old.nodes to.0)) ≡ count }
    ensures extends { Extends arena.old arena.new }
    ensures joined { OnTrue result (ends_of arena.new.links (children_of (term_at arena.old.nodes from.0)) ≡ ends_of arena.new.links (children_of (term_at arena.old.nodes to.0))) }
    ensures forced { OnTrue result (Forces arena.old arena.new (HaveSameChildren arena.old from.0 to.0)) }
    ensures none { OnFalse result (Excludes arena.old (HaveSameChildren arena.old from.0 to.0)) }
{
    for k in 0..count {
        let x = arena.child(from, k);
        let y = arena.child(to, k);
        if !merge(arena, x, y) {
            return false;
        }
    }
    true
}

/// How many pairs of children two shapes have to be merged, if they are of one kind.
fn pairs(first: Shape, second: Shape) -> Option<u32>
    ensures { result ≡ pairs_of first second }
{
    match (first, second) {
        (Shape::Var(x, c), Shape::Var(y, d)) => { if x == y && c == d { Some(0) } else { None } }
        (Shape::Node(l, c, n), Shape::Node(m, d, h)) => {
            if l == m && c == d && n == h {
                Some(n)
            } else {
                None
            }
        }
        _ => None,
    }
}

/// Makes the two nodes of a binding agree.
fn close_link(arena: &mut Arena, k: u32) -> bool
    requires ready { arena.old.ready ≡ true }
    requires k { k < length arena.old.links }
    requires oriented { IsOriented arena.old.nodes (link_at arena.old.links k) }
    ensures extends { Extends arena.old arena.new }
    ensures agrees { OnTrue result (Agrees arena.new.links (term_at arena.old.nodes (link_at arena.old.links k).from) (term_at arena.old.nodes (link_at arena.old.links k).to)) }
    ensures kept { OnTrue result (KeepsSolutions arena.old arena.new) }
    ensures none { OnFalse result (HasNone arena.old) }
{
    let (from, to) = arena.link(k);
    let first = arena.look(from);
    if first.is_free() {
        return true;
    }
    let second = arena.look(to);
    match pairs(first, second) {
        Some(count) => merge_children(arena, from, to, count),
        None => false,
    }
}

/// Makes the nodes of each binding from a place on agree, and of those that this adds.
fn close_all(arena: &mut Arena, start: u32) -> bool
    requires ready { arena.old.ready ≡ true }
    requires start { start ≤ length arena.old.links }
    requires closed { IsClosedUpTo start arena.old.nodes arena.old.links }
    requires oriented { AllByRecursion (IsOriented arena.old.nodes) (drop start arena.old.links) }
    ensures extends { Extends arena.old arena.new }
    ensures closed { OnTrue result (IsClosed arena.new.nodes arena.new.links) }
    ensures kept { OnTrue result (KeepsSolutions arena.old arena.new) }
    ensures none { OnFalse result (HasNone arena.old) }
{
    let mut k = start;
    while k < arena.mark().trail {
        if !close_link(arena, k) {
            return false;
        }
        k += 1;
    }
    true
}
