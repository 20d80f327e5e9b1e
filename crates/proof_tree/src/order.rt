//! The order of the nodes of a graph in its root's proof.

ghost use Rattle.std.specs.Prelude.{◌≡◌, ◌<◌, ◌++◌, length, nat_eq, IfOk, OnOk};
ghost use Rattle.std.specs.List.{AllByRecursion, list_any};
ghost use Rattle.indexmap.specs.IndexSet.{insert_key};
ghost use Rattle.proof_tree.specs.Graphs.{IsGraph};
ghost use Rattle.proof_tree.specs.Walks.{AddUses, AreUses, IsOrder, below_of, parts_of, parts_unless};

use crate::graph::ProofNode;
use indexmap::IndexSet;
use mm_base::Memory;
use std::alloc::Global;

/// A part of a proof that is still to be gone through.
#[derive(Clone, Copy)]
pub(crate) enum Part {
    /// The proof of a node.
    Proof(u32),
    /// Its label alone.
    Label(u32),
}

/// Puts the parts of a node's proof before all others, the last of them first.
pub(crate) fn push_parts(pending: &mut Vec<Part>, number: u32, below: &[u32]) -> Result<(), Memory>
    ensures { OnOk result (pending.new.items ≡ pending.old.items ++ parts_of number below.now) }
{
    pending.push(Part::Label(number))?;
    let mut left = below.len();
    while left > 0 {
        left -= 1;
        pending.push(Part::Proof(below[left]))?;
    }
    Ok(())
}

/// Puts the parts of a node's proof before all others, where the node is not yet in the order.
fn open(
    pending: &mut Vec<Part>,
    nodes: &[ProofNode],
    order: &IndexSet<u32>,
    number: u32,
) -> Result<(), Memory>
    requires { number < length nodes.now }
    ensures { OnOk result (pending.new.items ≡ pending.old.items ++ parts_unless (list_any (nat_eq number) order.now.keys) number (below_of nodes.now number)) }
{
    if order.contains(&number) {
        return Ok(());
    }
    push_parts(pending, number, nodes[number as usize].below.as_slice())
}

/// The nodes of the last one's proof, each where its proof first stands in the normal proof.
pub(crate) fn first_uses(alloc: Global, nodes: &[ProofNode]) -> Result<IndexSet<u32>, Memory>
    requires { IsGraph nodes.now }
    ensures { IfOk result (λ order. IsOrder nodes.now order.keys) }
{
    let mut order = IndexSet::new(alloc);
    let mut pending = Vec::new(alloc);
    pending.push(Part::Proof((nodes.len() - 1) as u32))?;
    while let Some(part) = pending.pop() {
        match part {
            Part::Proof(number) => open(&mut pending, nodes, &order, number)?,
            Part::Label(number) => put(&mut order, number)?,
        }
    }
    Ok(order)
}

/// Puts a node at the end of the order, where it is not yet there.
fn put(order: &mut IndexSet<u32>, number: u32) -> Result<(), Memory>
    ensures { OnOk result (order.new.keys ≡ insert_key nat_eq order.old.keys number) }
{
    order.insert(number)?;
    Ok(())
}

/// By node the number of places of these nodes that name it, as far as it fits.
pub(crate) fn uses(alloc: Global, nodes: &[ProofNode], order: &[u32]) -> Result<Vec<u32>, Memory>
    requires graph { IsGraph nodes.now }
    requires inside { AllByRecursion (λ k. k < length nodes.now) order.now }
    ensures { IfOk result (λ uses. AreUses nodes.now order.now uses.items) }
{
    let mut uses = vec![in alloc; 0u32; nodes.len()]?;
    for number in order {
        count_uses(&mut uses, nodes[*number as usize].below.as_slice());
    }
    Ok(uses)
}

fn count_uses(uses: &mut [u32], below: &[u32])
    requires { AllByRecursion (λ k. k < length uses.old) below.now }
    ensures { AddUses uses.old uses.new below.now }
{
    for number in below {
        let count = uses[*number as usize];
        uses[*number as usize] = count.saturating_add(1);
    }
}
