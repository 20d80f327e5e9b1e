ghost use Rattle.std.specs.Prelude.{◌≡◌, ◌++◌, ◌+◌, ◌<◌, ◌≤◌, ◌^◌, ◌-◌, ℕ, length, map, fold, min, slice_index_or, reverse, IfOk, IfErr};
ghost use Rattle.std.specs.List.{AllByRecursion};
ghost use Rattle.mm_base.specs.Limits.{most_proof_labels};
ghost use Rattle.proof_model.specs.Proofs.{postorder};
ghost use Rattle.proof_tree.specs.declared.graph.ProofNode.{ProofNode as NodeOf};
ghost use Rattle.proof_tree.specs.Graphs.{NameEarlier, IsTold, node_proofs, proof_at, root_proof, label_count, added_count};

use crate::graph::{ProofGraph, ProofNode};
use mm_base::{List, MOST_PROOF_LABELS, Memory, Name};
use std::alloc::Global;

/// Why a normal proof is not given.
#[derive(Clone, Copy, Debug, PartialEq, Eq)]
pub enum NormalFault {
    /// It has so many labels, over 2^20; a number that does not fit is the greatest that does.
    TooLong(u64),
    /// Memory ran out.
    Memory,
}

/// The number of labels of a proof by those of the proofs below it.
fn count(counts: &[u64], below: &[u32]) -> u64
    requires { AllByRecursion (λ k. k < length counts.now) below.now }
    ensures { result ≡ fold (added_count counts.now) 1 below.now }
{
    let mut count = 1u64;
    for number in below {
        count = count.saturating_add(counts[*number as usize]);
    }
    count
}

/// By node the number of labels of its proof.
fn counts(alloc: Global, nodes: &[ProofNode]) -> Result<Vec<u64>, Memory>
    requires { NameEarlier 0 nodes.now }
    ensures { IfOk result (λ counts. counts.items ≡ map label_count (node_proofs nodes.now)) }
{
    let mut counts = Vec::new(alloc);
    for node in nodes {
        let number = count(&counts, node.below.as_slice());
        counts.push(number)?;
    }
    Ok(counts)
}

/// The labels of the last node's proof from the last one to the first: a proof's label, and then the labels of the proofs
/// of its hypotheses, those of the last one first.
fn backwards(alloc: Global, nodes: &[ProofNode]) -> Result<Vec<Name>, Memory>
    requires earlier { NameEarlier 0 nodes.now }
    requires root { 0 < length nodes.now }
    requires few { length nodes.now < 2 ^ 32 }
    ensures { IfOk result (λ labels. reverse labels.items ≡ postorder (root_proof nodes.now)) }
{
    let mut labels = Vec::new(alloc);
    let mut pending = Vec::new(alloc);
    pending.push((nodes.len() - 1) as u32)?;
    while let Some(number) = pending.pop() {
        let node = &nodes[number as usize];
        labels.push(List::copy_of(alloc, node.label.as_slice())?)?;
        pending.extend_from_slice(node.below.as_slice())?;
    }
    Ok(labels)
}

/// The labels of the last node's proof.
fn listed(alloc: Global, nodes: &[ProofNode]) -> Result<List<Name>, Memory>
    requires earlier { NameEarlier 0 nodes.now }
    requires root { 0 < length nodes.now }
    requires few { length nodes.now < 2 ^ 32 }
    ensures { IfOk result (λ labels. labels ≡ postorder (root_proof nodes.now)) }
{
    let mut labels = backwards(alloc, nodes)?;
    labels.reverse();
    Ok(List::from_vec(labels))
}

/// The normal proof of a graph's root: its labels, each behind those of the proofs of its hypotheses.
///
/// `TooLong`: it has more than 2^20 labels; their number is known before the list is made. `Memory`: there is no room for
/// them.
pub fn normal(alloc: Global, graph: &ProofGraph) -> Result<List<Name>, NormalFault>
    ensures labels { IfOk result (λ labels. labels ≡ postorder (root_proof graph.now)) }
    ensures few { IfOk result (λ labels. length labels ≤ most_proof_labels) }
    ensures too_long { IfErr result (IsTold (root_proof graph.now)) }
{
    let nodes = graph.nodes();
    let Ok(counts) = counts(alloc, nodes) else {
        return Err(NormalFault::Memory);
    };
    let number = counts[nodes.len() - 1];
    if number > MOST_PROOF_LABELS {
        return Err(NormalFault::TooLong(number));
    }
    match listed(alloc, nodes) {
        Ok(labels) => Ok(labels),
        Err(_) => Err(NormalFault::Memory),
    }
}
