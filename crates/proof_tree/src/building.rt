//! The graph of a proof, from the steps that it is made of.

ghost use Rattle.std.specs.Prelude.{◌≡◌, ◌<◌, ◌++◌, true, [], Some, length, map, filter_map, nat_eq, slice_get, IfOk, OnOk};
ghost use Rattle.std.specs.Option.{option_copied, option_to_list};
ghost use Rattle.std.specs.List.{AllByRecursion};
ghost use Rattle.std.specs.HashMap.{get};
ghost use Rattle.mm_frames.specs.Contents.{frame_at};
ghost use Rattle.proof_tree.specs.Graphs.{root_proof};
ghost use Rattle.proof_tree.specs.Adding.{Adds, AddsAll, AddsStep, IsInside, IsProofAt, IsTable, proof_over, table_proofs};
ghost use Rattle.proof_tree.specs.Given.{given_proof, given_proofs, reference_proof, hyps_of, item_at, name_in, tree_proof, used_at, variable_proof, weave};
ghost use Rattle.proof_tree.specs.Standing.{Proves};

use crate::builder::GraphBuilder;
use crate::floats::float_labels;
use crate::graph::ProofGraph;
use mm_base::{Label, List, Memory, Name, Sym, Tree};
use mm_database::Database;
use mm_frames::Frames;
use mm_model::{Frame, Hyp};
use model_laws::has_database_facts;
use std::alloc::Global;
use std::collections::HashMap;

/// What proves a step.
#[derive(Debug, Drop)]
pub enum ProofStep {
    /// It is a hypothesis of the theorem, with this label.
    Hyp(Name),
    /// It follows by an assertion with these values of the variables of its frame, in the order of the frame, from the steps
    /// with these numbers, one for each `$e` of the frame, in order.
    Ref(Label, List<Tree>, List<u32>),
    /// It is not used.
    Unused,
}

/// Adds the proof that a variable is of its typecode: its `$f`.
fn add_variable(
    alloc: Global,
    floats: &HashMap<u32, Name>,
    graph: &mut GraphBuilder,
    variable: Sym,
) -> Result<u32, Memory>
    ensures { IfOk result (Adds graph.old graph.new (variable_proof (get nat_eq floats.now) variable.0)) }
{
    match floats.get(&variable.0) {
        Some(name) => graph.add(name.as_slice(), Vec::new(alloc)),
        None => graph.add(&[], Vec::new(alloc)),
    }
}

/// Adds a proof that ends with a label of the database.
fn add_label(
    frames: &Frames,
    graph: &mut GraphBuilder,
    label: Label,
    below: Vec<u32>,
) -> Result<u32, Memory>
    requires { AllByRecursion (λ k. k < length graph.old) below.items }
    ensures { IfOk result (Adds graph.old graph.new (proof_over graph.old (name_in frames.now.labels label) below.items)) }
{
    if label.0 < frames.labels() {
        graph.add(frames.label_name(label), below)
    } else {
        graph.add(&[], below)
    }
}

/// Adds the proof that a tree is of its typecode.
fn add_tree(
    alloc: Global,
    frames: &Frames,
    floats: &HashMap<u32, Name>,
    graph: &mut GraphBuilder,
    tree: &Tree,
) -> Result<u32, Memory>
    ensures { IfOk result (Adds graph.old graph.new (tree_proof frames.now.labels (get nat_eq floats.now) tree.now)) }
{
    match tree {
        Tree::Var(variable, _) => add_variable(alloc, floats, graph, *variable),
        Tree::Work(..) | Tree::Fresh(..) => graph.add(&[], Vec::new(alloc)),
        Tree::Node(label, _, children) => {
            let mut below = Vec::new(alloc);
            for child in children.as_slice() {
                below.push(add_tree(alloc, frames, floats, graph, child)?)?;
            }
            add_label(frames, graph, *label, below)
        }
    }
}

/// Adds the proofs of trees, in order.
fn add_trees(
    alloc: Global,
    frames: &Frames,
    floats: &HashMap<u32, Name>,
    graph: &mut GraphBuilder,
    trees: &[Tree],
) -> Result<Vec<u32>, Memory>
    ensures { IfOk result (λ ns. AddsAll graph.old graph.new (map (tree_proof frames.now.labels (get nat_eq floats.now)) trees.now) ns.items) }
{
    let mut numbers = Vec::new(alloc);
    for tree in trees {
        numbers.push(add_tree(alloc, frames, floats, graph, tree)?)?;
    }
    Ok(numbers)
}

/// Appends the number of the proof of a step, where it has one.
fn put_placed(numbers: &mut Vec<u32>, proofs: &[Option<u32>], place: u32) -> Result<(), Memory>
    ensures { OnOk result (numbers.new.items ≡ numbers.old.items ++ option_to_list (item_at proofs.now place)) }
{
    match proofs.get(place as usize) {
        Some(Some(number)) => numbers.push(*number)?,
        Some(None) | None => {}
    }
    Ok(())
}

/// The numbers of the proofs of these steps.
fn placed(alloc: Global, proofs: &[Option<u32>], places: &[u32]) -> Result<Vec<u32>, Memory>
    ensures { IfOk result (λ ns. ns.items ≡ filter_map (item_at proofs.now) places.now) }
{
    let mut numbers = Vec::new(alloc);
    for place in places {
        put_placed(&mut numbers, proofs, *place)?;
    }
    Ok(numbers)
}

/// Appends the item of a list with this number, where it has one.
fn put_item(numbers: &mut Vec<u32>, items: &[u32], at: usize) -> Result<(), Memory>
    ensures { OnOk result (numbers.new.items ≡ numbers.old.items ++ option_to_list (slice_get items.now at)) }
{
    if let Some(number) = items.get(at) {
        numbers.push(*number)?;
    }
    Ok(())
}

/// The items of the `$f` and those of the `$e` of a frame, in the order of its hypotheses.
fn woven(
    alloc: Global,
    hyps: &[Hyp],
    floating: &[u32],
    essential: &[u32],
) -> Result<Vec<u32>, Memory>
    ensures { IfOk result (λ ns. ns.items ≡ weave hyps.now floating.now essential.now) }
{
    let mut numbers = Vec::new(alloc);
    let mut floating_at = 0usize;
    let mut essential_at = 0usize;
    for hyp in hyps {
        if hyp.floating {
            put_item(&mut numbers, floating, floating_at)?;
            floating_at += 1;
        } else {
            put_item(&mut numbers, essential, essential_at)?;
            essential_at += 1;
        }
    }
    Ok(numbers)
}

/// The frame of a label.
fn frame_of(frames: &Frames, label: Label) -> Option<&Frame>
    ensures { option_copied result ≡ frame_at frames.now label }
{
    match frames.frames().get(label.0 as usize) {
        None => None,
        Some(frame) => frame.as_ref(),
    }
}

/// The numbers of the proofs below an assertion, for the hypotheses of its frame.
fn arguments(
    alloc: Global,
    frames: &Frames,
    label: Label,
    values: &[u32],
    places: &[u32],
) -> Result<Vec<u32>, Memory>
    ensures { IfOk result (λ ns. ns.items ≡ weave (hyps_of (frame_at frames.now label)) values.now places.now) }
{
    match frame_of(frames, label) {
        None => Ok(Vec::new(alloc)),
        Some(frame) => woven(alloc, frame.hyps.as_slice(), values, places),
    }
}

/// Adds the proof of a step that follows by an assertion.
fn add_reference(
    alloc: Global,
    frames: &Frames,
    floats: &HashMap<u32, Name>,
    graph: &mut GraphBuilder,
    proofs: &[Option<u32>],
    label: Label,
    values: &[Tree],
    places: &[u32],
) -> Result<u32, Memory>
    requires { AllByRecursion (IsInside graph.old) proofs.now }
    ensures { IfOk result (Adds graph.old graph.new (reference_proof frames.now (get nat_eq floats.now) (table_proofs graph.old proofs.now) label values.now places.now)) }
{
    let values = add_trees(alloc, frames, floats, graph, values)?;
    let places = placed(alloc, proofs, places)?;
    let below = arguments(alloc, frames, label, &values, &places)?;
    add_label(frames, graph, label, below)
}

/// Adds the proof of a step, where the earlier ones have these; none where it is not used.
fn add_step(
    alloc: Global,
    frames: &Frames,
    floats: &HashMap<u32, Name>,
    graph: &mut GraphBuilder,
    proofs: &[Option<u32>],
    step: &ProofStep,
) -> Result<Option<u32>, Memory>
    requires { AllByRecursion (IsInside graph.old) proofs.now }
    ensures { IfOk result (AddsStep graph.old graph.new (given_proof frames.now (get nat_eq floats.now) (table_proofs graph.old proofs.now) step.now)) }
{
    match step {
        ProofStep::Unused => Ok(None),
        ProofStep::Hyp(name) => Ok(Some(graph.add(name.as_slice(), Vec::new(alloc))?)),
        ProofStep::Ref(label, values, places) => Ok(Some(add_reference(
            alloc,
            frames,
            floats,
            graph,
            proofs,
            *label,
            values.as_slice(),
            places.as_slice(),
        )?)),
    }
}

/// Adds the proofs of steps, in order. Those that are not used have none.
fn add_steps(
    alloc: Global,
    frames: &Frames,
    floats: &HashMap<u32, Name>,
    graph: &mut GraphBuilder,
    steps: &[ProofStep],
) -> Result<Vec<Option<u32>>, Memory>
    requires { graph.old ≡ [] }
    ensures { IfOk result (λ ns. IsTable graph.new (given_proofs frames.now (get nat_eq floats.now) steps.now) ns.items) }
{
    let mut proofs = Vec::new(alloc);
    for step in steps {
        let proof = add_step(alloc, frames, floats, graph, &proofs, step)?;
        proofs.push(proof)?;
    }
    Ok(proofs)
}

/// The proof of a step of these, as a graph. The root is the number of the step, which is there and is used. The hypotheses
/// are the active ones of the theorem: their `$f` give the labels of variables.
///
/// `Memory`: there is no room for it, or it has 2^32 - 1 nodes or more, which no worksheet within the limits leads to.
pub fn build(
    alloc: Global,
    db: &Database,
    hyps: &[Hyp],
    steps: &[ProofStep],
    root: u32,
) -> Result<ProofGraph, Memory>
    requires { used_at steps.now root ≡ true }
    ensures { IfOk result (Proves db.now hyps.now steps.now root) }
{
    has_database_facts();
    let floats = float_labels(alloc, hyps)?;
    build_with(alloc, db.frames(), &floats, steps, root)
}

fn build_with(
    alloc: Global,
    frames: &Frames,
    floats: &HashMap<u32, Name>,
    steps: &[ProofStep],
    root: u32,
) -> Result<ProofGraph, Memory>
    requires { used_at steps.now root ≡ true }
    ensures { IfOk result (λ nodes. Some (root_proof nodes) ≡ item_at (given_proofs frames.now (get nat_eq floats.now) steps.now) root) }
{
    let mut graph = GraphBuilder::new(alloc);
    match root_number(alloc, frames, floats, &mut graph, steps, root) {
        Ok(number) => graph.finish(number),
        Err(_) => Err(Memory),
    }
}

/// Adds the proofs of steps, and gives the number of the root's.
fn root_number(
    alloc: Global,
    frames: &Frames,
    floats: &HashMap<u32, Name>,
    graph: &mut GraphBuilder,
    steps: &[ProofStep],
    root: u32,
) -> Result<u32, Memory>
    requires empty { graph.old ≡ [] }
    requires used { used_at steps.now root ≡ true }
    ensures { IfOk result (IsProofAt graph.new (item_at (given_proofs frames.now (get nat_eq floats.now) steps.now) root)) }
{
    let proofs = add_steps(alloc, frames, floats, graph, steps)?;
    match proofs[root as usize] {
        Some(number) => Ok(number),
        None => unreachable!(),
    }
}
