//! The compressed code of a graph's proof.

ghost use Rattle.std.specs.Prelude.{◌≡◌, ◌<◌, ◌++◌, ◌∷◌, ℕ, List, [], length, map, position, replicate, false, None, is_some, IfOk, OnOk};
ghost use Rattle.std.specs.List.{AllByRecursion, list_any};
ghost use Rattle.std.specs.Str.{bytes_eq};
ghost use Rattle.mm_model.specs.Frames.{without_repeats};
ghost use Rattle.mm_model.specs.Names.{contains};
ghost use Rattle.proof_model.specs.Codes.{code_of_proof, listed_labels};
ghost use Rattle.proof_tree.specs.Graphs.{IsGraph, root_proof};
ghost use Rattle.proof_tree.specs.Coding as spec;
ghost use Rattle.proof_tree.specs.Coding.{ArePlaces, Begins, Ends, Marks, label_of, place_in, put_other, what_by};
ghost use Rattle.proof_tree.specs.Given.{item_at};
ghost use Rattle.proof_tree.specs.Walks.{AreUses, IsOrder};

use crate::graph::{ProofGraph, ProofNode};
use crate::order::{Part, first_uses, push_parts, uses};
use mm_base::{List, Memory, Name};
use names::Names;
use proof_model::{Code, Step, What};
use std::alloc::Global;

/// Names with the numbers of the places where they first stand in a list.
#[derive(Drop)]
pub(crate) struct Places {
    names: Names,
    places: Vec<u32>,
}

impl Places {
    /// The place of a name; none where it is not in the list.
    fn place(&self, name: &[u8]) -> Option<u32>
        ensures { result ≡ place_in self.now.names self.now.places.items name.now }
    {
        match self.names.number(name) {
            None => None,
            Some(number) => self.places.get(number as usize).copied(),
        }
    }

    /// Puts in the name of the list's next place.
    fn put(&mut self, name: &[u8], place: u32) -> Result<(), Memory>
        ensures { OnOk result ((list : List (List ℕ)) → ArePlaces list self.old.names self.old.places.items → place ≡ length list → ArePlaces (list ++ name.now ∷ []) self.new.names self.new.places.items) }
    {
        if self.names.contains(name) {
            return Ok(());
        }
        add_name(&mut self.names, name)?;
        self.places.push(place)?;
        Ok(())
    }
}

/// Puts in a name that is not there.
fn add_name(names: &mut Names, name: &[u8]) -> Result<(), Memory>
    requires { list_any (bytes_eq name.now) names.old ≡ false }
    ensures { OnOk result (names.new ≡ names.old ++ name.now ∷ []) }
{
    if names.count() >= u32::MAX {
        return Err(Memory);
    }
    names.add(name)?;
    Ok(())
}

fn places_of(alloc: Global, list: &[Name]) -> Result<Places, Memory>
    ensures { IfOk result (λ p. ArePlaces list.now p.names p.places.items) }
{
    let mut places = Places {
        names: Names::new(alloc),
        places: Vec::new(alloc),
    };
    for (place, name) in list.iter().enumerate() {
        if place > u32::MAX as usize {
            return Err(Memory);
        }
        places.put(name.as_slice(), place as u32)?;
    }
    Ok(places)
}

/// Puts in a label that is neither mandatory nor there.
fn put_label(labels: &mut Names, mandatory: &Places, label: &[u8]) -> Result<(), Memory>
    ensures { OnOk result (labels.new ≡ put_other (is_some (place_in mandatory.now.names mandatory.now.places.items label.now)) labels.old label.now) }
{
    if mandatory.place(label).is_some() {
        return Ok(());
    }
    if labels.contains(label) {
        return Ok(());
    }
    add_name(labels, label)
}

/// The labels of these nodes that are not mandatory, each where it first stands.
fn other_labels(
    alloc: Global,
    nodes: &[ProofNode],
    order: &[u32],
    mandatory: &Places,
) -> Result<Names, Memory>
    requires { AllByRecursion (λ k. k < length nodes.now) order.now }
    ensures { IfOk result (λ labels. (list : List (List ℕ)) → ArePlaces list mandatory.now.names mandatory.now.places.items → labels ≡ without_repeats list (map (label_of nodes.now) order.now)) }
{
    let mut labels = Names::new(alloc);
    for number in order {
        let label = nodes[*number as usize].label.as_slice();
        put_label(&mut labels, mandatory, label)?;
    }
    Ok(labels)
}

/// What a label is in the code.
fn what(mandatory: &Places, labels: &Names, label: &[u8]) -> What
    ensures { result ≡ what_by (place_in mandatory.now.names mandatory.now.places.items label.now) (position (bytes_eq label.now) labels.now) }
{
    match mandatory.place(label) {
        Some(place) => What::Hyp(place),
        None => What::Listed(labels.number(label).unwrap_or(0)),
    }
}

/// The steps so far.
#[derive(Drop)]
pub(crate) struct Coder {
    steps: Vec<Step>,
    // by node the number of its mark
    marks: Vec<Option<u32>>,
    count: u32,
}

impl Coder {
    fn new(alloc: Global, nodes: usize) -> Result<Coder, Memory>
        ensures { IfOk result (λ c. (c.steps.items ≡ []) × (c.marks.items ≡ replicate nodes None) × (c.count ≡ 0)) }
    {
        let marks = vec![in alloc; None; nodes]?;
        Ok(Coder {
            steps: Vec::new(alloc),
            marks,
            count: 0,
        })
    }

    /// Gives a node the next mark, where it has none.
    fn mark(&mut self, number: u32) -> Result<(), Memory>
        requires { number < length self.old.marks.items }
        ensures { OnOk result (Marks number self.old self.new) }
    {
        if self.count == u32::MAX {
            return Err(Memory);
        }
        if self.marks[number as usize].is_none() {
            self.marks[number as usize] = Some(self.count);
        }
        self.count += 1;
        Ok(())
    }

    /// Puts in the step of a node's label, with its mark.
    fn put(&mut self, number: u32, what: What, marked: bool) -> Result<(), Memory>
        requires { number < length self.old.marks.items }
        ensures { OnOk result (Ends number what marked self.old self.new) }
    {
        self.steps.push(Step { what, marked })?;
        if marked {
            return self.mark(number);
        }
        Ok(())
    }
}

/// Whether a node takes hypotheses and two places or more name it.
fn is_shared(nodes: &[ProofNode], uses: &[u32], number: u32) -> bool
    requires { number < length nodes.now }
    ensures { result ≡ spec.is_shared nodes.now uses.now number }
{
    if nodes[number as usize].below.as_slice().is_empty() {
        return false;
    }
    uses.get(number as usize).copied().unwrap_or(0) >= 2
}

/// Puts in the step of a node's label.
fn end(
    coder: &mut Coder,
    nodes: &[ProofNode],
    uses: &[u32],
    mandatory: &Places,
    labels: &Names,
    number: u32,
) -> Result<(), Memory>
    requires node { number < length nodes.now }
    requires marks { number < length coder.old.marks.items }
    ensures { let label = label_of nodes.now number in
        let what = what_by (place_in mandatory.now.names mandatory.now.places.items label) (position (bytes_eq label) labels.now) in
        OnOk result (Ends number what (spec.is_shared nodes.now uses.now number) coder.old coder.new) }
{
    let marked = is_shared(nodes, uses, number);
    let label = nodes[number as usize].label.as_slice();
    coder.put(number, what(mandatory, labels, label), marked)
}

/// The mark of a node.
fn mark_of(marks: &[Option<u32>], number: u32) -> Option<u32>
    ensures { result ≡ item_at marks.now number }
{
    match marks.get(number as usize) {
        Some(mark) => *mark,
        None => None,
    }
}

/// Begins a node's proof: by its mark, or by its parts.
fn begin(
    coder: &mut Coder,
    pending: &mut Vec<Part>,
    nodes: &[ProofNode],
    number: u32,
) -> Result<(), Memory>
    requires { number < length nodes.now }
    ensures { OnOk result (Begins nodes.now number coder.old coder.new pending.old.items pending.new.items) }
{
    match mark_of(&coder.marks, number) {
        Some(mark) => {
            coder.steps.push(Step {
                what: What::Again(mark),
                marked: false,
            })?;
            Ok(())
        }
        None => push_parts(pending, number, nodes[number as usize].below.as_slice()),
    }
}

/// The steps of the last node's proof.
fn steps(
    alloc: Global,
    nodes: &[ProofNode],
    uses: &[u32],
    mandatory: &Places,
    labels: &Names,
) -> Result<List<Step>, Memory>
    requires { IsGraph nodes.now }
    ensures { IfOk result (λ steps. (list : List (List ℕ)) (order : List ℕ) → ArePlaces list mandatory.now.names mandatory.now.places.items → IsOrder nodes.now order → AreUses nodes.now order uses.now → labels.now ≡ listed_labels list (root_proof nodes.now)
        → steps ≡ (code_of_proof list (root_proof nodes.now)).steps) }
{
    let mut coder = Coder::new(alloc, nodes.len())?;
    let mut pending = Vec::new(alloc);
    pending.push(Part::Proof((nodes.len() - 1) as u32))?;
    while let Some(part) = pending.pop() {
        match part {
            Part::Proof(number) => begin(&mut coder, &mut pending, nodes, number)?,
            Part::Label(number) => end(&mut coder, nodes, uses, mandatory, labels, number)?,
        }
    }
    Ok(List::from_vec(coder.steps))
}

fn names_listed(alloc: Global, names: &Names) -> Result<List<Name>, Memory>
    ensures { IfOk result (λ list. list ≡ names.now) }
{
    let mut list = Vec::new(alloc);
    for number in 0..names.count() {
        list.push(List::copy_of(alloc, names.name(number))?)?;
    }
    Ok(List::from_vec(list))
}

/// The code of a graph's root for a theorem with these mandatory hypotheses, by their labels in order.
///
/// `Memory`: there is no room for it, or it has 2^32 - 1 labels or marked steps or more, which no worksheet within
/// the limits leads to.
pub fn code(alloc: Global, graph: &ProofGraph, mandatory: &[Name]) -> Result<Code, Memory>
    ensures { IfOk result (λ code. code ≡ code_of_proof mandatory.now (root_proof graph.now)) }
{
    let nodes = graph.nodes();
    let mandatory = places_of(alloc, mandatory)?;
    let order = first_uses(alloc, nodes)?;
    code_in_order(alloc, nodes, &mandatory, order.as_slice())
}

/// The code, where this is the order of the nodes in the root's proof.
fn code_in_order(
    alloc: Global,
    nodes: &[ProofNode],
    mandatory: &Places,
    order: &[u32],
) -> Result<Code, Memory>
    requires graph { IsGraph nodes.now }
    requires order { IsOrder nodes.now order.now }
    ensures { IfOk result (λ code. (list : List (List ℕ)) → ArePlaces list mandatory.now.names mandatory.now.places.items → code ≡ code_of_proof list (root_proof nodes.now)) }
{
    let uses = uses(alloc, nodes, order)?;
    let labels = other_labels(alloc, nodes, order, mandatory)?;
    let listed = names_listed(alloc, &labels)?;
    let steps = steps(alloc, nodes, &uses, mandatory, &labels)?;
    Ok(Code {
        labels: listed,
        steps,
    })
}
