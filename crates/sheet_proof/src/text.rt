ghost use Rattle.std.specs.Prelude.{◌≡◌, ◌<◌, ◌≤◌, ◌^◌, ◌++◌, ℕ, List as ListOf, length, IfOk, IfErr, OnOk};
ghost use Rattle.mm_base.specs.declared.kinds.Kinds.{Kinds};
ghost use Rattle.mm_base.specs.Limits.{most_proof_labels};
ghost use Rattle.mm_database.specs.Opened.{IsOpened};
ghost use Rattle.proof_model.specs.Codes.{code_of_proof};
ghost use Rattle.proof_model.specs.ProofCode as coded;
ghost use Rattle.proof_model.specs.Proofs.{postorder};
ghost use Rattle.proof_tree.specs.Graphs.{root_proof};
ghost use Rattle.sheet_text.specs.Layout as laid;
ghost use Rattle.written_model.specs.declared.options.ProofStyle.TheVariants as style_of;
ghost use Rattle.written_model.specs.WrittenSteps.{steps_in};
ghost use Rattle.written_model.specs.Written.{proof_text};
ghost use Rattle.written_steps.specs.Drafts.{AreSound, book, items_in};
ghost use Rattle.sheet_proof.specs.Provable.{HasFewLabels, IsProvable, IsToldOf};
ghost use Rattle.sheet_proof.specs.Texts.{IsGraphOf, IsToldAs, IsToldIn, behind, text_in};

use crate::steps::proof_steps;
use compressed_proof::encode;
use mm_base::{Bytes, List, Memory, Name};
use mm_database::Database;
use proof_model::{Code, Theorem};
use proof_tree::{NormalFault, ProofGraph, build, code, normal};
use std::alloc::Global;
use written_model::ProofStyle;
use written_steps::DraftItem;

/// Why a proof is not written.
#[derive(Clone, Copy, Debug, PartialEq, Eq)]
pub enum ProofFault {
    /// A normal proof has so many labels, over 2^20.
    TooLong(u64),
    /// Memory ran out.
    Memory,
}

/// Puts labels behind a text, each behind a space.
fn put_labels(text: &mut Vec<u8>, labels: &[Name]) -> Result<(), Memory>
    ensures { OnOk result (text.new.items ≡ text.old.items ++ behind labels.now) }
{
    for label in labels {
        text.push(b' ')?;
        text.extend_from_slice(label.as_slice())?;
    }
    Ok(())
}

/// Labels parted by one space.
fn spaced(alloc: Global, labels: &[Name]) -> Result<Bytes, Memory>
    ensures { IfOk result (λ text. text ≡ laid.spaced labels.now) }
{
    let Some((first, more)) = labels.split_first() else {
        return Ok(List::from_vec(Vec::new(alloc)));
    };
    let mut text = Vec::from_slice(alloc, first.as_slice())?;
    put_labels(&mut text, more)?;
    Ok(List::from_vec(text))
}

fn normal_text(alloc: Global, graph: &ProofGraph) -> Result<Bytes, ProofFault>
    ensures text { IfOk result (λ text. text ≡ laid.spaced (postorder (root_proof graph.now))) }
    ensures few { IfOk result (λ text. length (postorder (root_proof graph.now)) ≤ most_proof_labels) }
    ensures told { IfErr result (IsToldAs (root_proof graph.now)) }
{
    match normal(alloc, graph) {
        Err(NormalFault::TooLong(count)) => Err(ProofFault::TooLong(count)),
        Err(NormalFault::Memory) => Err(ProofFault::Memory),
        Ok(labels) => match spaced(alloc, labels.as_slice()) {
            Ok(text) => Ok(text),
            Err(_) => Err(ProofFault::Memory),
        },
    }
}

/// The text of a code for so many mandatory hypotheses.
fn code_text(alloc: Global, code: &Code, mandatory: usize) -> Result<Bytes, Memory>
    ensures { IfOk result (λ text. text ≡ coded.spelled mandatory code.now) }
{
    if code.labels.as_slice().len() > u32::MAX as usize {
        return Err(Memory);
    }
    match u32::try_from(mandatory) {
        Ok(mandatory) => encode(alloc, code, mandatory),
        Err(_) => Err(Memory),
    }
}

fn compressed_text(alloc: Global, graph: &ProofGraph, mandatory: &[Name]) -> Result<Bytes, Memory>
    ensures { IfOk result (λ text. text ≡ coded.spelled (length mandatory.now) (code_of_proof mandatory.now (root_proof graph.now))) }
{
    let code = code(alloc, graph, mandatory)?;
    code_text(alloc, &code, mandatory.len())
}

fn styled_text(
    alloc: Global,
    style: ProofStyle,
    graph: &ProofGraph,
    mandatory: &[Name],
) -> Result<Bytes, ProofFault>
    ensures text { IfOk result (λ text. text ≡ text_in style mandatory.now (root_proof graph.now)) }
    ensures few { IfOk result (λ text. style ≡ style_of.Normal → length (postorder (root_proof graph.now)) ≤ most_proof_labels) }
    ensures told { IfErr result (IsToldIn style (root_proof graph.now)) }
{
    match style {
        ProofStyle::Normal => normal_text(alloc, graph),
        ProofStyle::Compressed => match compressed_text(alloc, graph, mandatory) {
            Ok(text) => Ok(text),
            Err(_) => Err(ProofFault::Memory),
        },
    }
}

/// The proof of the last step as a graph.
fn graph_of(
    alloc: Global,
    db: &Database,
    theorem: &Theorem,
    items: List<DraftItem>,
) -> Result<ProofGraph, Memory>
    requires sound { AreSound db.now items }
    requires provable { IsProvable db.now (steps_in (items_in db.now items)) }
    ensures { IfOk result (IsGraphOf db.now theorem.now (steps_in (items_in db.now items))) }
{
    let steps = proof_steps(alloc, db, items)?;
    let Ok(count) = u32::try_from(steps.len()) else {
        return Err(Memory);
    };
    build(
        alloc,
        db,
        theorem.hyps.as_slice(),
        steps.as_slice(),
        count - 1,
    )
}

/// The text of the proof of `qed`, the last step of a finished worksheet with this theorem, between `$=` and `$.`. It takes
/// time and memory in proportion to the steps, the trees of their values and the text.
///
/// # Errors
/// `TooLong` with the labels of a normal proof, where they are more than 2^20; it is known before they are listed. `Memory`
/// where memory runs out, or where there are 2^32 - 1 steps, labels or nodes of the proof, or more, which no worksheet within
/// the limits leads to.
pub fn written_proof(
    alloc: Global,
    db: &Database,
    style: ProofStyle,
    theorem: &Theorem,
    items: List<DraftItem>,
) -> Result<Bytes, ProofFault>
    requires sound { AreSound db.now items }
    requires provable { IsProvable db.now (steps_in (items_in db.now items)) }
    ensures text { IfOk result (λ proof. (kinds : Kinds) (text : ListOf ℕ) → IsOpened kinds text db.now
        → proof ≡ proof_text (book kinds text db.now) style theorem.now (steps_in (items_in db.now items))) }
    ensures few { IfOk result (λ proof. HasFewLabels db.now style theorem.now (steps_in (items_in db.now items))) }
    ensures told { IfErr result (IsToldOf db.now style theorem.now (steps_in (items_in db.now items))) }
{
    match graph_of(alloc, db, theorem, items) {
        Ok(graph) => styled_text(alloc, style, &graph, theorem.mandatory.as_slice()),
        Err(_) => Err(ProofFault::Memory),
    }
}
