//! What is said of the proof of a theorem.

ghost use Rattle.std.specs.Prelude.{◌≡◌, ◌≢◌, ℕ, List, Option, None, Some, IfOk, IfNone, IfSome, OnOk};
ghost use Rattle.compressed_proof.specs.Decoded.{IsFault as IsCodeFault};
ghost use Rattle.mm_frames.specs.Contents.{contents_of};
ghost use Rattle.mm_model.specs.Statements.{statements, database_fault};
ghost use Rattle.mm_model.specs.Names.{Name};
ghost use Rattle.proof_model.specs.Machine.{MachineFault};
ghost use Rattle.proof_model.specs.ProofCode.{code_fault};
ghost use Rattle.stack_verify.specs.Faults.{IsFault as IsProofFault};
ghost use Rattle.fault_lines.specs.FaultLines.{code_faults, proof_faults};
ghost use Rattle.fault_lines.specs.NamedFaults.{told, IsNamed};
ghost use Rattle.call_answers.specs.Verified.{verdict_of, refused, accepted, no_theorem, theorem_named, IsVerdict};
ghost use Rattle.mmp_run.specs.Theorems.{IsTheorem};
ghost use Rattle.mmp_run.specs.Verdicts.{told_refusal, told_verdict, IsNamedRefusal, IsNamedVerdict, IsProvedBy};
ghost use Rattle.mmp_run.specs.Verify.{IsVerified, ending_of};

use crate::endings::{make_line, refuse};
use call_answers::Ending;
use compressed_proof::CodeFault;
use fault_lines::{NamedFault, code_line, proof_line};
use mm_base::{Label, List, Memory, Status};
use mm_frames::Frames;
use proof_model::Code;
use stack_verify::{ProofFault, proof_code, theorem_of, verify};
use std::alloc::Global;
use theorem_laws::proofs_stand;

/// Why a proof is not accepted.
#[derive(Clone, Copy)]
pub enum Refusal {
    NoTheorem,
    BadCode(NamedFault),
    BadProof(NamedFault),
}

/// The label of a theorem, and the code of its proof.
#[derive(Drop)]
pub struct Proof {
    pub label: Label,
    pub code: Code,
}

/// What is said of the proof of a theorem.
#[derive(Drop)]
pub enum Verdict {
    Refused(Refusal),
    Accepted(Proof),
}

// A fault of a proof's code, unless memory ran out.
fn told_code(fault: &CodeFault) -> Result<NamedFault, Memory>
    ensures fault { IfOk result (λ f. (text : List ℕ) (mandatory : List Name) → IsCodeFault text mandatory fault.now → code_fault text mandatory ≡ Some (told f)) }
    ensures told { OnOk result (fault.now ≢ CodeFault.Memory) }
    ensures named { IfOk result (IsNamed code_faults) }
{
    let (code, name, place) = match fault {
        CodeFault::BadLetter(index) => (1, "BadLetter", *index),
        CodeFault::NumberTooLarge(index, _) => (2, "NumberTooLarge", *index),
        CodeFault::MarkAtStart(index) => (3, "MarkAtStart", *index),
        CodeFault::MarkTwice(index) => (4, "MarkTwice", *index),
        CodeFault::UnendedNumber(index) => (5, "UnendedNumber", *index),
        CodeFault::NoBracket(index) => (6, "NoBracket", *index),
        CodeFault::MandatoryListed(index, _) => (7, "MandatoryListed", *index),
        CodeFault::LabelTwice(index, _) => (8, "LabelTwice", *index),
        CodeFault::Memory => return Err(Memory),
    };
    Ok(NamedFault { code, name, place })
}

// A fault of a proof on the stack machine, unless memory ran out.
fn told_proof(fault: &ProofFault) -> Result<NamedFault, Memory>
    ensures fault { IfOk result (λ f. (first : Option (ℕ × MachineFault)) → IsProofFault fault.now first → verdict_of first ≡ refused (told f)) }
    ensures named { IfOk result (IsNamed proof_faults) }
{
    let (code, name, place) = match fault {
        ProofFault::Underflow(step) => (1, "Underflow", *step),
        ProofFault::TypeDiffers(step) => (2, "TypeDiffers", *step),
        ProofFault::HypDiffers(step, _, _) => (3, "HypDiffers", *step),
        ProofFault::Shared(step, _, _, _) => (4, "Shared", *step),
        ProofFault::NotDistinct(step, _, _) => (5, "NotDistinct", *step),
        ProofFault::NotEarlier(step) => (6, "NotEarlier", *step),
        ProofFault::LeftOver(step, _) => (7, "LeftOver", *step),
        ProofFault::ResultDiffers(step) => (8, "ResultDiffers", *step),
        ProofFault::Unknown(step) => (9, "Unknown", *step),
        ProofFault::Memory => return Err(Memory),
    };
    Ok(NamedFault { code, name, place })
}

// The label of a theorem, which is a `$p`, by its name.
fn find_theorem(frames: &Frames, name: &[u8]) -> Option<Label>
    ensures none { IfNone result ((text : List ℕ) → frames.now ≡ contents_of text → theorem_named (statements text) name.now ≡ None) }
    ensures some { IfSome result (λ l. (text : List ℕ) → frames.now ≡ contents_of text → IsTheorem (statements text) name.now l) }
{
    let Some(label) = frames.label(name) else {
        return None;
    };
    match frames.frame(label) {
        None => None,
        Some(frame) => { if frame.is_axiom { None } else { Some(label) } }
    }
}

/// What is said of the proof of a theorem of a database without a fault.
pub fn judge(alloc: Global, text: &[u8], frames: &Frames, name: &[u8]) -> Result<Verdict, Memory>
    requires contents { frames.now ≡ contents_of text.now }
    requires no_fault { database_fault text.now ≡ None }
    ensures verdict { IfOk result (λ v. IsVerdict text.now name.now (told_verdict v)) }
    ensures named { IfOk result IsNamedVerdict }
    ensures proof { IfOk result (IsProvedBy text.now name.now) }
{
    let Some(label) = find_theorem(frames, name) else {
        return Ok(Verdict::Refused(Refusal::NoTheorem));
    };
    proofs_stand();
    let theorem = theorem_of(alloc, frames, label)?;
    let code = match proof_code(alloc, text, frames, label) {
        Ok(code) => code,
        Err(fault) => {
            let fault = told_code(&fault)?;
            return Ok(Verdict::Refused(Refusal::BadCode(fault)));
        }
    };
    match verify(alloc, frames, &theorem, &code) {
        Ok(()) => Ok(Verdict::Accepted(Proof { label, code })),
        Err(fault) => {
            let fault = told_proof(&fault)?;
            Ok(Verdict::Refused(Refusal::BadProof(fault)))
        }
    }
}

// The ending that says that a proof is accepted.
fn accept(alloc: Global, name: &str) -> Result<Ending, Memory>
    ensures { IfOk result (λ end. end ≡ ending_of name.now accepted) }
{
    let Ok(text) = format!(in alloc; "{name} accepted") else {
        return Err(Memory);
    };
    Ok(Ending {
        out: make_line(alloc, text.as_str())?,
        log: List::from_vec(Vec::new(alloc)),
        status: Status::Finished,
    })
}

// The ending that says that there is no such theorem.
fn refuse_name(alloc: Global, name: &str) -> Result<Ending, Memory>
    ensures { IfOk result (λ end. end ≡ ending_of name.now no_theorem) }
{
    let Ok(text) = format!(in alloc; "no theorem {name}") else {
        return Err(Memory);
    };
    refuse(alloc, Status::Proof, text.as_str())
}

/// The ending that tells why a proof is not accepted.
pub fn end_refusal(alloc: Global, name: &str, refusal: Refusal) -> Result<Ending, Memory>
    requires { IsNamedRefusal refusal }
    ensures { IfOk result (λ end. end ≡ ending_of name.now (told_refusal refusal)) }
{
    match refusal {
        Refusal::NoTheorem => refuse_name(alloc, name),
        Refusal::BadCode(fault) => {
            let line = code_line(alloc, fault)?;
            refuse(alloc, Status::Proof, line.as_str())
        }
        Refusal::BadProof(fault) => {
            let line = proof_line(alloc, fault)?;
            refuse(alloc, Status::Proof, line.as_str())
        }
    }
}

// The ending for a verdict.
fn end_verdict(alloc: Global, name: &str, verdict: Verdict) -> Result<Ending, Memory>
    requires { IsNamedVerdict verdict }
    ensures { IfOk result (λ end. end ≡ ending_of name.now (told_verdict verdict)) }
{
    match verdict {
        Verdict::Refused(refusal) => end_refusal(alloc, name, refusal),
        Verdict::Accepted(_) => accept(alloc, name),
    }
}

/// Checks the proof of a theorem of a database without a fault.
pub fn end_theorem(
    alloc: Global,
    text: &[u8],
    frames: &Frames,
    name: &str,
) -> Result<Ending, Memory>
    requires contents { frames.now ≡ contents_of text.now }
    requires no_fault { database_fault text.now ≡ None }
    ensures { IfOk result (IsVerified name.now text.now) }
{
    let verdict = judge(alloc, text, frames, name.as_bytes())?;
    end_verdict(alloc, name, verdict)
}
