//! Writing: numbers in letters, steps, and the whole text.

ghost use Rattle.std.specs.Prelude.{◌≡◌, ◌+◌, ◌<◌, ◌^◌, ◌++◌, ◌∷◌, length, flat_map, IfOk, OnOk};
ghost use Rattle.proof_model.specs.ProofCode.{digits, number_letters, step_letters, steps_letters, spelled};

use mm_base::{Bytes, List, Memory, Name};
use proof_model::{Code, Step, What};
use std::alloc::Global;

/// The leading digits of a number, each worth 1 to 5 in base 5.
fn push_digits(out: &mut Vec<u8>, value: u64) -> Result<(), Memory>
    ensures { OnOk result (out.new.items ≡ out.old.items ++ digits value value) }
{
    if value > 0 {
        push_digits(out, (value - 1) / 5)?;
        out.push(b'U' + ((value - 1) % 5) as u8)?;
    }
    Ok(())
}

fn push_number(out: &mut Vec<u8>, number: u64) -> Result<(), Memory>
    requires { 0 < number }
    ensures { OnOk result (out.new.items ≡ out.old.items ++ number_letters number) }
{
    push_digits(out, (number - 1) / 20)?;
    out.push(b'A' + ((number - 1) % 20) as u8)?;
    Ok(())
}

/// The one spelling of a number from 1: 1 to 20 are `A` to `T`, 21 is `UA`, 120 is `YT`, 121 is `UUA`.
pub fn letters(alloc: Global, n: u64) -> Result<Bytes, Memory>
    requires { 0 < n }
    ensures { IfOk result (λ text. text ≡ number_letters n) }
{
    let mut out = Vec::new(alloc);
    push_number(&mut out, n)?;
    Ok(List::from_vec(out))
}

/// The letters of a step.
fn push_step(out: &mut Vec<u8>, mandatory: u32, labels: u32, step: Step) -> Result<(), Memory>
    ensures { OnOk result (out.new.items ≡ out.old.items ++ step_letters mandatory labels step) }
{
    let (m, n) = (u64::from(mandatory), u64::from(labels));
    match step.what {
        What::Hyp(k) => push_number(out, u64::from(k) + 1)?,
        What::Listed(k) => push_number(out, m + u64::from(k) + 1)?,
        What::Again(k) => push_number(out, m + n + u64::from(k) + 1)?,
        What::Unknown => out.push(b'?')?,
    }
    if step.marked {
        out.push(b'Z')?;
    }
    Ok(())
}

/// The letters of the steps, in one run.
fn push_steps(out: &mut Vec<u8>, mandatory: u32, labels: u32, steps: &[Step]) -> Result<(), Memory>
    ensures { OnOk result (out.new.items ≡ out.old.items ++ steps_letters mandatory labels steps.now) }
{
    for step in steps {
        push_step(out, mandatory, labels, *step)?;
    }
    Ok(())
}

/// The labels, a space before each.
fn push_labels(out: &mut Vec<u8>, labels: &[Name]) -> Result<(), Memory>
    ensures { OnOk result (out.new.items ≡ out.old.items ++ flat_map (λ l. 32 ∷ l) labels.now) }
{
    for label in labels {
        out.push(b' ')?;
        out.extend_from_slice(label.as_slice())?;
    }
    Ok(())
}

/// The text of a code for so many mandatory hypotheses: `( labels ) LETTERS`, parted by single spaces. It is read back
/// as the code, by `decode_undoes_encode`, where each number is in range, no label stands twice or is a mandatory
/// hypothesis, and each label has bytes, none of white space, and is not `)`. It takes time in proportion to the text.
pub fn encode(alloc: Global, code: &Code, mandatory: u32) -> Result<Bytes, Memory>
    requires { length code.now.labels < 2 ^ 32 }
    ensures { IfOk result (λ text. text ≡ spelled mandatory code.now) }
{
    let labels = code.labels.as_slice();
    let steps = code.steps.as_slice();
    let mut out = Vec::new(alloc);
    out.push(b'(')?;
    push_labels(&mut out, labels)?;
    out.extend_from_slice(b" ) ")?;
    push_steps(&mut out, mandatory, labels.len() as u32, steps)?;
    Ok(List::from_vec(out))
}
