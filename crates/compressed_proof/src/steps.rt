//! Reading the letters: the steps that they spell.

ghost use Rattle.std.specs.Prelude.{◌≡◌, ℕ, suc, ◌+◌, ◌-◌, ◌^◌, ◌<◌, ◌≤◌, List, ◌∷◌, ◌++◌, length, IfOk, IfErr, OnOk, Ok, MatchResult, IsTrue};
ghost use Rattle.proof_model.specs.ProofCode.{SpellsSteps, AreInRange, letter_fault, is_last, is_leading};
ghost use Rattle.compressed_proof.specs.Reading.{value_of, with_digit, with_last, what_of, pending, with_front, read_letters, FailsWith};
ghost use Rattle.compressed_proof.specs.Parts.{IsLetterFault};

use crate::fault::CodeFault;
use proof_model::{Step, What};
use std::alloc::{AllocError, Global};

/// What stands just before a letter: nothing, digits of a number, a step that may be marked, or a mark.
#[derive(Clone, Copy, PartialEq, Eq, Debug)]
pub(crate) enum Prior {
    Start,
    Digits(u64),
    Step(What),
    Mark,
}

fn value_of(prior: Prior) -> u64
    ensures { result ≡ value_of prior }
{
    match prior {
        Prior::Digits(value) => value,
        _ => 0,
    }
}

fn with_digit(prior: Prior, letter: u8) -> u64
    requires { IsTrue (is_leading letter) }
    ensures { result ≡ with_digit prior letter }
{
    value_of(prior)
        .saturating_mul(5)
        .saturating_add(u64::from(letter - 84))
}

fn with_last(prior: Prior, letter: u8) -> u64
    requires { IsTrue (is_last letter) }
    ensures { result ≡ with_last prior letter }
{
    value_of(prior)
        .saturating_mul(20)
        .saturating_add(u64::from(letter - 64))
}

/// What a number names: a mandatory hypothesis, else a label, else a marked step.
fn what_of(mandatory: u32, labels: u32, number: u64) -> What
    requires positive { 0 < number }
    requires in_range { number ≤ mandatory + labels + 2 ^ 32 }
    ensures { result ≡ what_of mandatory labels number }
{
    let (m, n) = (u64::from(mandatory), u64::from(labels));
    if number < m + 1 {
        What::Hyp((number - 1) as u32)
    } else if number < m + n + 1 {
        What::Listed((number - m - 1) as u32)
    } else {
        What::Again((number - m - n - 1) as u32)
    }
}

fn push_pending(steps: &mut Vec<Step>, prior: Prior) -> Result<(), AllocError>
    ensures { OnOk result (steps.new.items ≡ steps.old.items ++ pending prior) }
{
    if let Prior::Step(what) = prior {
        steps.push(Step {
            what,
            marked: false,
        })?;
    }
    Ok(())
}

/// What stands before a letter.
#[derive(Clone, Copy)]
struct Before {
    /// What stands just before it.
    prior: Prior,
    /// The number of marks.
    marks: u32,
}

/// Reads one letter: what stands before the next one.
#[tactic(auto, using(crate::proofs::Fronts::fronts))]
fn read_letter(
    steps: &mut Vec<Step>,
    mandatory: u32,
    labels: u32,
    before: Before,
    i: u32,
    letter: u8,
) -> Result<Before, CodeFault>
    requires { before.marks + 1 < 2 ^ 32 }
    ensures goes_on { IfOk result (λ next. (rest : List ℕ) →
        with_front steps.new.items (read_letters mandatory labels next.marks next.prior (suc i) rest)
        ≡ with_front steps.old.items (read_letters mandatory labels before.marks before.prior i (letter ∷ rest))) }
    ensures marks { IfOk result (λ next. next.marks ≤ before.marks + 1) }
    ensures fails { IfErr result (λ e. (rest : List ℕ) → FailsWith e (read_letters mandatory labels before.marks before.prior i (letter ∷ rest))) }
{
    let Before { prior, marks } = before;
    match letter {
        b'U'..=b'Y' => {
            push_pending(steps, prior)?;
            let prior = Prior::Digits(with_digit(prior, letter));
            Ok(Before { prior, marks })
        }
        b'A'..=b'T' => {
            let number = with_last(prior, letter);
            if number > u64::from(mandatory) + u64::from(labels) + u64::from(marks) {
                return Err(CodeFault::NumberTooLarge(i, number));
            }
            push_pending(steps, prior)?;
            let prior = Prior::Step(what_of(mandatory, labels, number));
            Ok(Before { prior, marks })
        }
        b'?' => {
            if let Prior::Digits(_) = prior {
                return Err(CodeFault::UnendedNumber(i));
            }
            push_pending(steps, prior)?;
            let prior = Prior::Step(What::Unknown);
            Ok(Before { prior, marks })
        }
        b'Z' => match prior {
            Prior::Start => Err(CodeFault::MarkAtStart(i)),
            Prior::Digits(_) => Err(CodeFault::UnendedNumber(i)),
            Prior::Mark => Err(CodeFault::MarkTwice(i)),
            Prior::Step(what) => {
                steps.push(Step { what, marked: true })?;
                Ok(Before {
                    prior: Prior::Mark,
                    marks: marks + 1,
                })
            }
        },
        _ => Err(CodeFault::BadLetter(i)),
    }
}

/// Reads letter by letter.
#[tactic(auto, using(crate::proofs::Fronts::fronts))]
fn read_letters(
    alloc: Global,
    letters: &[u8],
    mandatory: u32,
    labels: u32,
) -> Result<Vec<Step>, CodeFault>
    requires { length letters.now < 2 ^ 32 - 1 }
    ensures { MatchResult result (λ ss. read_letters mandatory labels 0 Prior.Start 0 letters.now ≡ Ok ss.items)
        (λ e. FailsWith e (read_letters mandatory labels 0 Prior.Start 0 letters.now)) }
{
    let mut steps = Vec::new(alloc);
    let mut before = Before {
        prior: Prior::Start,
        marks: 0,
    };
    for (i, letter) in letters.iter().enumerate() {
        before = read_letter(&mut steps, mandatory, labels, before, i as u32, *letter)?;
    }
    if let Prior::Digits(_) = before.prior {
        return Err(CodeFault::UnendedNumber(letters.len() as u32));
    }
    push_pending(&mut steps, before.prior)?;
    Ok(steps)
}

/// The steps that the letters spell, for so many mandatory hypotheses and labels, or the first fault.
pub(crate) fn read_steps(
    alloc: Global,
    letters: &[u8],
    mandatory: u32,
    labels: u32,
) -> Result<Vec<Step>, CodeFault>
    requires { length letters.now < 2 ^ 32 - 1 }
    ensures sound { OnOk result (letter_fault (mandatory + labels) letters.now ≡ None) }
    ensures spelled { IfOk result (λ steps. SpellsSteps mandatory labels letters.now steps.items) }
    ensures in_range { IfOk result (λ steps. AreInRange mandatory labels 0 steps.items) }
    ensures first_fault { IfErr result (λ e. IsLetterFault (mandatory + labels) letters.now e) }
{
    // Handed on by a `match`, which the checker follows.
    match read_letters(alloc, letters, mandatory, labels) {
        Ok(steps) => Ok(steps),
        Err(fault) => Err(fault),
    }
}
