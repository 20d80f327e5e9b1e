//! Formulas and proofs that double with each step.

use crate::calls::{Ended, call_over, compare, refused};
use crate::given::PROP;
use crate::texts::{doubling_proof, doublings, line_of, with_pair, words};
use mm_base::{Memory, Status};
use std::alloc::Global;
use std::test::Fail;

const USUAL: &[&str] = &["unify", "P.mm", "r.mmp"];

const NORMAL: &[&str] = &["unify", "--proof=normal", "P.mm", "r.mmp"];

fn doubled(alloc: Global, count: u32) -> Result<Ended, Memory> {
    let database = with_pair(alloc, PROP)?;
    let text = doublings(alloc, count)?;
    call_over(alloc, USUAL, database.as_slice(), text.as_slice())
}

// Ten doublings have 4,094 tokens.
#[test]
fn ten_doublings(rt: HostRuntime) -> Result<(), Fail> {
    let ten = doubled(rt.alloc(), 10)?;
    assert!(rt; ten.status == Status::Unfinished);
    assert_eq!(rt; words(line_of(ten.out.bytes(), b"11:")), 4_095);
    Ok(())
}

const CUT_SHORT: &str = "sheet error 75 FormulaTooLong step 12 tokens 8190\n";

// One more and forty have a formula that is too long, and no later one is looked at.
#[test]
fn doublings_are_cut(rt: HostRuntime) -> Result<(), Fail> {
    for (count, name) in [(11, "eleven doublings"), (40, "forty doublings")] {
        let ended = doubled(rt.alloc(), count)?;
        compare(&rt, name, &ended, refused(Status::Sheet, CUT_SHORT));
    }
    Ok(())
}

fn doubled_proof(alloc: Global, rounds: u32, words: &[&str]) -> Result<Ended, Memory> {
    let text = doubling_proof(alloc, rounds)?;
    call_over(alloc, words, PROP.as_bytes(), text.as_slice())
}

// 532,455 labels between `$=` and `$.`.
#[test]
fn a_doubling_proof(rt: HostRuntime) -> Result<(), Fail> {
    let ended = doubled_proof(rt.alloc(), 13, NORMAL)?;
    assert!(rt; ended.status == Status::Finished);
    assert_eq!(rt; words(line_of(ended.out.bytes(), b"$=")), 532_457);
    Ok(())
}

const TOO_MANY: &str = "sheet error 79 ProofTooLong labels 1064935\n";

// One more round is too long for a normal proof.
#[test]
fn a_longer_proof(rt: HostRuntime) -> Result<(), Fail> {
    let ended = doubled_proof(rt.alloc(), 14, NORMAL)?;
    compare(
        &rt,
        "a normal proof",
        &ended,
        refused(Status::Sheet, TOO_MANY),
    );
    Ok(())
}

// It is not too long for a compressed one.
#[test]
fn a_longer_proof_is_compressed(rt: HostRuntime) -> Result<(), Fail> {
    let ended = doubled_proof(rt.alloc(), 14, USUAL)?;
    assert!(rt; ended.status == Status::Finished);
    assert!(rt; !line_of(ended.out.bytes(), b"$= ( ").is_empty());
    assert!(rt; ended.log.bytes().ends_with(b"finished\n"));
    Ok(())
}
