//! The pairs of distinct variables of an assertion, looked at in the substitutes of their variables.

ghost use Rattle.std.specs.Prelude.{◌≡◌, ◌++◌, filter, map, IfOk, IfErr, OnOk, None};
ghost use Rattle.proof_model.specs.Machine.{is_less, lesser, least, substitute, shared_fault, distinct_fault};
ghost use Rattle.stack_verify.specs.Taken.{taken};
ghost use Rattle.stack_verify.specs.Contexts.{IsKnown};
ghost use Rattle.stack_verify.specs.Steps.{FailsAs};
ghost use Rattle.stack_verify.specs.Pairs.{fails, products, variables_in, least_onto, first_failing};

use crate::fault::StepFault;
use crate::formula::{behind_typecode, find_float, formula_in};
use crate::known::Known;
use crate::taken::Entries;
use mm_base::{Memory, Pair, Sym};
use proof_model::Theorem;
use std::alloc::Global;

/// Lists that are used again for each assertion.
#[derive(Drop)]
pub(crate) struct Buffers {
    pub(crate) formula: Vec<Sym>,
    firsts: Vec<Sym>,
    seconds: Vec<Sym>,
}

impl Buffers {
    pub(crate) fn new(alloc: Global) -> Buffers {
        Buffers {
            formula: Vec::new(alloc),
            firsts: Vec::new(alloc),
            seconds: Vec::new(alloc),
        }
    }
}

/// What two variables of the two substitutes may not be.
#[derive(Clone, Copy, PartialEq, Eq, Debug)]
pub(crate) enum Rule {
    /// One variable.
    Shared,
    /// No active pair.
    Distinct,
}

fn is_less(p: (Sym, Sym), q: (Sym, Sym)) -> bool
    ensures { result ≡ is_less p q }
{
    p.0.0 < q.0.0 || (p.0.0 == q.0.0 && p.1.0 < q.1.0)
}

/// The lesser of two, where there is another.
fn lesser(p: (Sym, Sym), other: Option<(Sym, Sym)>) -> (Sym, Sym)
    ensures { result ≡ lesser p other }
{
    match other {
        None => p,
        Some(q) => { if is_less(q, p) { q } else { p } }
    }
}

/// Whether the rule is broken by two variables.
fn fails(known: &Known, rule: Rule, v: Sym, w: Sym) -> bool
    ensures { result ≡ fails known.now rule (v, w) }
{
    match rule {
        Rule::Shared => v.0 == w.0,
        Rule::Distinct => !known.is_active_pair(v, w),
    }
}

/// Puts the variables of a formula behind the list, in order.
fn push_variables(out: &mut Vec<Sym>, known: &Known, formula: &[Sym]) -> Result<(), Memory>
    ensures { OnOk result (out.new.items ≡ out.old.items ++ variables_in known.now formula.now) }
{
    for symbol in formula {
        if known.is_variable(*symbol) {
            out.push(*symbol)?;
        }
    }
    Ok(())
}

/// The variables of what a symbol stands for, in order.
fn put_variables(
    out: &mut Vec<Sym>,
    known: &Known,
    entries: &Entries,
    symbol: Sym,
) -> Result<(), Memory>
    ensures { OnOk result (out.new.items ≡ variables_in known.now (substitute (taken entries.now) symbol)) }
{
    out.clear();
    match find_float(entries.hyps, symbol) {
        None => push_variables(out, known, &[symbol])?,
        Some(place) => {
            push_variables(
                out,
                known,
                behind_typecode(formula_in(entries.symbols, entries.spans[place])),
            )?;
        }
    }
    Ok(())
}

/// The least of some pairs and of those of v with one of the others that break the rule.
fn least_with(
    known: &Known,
    rule: Rule,
    v: Sym,
    others: &[Sym],
    later: Option<(Sym, Sym)>,
) -> Option<(Sym, Sym)>
    ensures { result ≡ least_onto (filter (fails known.now rule) (map (λ w. (v, w)) others.now)) later }
{
    let mut best = later;
    let mut left = others.len();
    while left > 0 {
        left -= 1;
        let w = others[left];
        if fails(known, rule, v, w) {
            best = Some(lesser((v, w), best));
        }
    }
    best
}

/// The least pair of one of the first and one of the second that breaks the rule.
fn least_failing(known: &Known, rule: Rule, firsts: &[Sym], seconds: &[Sym]) -> Option<(Sym, Sym)>
    ensures { result ≡ least (filter (fails known.now rule) (products firsts.now seconds.now)) }
{
    let mut best = None;
    let mut left = firsts.len();
    while left > 0 {
        left -= 1;
        best = least_with(known, rule, firsts[left], seconds, best);
    }
    best
}

/// The first pair of an assertion whose substitutes have variables that break the rule, and the least of these.
fn first_failing(
    known: &Known,
    rule: Rule,
    entries: &Entries,
    pairs: &[Pair],
    buffers: &mut Buffers,
) -> Result<Option<(Pair, (Sym, Sym))>, Memory>
    ensures { IfOk result (λ first. first ≡ first_failing known.now rule (taken entries.now) pairs.now) }
{
    for pair in pairs {
        put_variables(&mut buffers.firsts, known, entries, pair.a)?;
        put_variables(&mut buffers.seconds, known, entries, pair.b)?;
        let least = least_failing(
            known,
            rule,
            buffers.firsts.as_slice(),
            buffers.seconds.as_slice(),
        );
        if let Some(vw) = least {
            return Ok(Some((*pair, vw)));
        }
    }
    Ok(None)
}

/// Looks for a variable that two substitutes share.
pub(crate) fn check_shared(
    theorem: &Theorem,
    known: &Known,
    entries: &Entries,
    pairs: &[Pair],
    buffers: &mut Buffers,
) -> Result<(), StepFault>
    requires known { IsKnown theorem.now known.now }
    ensures fine { OnOk result (shared_fault theorem.now (taken entries.now) pairs.now ≡ None) }
    ensures fault { IfErr result (λ e. FailsAs e (shared_fault theorem.now (taken entries.now) pairs.now)) }
{
    match first_failing(known, Rule::Shared, entries, pairs, buffers)? {
        None => Ok(()),
        Some((pair, (v, _))) => Err(StepFault::Shared(pair.a, pair.b, v)),
    }
}

/// Looks for variables of two substitutes that are no active pair.
pub(crate) fn check_distinct(
    theorem: &Theorem,
    known: &Known,
    entries: &Entries,
    pairs: &[Pair],
    buffers: &mut Buffers,
) -> Result<(), StepFault>
    requires known { IsKnown theorem.now known.now }
    ensures fine { OnOk result (distinct_fault theorem.now (taken entries.now) pairs.now ≡ None) }
    ensures fault { IfErr result (λ e. FailsAs e (distinct_fault theorem.now (taken entries.now) pairs.now)) }
{
    match first_failing(known, Rule::Distinct, entries, pairs, buffers)? {
        None => Ok(()),
        Some((_, (v, w))) => Err(StepFault::NotDistinct(v, w)),
    }
}
