ghost use Rattle.std.specs.Prelude.{IsSome};
ghost use Rattle.step_chain.specs.Values.{accepted_at};

use crate::opened::{Show, holds};
use formula_parse::text;
use mm_base::{Kinds, MOST_SHEET_BYTES, Memory, Tree};
use mm_database::Database;
use mm_model::Leaf;
use sheet_bind::bind_sheet;
use sheet_read::{Sheet, read_sheet};
use solve_model::Bound;
use std::alloc::Global;
use step_chain::{Chain, ChainTrees, TreeFault, Verdict, are_placed};

const P: &[u8] =
    b"$c ( ) -> -. wff |- $. $v ph ps ch $. wph $f wff ph $. wps $f wff ps $. wch $f wff ch $.
wn $a wff -. ph $. wi $a wff ( ph -> ps ) $. ${ min $e |- ph $. maj $e |- ( ph -> ps ) $. ax-mp $a |- ps $. $}
ax-1 $a |- ( ph -> ( ps -> ph ) ) $. ${ dup.1 $e |- ph $. dup $a |- ( ph -> ph ) $. $}
";

// The numbers of the symbols there, in the order in which they are declared.
const OPEN: u32 = 0;

const CLOSE: u32 = 1;

const ARROW: u32 = 2;

const PH: u32 = 6;

const PS: u32 = 7;

// A work variable stands for this number and its own.
const WORK: u32 = 100;

/// What is done with a chain, and what has to come of it. A formula is told by its symbols; a fresh leaf has none.
#[derive(Clone, Copy)]
pub(crate) enum Op {
    /// The next step is pushed, with this verdict.
    Push(Verdict),
    Pop(u32),
    /// How many nodes the store has at most.
    Nodes(u32),
    Formula(u32, &'static [u32]),
    TooLong(u32, u64),
    Order(u32, &'static [u32]),
    /// The `$e` of a number.
    Place(u32, usize, &'static [u32]),
    /// The tree in place of the variable of a number.
    Value(u32, usize, &'static [u32]),
}

fn number_of(leaf: &Leaf) -> u32 {
    match leaf {
        Leaf::Const(symbol) => symbol.0,
        Leaf::Var(symbol, _) => symbol.0,
        Leaf::Work(_, number) => number.saturating_add(WORK),
    }
}

fn are_numbers(leaves: &[Leaf], want: &[u32]) -> bool {
    for (leaf, number) in leaves.iter().zip(want) {
        if number_of(leaf) != *number {
            return false;
        }
    }
    leaves.len() == want.len()
}

fn is_tree(alloc: Global, db: &Database, tree: &Tree, want: &[u32]) -> bool {
    match text(alloc, db.grammar(), tree) {
        Ok(leaves) => are_numbers(leaves.as_slice(), want),
        Err(_) => false,
    }
}

fn is_read(alloc: Global, db: &Database, answer: Result<Tree, TreeFault>, want: &[u32]) -> bool {
    match answer {
        Ok(tree) => is_tree(alloc, db, &tree, want),
        Err(_) => false,
    }
}

fn is_too_long(answer: Result<Tree, TreeFault>, want: u64) -> bool {
    match answer {
        Ok(_) => false,
        Err(fault) => fault == TreeFault::TooLong(want),
    }
}

fn is_value(
    alloc: Global,
    db: &Database,
    trees: &ChainTrees<'_, '_>,
    i: u32,
    k: usize,
    want: &[u32],
) -> bool
    requires { IsSome (accepted_at trees.now i) }
{
    match trees.substitution(alloc, i) {
        Err(_) => false,
        Ok(values) => match values.as_slice().get(k) {
            Some(tree) => is_tree(alloc, db, tree, want),
            None => false,
        },
    }
}

fn is_place(
    alloc: Global,
    db: &Database,
    chain: &Chain<'_>,
    i: u32,
    k: usize,
    want: &[u32],
) -> bool {
    match chain.trees() {
        Err(_) => false,
        Ok(trees) => {
            chain.is_accepted(i) && k < chain.hyps(i) && is_read(alloc, db, trees.place(i, k), want)
        }
    }
}

fn has_value(
    alloc: Global,
    db: &Database,
    chain: &Chain<'_>,
    i: u32,
    k: usize,
    want: &[u32],
) -> bool {
    match chain.trees() {
        Err(_) => false,
        Ok(trees) => chain.is_accepted(i) && is_value(alloc, db, &trees, i, k, want),
    }
}

fn is_formula(alloc: Global, db: &Database, chain: &Chain<'_>, i: u32, want: &[u32]) -> bool {
    match chain.trees() {
        Err(_) => false,
        Ok(trees) => i < chain.steps() && is_read(alloc, db, trees.formula(i), want),
    }
}

fn is_long(chain: &Chain<'_>, i: u32, want: u64) -> bool {
    match chain.trees() {
        Err(_) => false,
        Ok(trees) => i < chain.steps() && is_too_long(trees.formula(i), want),
    }
}

fn has_order(chain: &Chain<'_>, i: u32, want: &[u32]) -> bool {
    chain.is_accepted(i) && chain.order(i).as_slice() == want
}

fn pushes(chain: &mut Chain<'_>, want: Verdict) -> bool {
    let i = chain.pushed();
    if i >= chain.steps() {
        return false;
    }
    match chain.push_step(i) {
        Ok(verdict) => verdict == want,
        Err(_) => false,
    }
}

fn pops(chain: &mut Chain<'_>, k: u32) -> bool {
    chain.pop_to(k);
    chain.pushed() == k
}

// What changes no chain: the answers about it.
fn shows(alloc: Global, db: &Database, chain: &Chain<'_>, op: Op) -> bool {
    match op {
        Op::Nodes(most) => chain.arena().count() <= most,
        Op::Formula(i, want) => is_formula(alloc, db, chain, i, want),
        Op::TooLong(i, want) => is_long(chain, i, want),
        Op::Order(i, want) => has_order(chain, i, want),
        Op::Place(i, k, want) => is_place(alloc, db, chain, i, k, want),
        Op::Value(i, k, want) => has_value(alloc, db, chain, i, k, want),
        _ => false,
    }
}

fn takes(alloc: Global, db: &Database, chain: &mut Chain<'_>, op: Op) -> bool {
    match op {
        Op::Push(verdict) => pushes(chain, verdict),
        Op::Pop(k) => pops(chain, k),
        _ => shows(alloc, db, chain, op),
    }
}

fn all_hold(alloc: Global, db: &Database, chain: &mut Chain<'_>, ops: &[Op]) -> bool {
    for op in ops {
        if !takes(alloc, db, chain, *op) {
            return false;
        }
    }
    true
}

fn bound_holds(alloc: Global, db: &Database, kinds: &Kinds, bound: &Bound, ops: &[Op]) -> bool {
    if !are_placed(bound) || bound.steps.as_slice().len() >= 1_000 {
        return false;
    }
    match Chain::new(alloc, db, kinds, bound) {
        Ok(mut chain) => all_hold(alloc, db, &mut chain, ops),
        Err(_) => false,
    }
}

fn sheet_holds(alloc: Global, db: &Database, kinds: &Kinds, sheet: &Sheet, ops: &[Op]) -> bool {
    match bind_sheet(alloc, db, kinds, sheet) {
        Ok(bound) => bound_holds(alloc, db, kinds, &bound, ops),
        Err(_) => false,
    }
}

/// Whether all of it comes of the operations on the chain of this worksheet.
pub(crate) fn chain_holds(
    alloc: Global,
    db: &Database,
    kinds: &Kinds,
    text: &[u8],
    ops: &[Op],
) -> bool {
    if text.len() as u64 > MOST_SHEET_BYTES {
        return false;
    }
    match read_sheet(alloc, text) {
        Ok(sheet) => sheet_holds(alloc, db, kinds, &sheet, ops),
        Err(_) => false,
    }
}

const MIDDLE: &[u8] = b"$( <MM> <PROOF_ASST> THEOREM=r LOC_AFTER=?
1::ax-1 |- ( ph -> &W1 )
2:1,1:ax-mp |- &W2
3::ax-1 |- ( &W2 -> ( ps -> &W2 ) )
qed:: |- ( ph -> ps )
$)
";

// ( ph -> ( _ -> ph ) ), and the formulas of the others.
const FIRST: &[u32] = &[OPEN, PH, ARROW, OPEN, ARROW, PH, CLOSE, CLOSE];

const SECOND: &[u32] = &[102];

const THIRD: &[u32] = &[OPEN, 102, ARROW, OPEN, PS, ARROW, 102, CLOSE, CLOSE];

const LAST: &[u32] = &[OPEN, PH, ARROW, PS, CLOSE];

const UNDONE: &[Op] = &[
    Op::Push(Verdict::Fits),
    Op::Push(Verdict::NoFit),
    Op::Push(Verdict::Fits),
    Op::Push(Verdict::NoRef),
    Op::Formula(0, FIRST),
    Op::Formula(1, SECOND),
    Op::Formula(2, THIRD),
    Op::Formula(3, LAST),
    Op::Pop(1),
    Op::Formula(0, FIRST),
    Op::Push(Verdict::NoFit),
    Op::Push(Verdict::Fits),
    Op::Formula(0, FIRST),
    Op::Formula(1, SECOND),
    Op::Formula(2, THIRD),
    Op::Formula(3, LAST),
];

#[test]
fn steps_are_undone_and_taken_again(rt: HostRuntime) {
    assert!(rt; holds(rt.alloc(), P, Show::Chain(MIDDLE, UNDONE)));
}

const CYCLE: &[u8] = b"$( <MM> <PROOF_ASST> THEOREM=r LOC_AFTER=?
1::ax-1 |- ( &W1 -> &W2 )
2::ax-1 |- ( &W2 -> &W1 )
qed:: |- ps
$)
";

const CYCLED: &[Op] = &[
    Op::Push(Verdict::Fits),
    Op::Push(Verdict::NoFit),
    Op::Formula(0, &[OPEN, 101, ARROW, OPEN, ARROW, 101, CLOSE, CLOSE]),
];

#[test]
fn a_cycle_does_not_fit(rt: HostRuntime) {
    assert!(rt; holds(rt.alloc(), P, Show::Chain(CYCLE, CYCLED)));
}

const TURNED: &[u8] = b"$( <MM> <PROOF_ASST> THEOREM=r LOC_AFTER=?
h1::r.1 |- ( ph -> ps )
h2::r.2 |- ph
qed:1,2:ax-mp |- ps
$)
";

const TURNED_OPS: &[Op] = &[
    Op::Push(Verdict::Hyp),
    Op::Push(Verdict::Hyp),
    Op::Push(Verdict::Fits),
    Op::Order(2, &[1, 0]),
    Op::Place(2, 0, &[PH]),
    Op::Place(2, 1, LAST),
    Op::Value(2, 0, &[PH]),
    Op::Value(2, 1, &[PS]),
];

#[test]
fn hypotheses_fit_in_the_other_order(rt: HostRuntime) {
    assert!(rt; holds(rt.alloc(), P, Show::Chain(TURNED, TURNED_OPS)));
}

fn doubled_text(alloc: Global, count: u32) -> Result<Vec<u8>, Memory> {
    let mut text = Vec::from_slice(
        alloc,
        b"$( <MM> <PROOF_ASST> THEOREM=r LOC_AFTER=?\nh0::r.1 |- ph\n".as_slice(),
    )?;
    for n in 0..count {
        let line = format!(in alloc; "{}:{n}:dup\n", n.saturating_add(1))?;
        text.extend_from_slice(line.as_bytes())?;
    }
    text.extend_from_slice(b"qed:: |- ps\n$)\n".as_slice())?;
    Ok(text)
}

// A step pushed so often.
fn doubled_ops(alloc: Global, count: u32) -> Result<Vec<Op>, Memory> {
    let mut ops = Vec::new(alloc);
    ops.push(Op::Push(Verdict::Hyp))?;
    for _ in 0..count {
        ops.push(Op::Push(Verdict::Fits))?;
    }
    ops.extend_from_slice(DOUBLED)?;
    Ok(ops)
}

// The formula and the last step count one each; each other step one, and its assertion one and three.
const DOUBLED: &[Op] = &[
    Op::Nodes(202),
    Op::TooLong(40, 4_398_046_511_102),
    Op::Formula(
        2,
        &[
            OPEN, OPEN, PH, ARROW, PH, CLOSE, ARROW, OPEN, PH, ARROW, PH, CLOSE, CLOSE,
        ],
    ),
];

/// Whether a formula that is doubled so often is told by its length.
pub(crate) fn doublings_hold(alloc: Global, db: &Database, kinds: &Kinds, count: u32) -> bool {
    match (doubled_text(alloc, count), doubled_ops(alloc, count)) {
        (Ok(text), Ok(ops)) => chain_holds(alloc, db, kinds, text.as_slice(), ops.as_slice()),
        _ => false,
    }
}

#[test]
fn forty_doublings(rt: HostRuntime) {
    assert!(rt; holds(rt.alloc(), P, Show::Doublings(40)));
}
