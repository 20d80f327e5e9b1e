ghost use Rattle.std.specs.Prelude.{◌≡◌};
ghost use Rattle.proof_tree.specs.Given.{used_at};

use crate::opened::{Show, holds};
use compressed_proof::encode;
use mm_base::{Label, List, Memory, Name, Sym, Tree, Typecode};
use mm_database::Database;
use proof_tree::{NormalFault, ProofGraph, ProofStep, build, code, normal};
use std::alloc::Global;

const P: &[u8] =
    b"$c ( ) -> -. wff |- $. $v ph ps ch $. wph $f wff ph $. wps $f wff ps $. wch $f wff ch $.
wn $a wff -. ph $. wi $a wff ( ph -> ps ) $. ${ min $e |- ph $. maj $e |- ( ph -> ps ) $. ax-mp $a |- ps $. $}
ax-1 $a |- ( ph -> ( ps -> ph ) ) $. ax-2 $a |- ( ( ph -> ( ps -> ch ) ) -> ( ( ph -> ps ) -> ( ph -> ch ) ) ) $.";

const WFF: Typecode = Typecode(Sym(4));

/// The number of labels, or that of a proof that is too long.
#[derive(Clone, Copy)]
pub(crate) enum Told {
    Labels(usize),
    TooLong(u64),
}

// An implication of one formula from another, by their numbers among those before.
type Implication = (usize, usize);

// Behind ph, which is 0: ph -> ph, ph -> ( ph -> ph ), ( ph -> ph ) -> ( ph -> ph ), ( ph -> ph ) -> ph,
// ph -> ( ( ph -> ph ) -> ph ), ( ph -> ( ph -> ph ) ) -> ( ph -> ph ).
const FORMULAS: &[Implication] = &[(0, 0), (0, 1), (1, 1), (1, 0), (0, 4), (2, 1)];

// A label, the numbers of its values, and its places.
type Row = (u32, &'static [usize], &'static [u32]);

const AX_MP: u32 = 7;

const AX_1: u32 = 8;

const AX_2: u32 = 9;

// The identity.
const ROWS: &[Row] = &[
    (AX_1, &[0, 0], &[]),
    (AX_1, &[0, 1], &[]),
    (AX_2, &[0, 1, 0], &[]),
    (AX_MP, &[5, 6], &[1, 2]),
    (AX_MP, &[2, 1], &[0, 3]),
];

fn implies(alloc: Global, made: &[Tree], a: usize, b: usize) -> Result<Tree, Memory> {
    let mut children = Vec::new(alloc);
    if let Some(tree) = made.get(a) {
        children.push(tree.copy()?)?;
    }
    if let Some(tree) = made.get(b) {
        children.push(tree.copy()?)?;
    }
    Ok(Tree::Node(Label(4), WFF, List::from_vec(children)))
}

fn formulas(alloc: Global) -> Result<Vec<Tree>, Memory> {
    let mut made = Vec::new(alloc);
    made.push(Tree::Var(Sym(6), WFF))?;
    for (a, b) in FORMULAS {
        let tree = implies(alloc, made.as_slice(), *a, *b)?;
        made.push(tree)?;
    }
    Ok(made)
}

fn values(alloc: Global, formulas: &[Tree], numbers: &[usize]) -> Result<List<Tree>, Memory> {
    let mut trees = Vec::new(alloc);
    for number in numbers {
        if let Some(tree) = formulas.get(*number) {
            trees.push(tree.copy()?)?;
        }
    }
    Ok(List::from_vec(trees))
}

fn step(
    alloc: Global,
    formulas: &[Tree],
    label: u32,
    numbers: &[usize],
    places: &[u32],
) -> Result<ProofStep, Memory> {
    let places = Vec::from_slice(alloc, places)?;
    let trees = values(alloc, formulas, numbers)?;
    Ok(ProofStep::Ref(Label(label), trees, List::from_vec(places)))
}

fn identity(alloc: Global, formulas: &[Tree]) -> Result<Vec<ProofStep>, Memory> {
    let mut steps = Vec::new(alloc);
    for (label, numbers, places) in ROWS {
        let next = step(alloc, formulas, *label, numbers, places)?;
        steps.push(next)?;
    }
    Ok(steps)
}

// Proves ( ph -> ph ) twice more: from the step of this number, and from that and it.
fn double(
    alloc: Global,
    formulas: &[Tree],
    steps: &mut Vec<ProofStep>,
    last: u32,
) -> Result<(), Memory> {
    let Ok(next) = u32::try_from(steps.len()) else {
        return Err(Memory);
    };
    let major = step(alloc, formulas, AX_MP, &[1, 3], &[last, 5])?;
    steps.push(major)?;
    let minor = step(alloc, formulas, AX_MP, &[1, 1], &[last, next])?;
    steps.push(minor)?;
    Ok(())
}

fn doubled(alloc: Global, formulas: &[Tree], count: u32) -> Result<Vec<ProofStep>, Memory> {
    let mut steps = identity(alloc, formulas)?;
    let mut last = 4;
    if count > 0 {
        let first = step(alloc, formulas, AX_1, &[1, 1], &[])?;
        steps.push(first)?;
    }
    for _ in 0..count {
        double(alloc, formulas, &mut steps, last)?;
        last = last_of(steps.as_slice());
    }
    Ok(steps)
}

fn steps(alloc: Global, count: u32) -> Result<Vec<ProofStep>, Memory> {
    let formulas = formulas(alloc)?;
    doubled(alloc, formulas.as_slice(), count)
}

fn is_used(steps: &[ProofStep], root: u32) -> bool
    ensures { result ≡ used_at steps.now root }
{
    match steps.get(root as usize) {
        Some(ProofStep::Hyp(_)) => true,
        Some(ProofStep::Ref(_, _, _)) => true,
        Some(ProofStep::Unused) => false,
        None => false,
    }
}

fn last_of(steps: &[ProofStep]) -> u32 {
    match u32::try_from(steps.len()) {
        Ok(count) => count.saturating_sub(1),
        Err(_) => 0,
    }
}

fn graph_of(alloc: Global, db: &Database, steps: &[ProofStep]) -> Result<ProofGraph, Memory> {
    let root = last_of(steps);
    let active = db.frames().active_at(db.frames().end())?;
    if !is_used(steps, root) {
        return Err(Memory);
    }
    build(alloc, db, active.hyps.as_slice(), steps, root)
}

fn graph(alloc: Global, db: &Database, count: u32) -> Result<ProofGraph, Memory> {
    let steps = steps(alloc, count)?;
    graph_of(alloc, db, steps.as_slice())
}

fn is_as_told(answer: Result<List<Name>, NormalFault>, want: Told) -> bool {
    match answer {
        Ok(labels) => match want {
            Told::Labels(count) => labels.as_slice().len() == count,
            Told::TooLong(_) => false,
        },
        Err(NormalFault::TooLong(count)) => match want {
            Told::Labels(_) => false,
            Told::TooLong(number) => count == number,
        },
        Err(NormalFault::Memory) => false,
    }
}

/// Whether the normal proof with so many doublings is as told.
pub(crate) fn is_told(alloc: Global, db: &Database, count: u32, want: Told) -> bool {
    match graph(alloc, db, count) {
        Ok(graph) => is_as_told(normal(alloc, &graph), want),
        Err(_) => false,
    }
}

fn mandatory(alloc: Global) -> Result<Vec<Name>, Memory> {
    let mut mandatory = Vec::new(alloc);
    let name = List::copy_of(alloc, b"wph")?;
    mandatory.push(name)?;
    Ok(mandatory)
}

fn spelling(alloc: Global, graph: &ProofGraph) -> Result<List<u8>, Memory> {
    let mandatory = mandatory(alloc)?;
    let code = code(alloc, graph, mandatory.as_slice())?;
    if code.labels.as_slice().len() >= 1_000 {
        return Err(Memory);
    }
    encode(alloc, &code, 1)
}

fn is_spelled_by(alloc: Global, graph: &ProofGraph, want: &[u8]) -> bool {
    match spelling(alloc, graph) {
        Ok(text) => text.as_slice() == want,
        Err(_) => false,
    }
}

/// Whether the compressed proof with so many doublings is spelled so.
pub(crate) fn is_spelled(alloc: Global, db: &Database, count: u32, want: &[u8]) -> bool {
    match graph(alloc, db, count) {
        Ok(graph) => is_spelled_by(alloc, &graph, want),
        Err(_) => false,
    }
}

#[test]
fn proofs_double(rt: HostRuntime) {
    assert!(rt; holds(rt.alloc(), P, Show::Labels(13, Told::Labels(532_455))));
    assert!(rt; holds(rt.alloc(), P, Show::Labels(14, Told::TooLong(1_064_935))));
}

#[test]
fn a_proof_is_spelled(rt: HostRuntime) {
    let text = b"( wi ax-1 ax-2 ax-mp ) AAABZBZFAACAFABBGFBAFCAFADEE";
    assert!(rt; holds(rt.alloc(), P, Show::Spelled(0, text)));
}
