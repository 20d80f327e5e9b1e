use crate::formulas::{Answer, are_two, is_spelled, parsed};
use formula_parse::Leaf;
use mm_base::{Kinds, Label, List, MOST_DATABASE_BYTES, Memory, Sym, Typecode};
use mm_database::{Database, DbFault, db_fault_line, open_database};
use mm_frames::ReadFault;
use std::alloc::Global;

// Propositional logic, sets and classes: `Q.mm` of the examples.
const Q: &[u8] = b"
$c ( ) -> -. wff |- $.
$v ph ps ch $.
wph $f wff ph $.
wps $f wff ps $.
wch $f wff ch $.
wn $a wff -. ph $.
wi $a wff ( ph -> ps ) $.
${
  min $e |- ph $.
  maj $e |- ( ph -> ps ) $.
  ax-mp $a |- ps $.
$}
ax-1 $a |- ( ph -> ( ps -> ph ) ) $.
ax-2 $a |- ( ( ph -> ( ps -> ch ) ) -> ( ( ph -> ps ) -> ( ph -> ch ) ) ) $.
$c setvar class { } | = A. $.
$v x y A B $.
vx $f setvar x $.
vy $f setvar y $.
cA $f class A $.
cB $f class B $.
cv $a class x $.
cab $a class { x | ph } $.
wceq $a wff A = B $.
wal $a wff A. x ph $.
${
  a1i.1 $e |- ph $.
  a1i $a |- ( ps -> ph ) $.
$}
${
  a2i.1 $e |- ( ph -> ( ps -> ch ) ) $.
  a2i $a |- ( ( ph -> ps ) -> ( ph -> ch ) ) $.
$}
${
  $d x ph $.
  ax-5 $a |- ( ph -> A. x ph ) $.
$}
eqid $a |- A = A $.
${
  drop.1 $e |- ( ph -> A. x ph ) $.
  drop $a |- ( ph -> ph ) $.
$}
${
  pair.1 $e |- ph $.
  pair $a |- ( ph -> ph ) $.
$}
ax-1c $a |- ( ph -> ( ps -> ph ) ) $.
";

// What `Q2.mm` has behind it: a second way to write an equation of sets.
const SECOND: &[u8] = b"
weqx $a wff x = y $. eqv $a |- x = x $. ${ sel.1 $e |- A = A $. sel $a |- { x | ph } = A $. $}
";

// Classes as sets, which closes a cycle.
const CYCLE: &[u8] = b"vc $a setvar A $.";

const TEXT: &[u8] = b"
$c ( ) -> -. wff |- setvar class = $.
$v ph ps x y A B $.
wph $f wff ph $. wps $f wff ps $. vx $f setvar x $. vy $f setvar y $. cA $f class A $. cB $f class B $.
wn $a wff -. ph $. wi $a wff ( ph -> ps ) $.
${ min $e |- ph $. maj $e |- ( ph -> ps ) $. ax-mp $a |- ps $. $}
ax-1 $a |- ( ph -> ( ps -> ph ) ) $.
cv $a class x $. wceq $a wff A = B $.
one $a |- x = y $.
vc $a setvar A $. weq $a wff x = y $.
two $a |- x = y $.
any $a |- ph $.
";

fn kinds(alloc: Global) -> Result<Kinds, Memory> {
    Ok(Kinds {
        provable: List::from_vec(Vec::from_slice(alloc, b"|-")?),
        logic: List::from_vec(Vec::from_slice(alloc, b"wff")?),
    })
}

fn open_text(alloc: Global, text: &[u8]) -> Result<Database, DbFault> {
    if text.len() as u64 > MOST_DATABASE_BYTES {
        return Err(DbFault::Memory);
    }
    match kinds(alloc) {
        Err(_) => Err(DbFault::Memory),
        Ok(kinds) => open_database(alloc, text, &kinds),
    }
}

// What is shown of a database.
#[derive(Clone, Copy)]
enum Property {
    // Which assertions are usable, and which have which head.
    Small,
    // The trees of assertions of Q, their heads, the numbers of labels, and that an equation of sets has one tree.
    First,
    // Behind Q a chain that closes a cycle.
    Cycle,
    // Behind Q a second equation of sets.
    Second,
    // The last assertion is usable.
    Deep,
}

fn has(alloc: Global, database: &Database, property: Property) -> bool {
    match property {
        Property::Small => are_usable(database, USABLE) && have_heads(database, HEADS),
        Property::First => {
            have_trees(alloc, database)
                && have_heads(database, Q_HEADS)
                && counts_labels(database)
                && has_one_tree(alloc, database)
        }
        Property::Cycle => leaves_cycle_out(database),
        Property::Second => has_two_trees(alloc, database) && are_usable(database, Q2_USABLE),
        Property::Deep => database.usable(label(database, b"deep")),
    }
}

// None where the text has a fault.
fn show(alloc: Global, text: &[u8], property: Property) -> Option<bool> {
    match open_text(alloc, text) {
        Err(_) => None,
        Ok(database) => Some(has(alloc, &database, property)),
    }
}

// The database Q with a text behind it.
fn q_with(alloc: Global, behind: &[u8]) -> Result<Vec<u8>, Memory> {
    let mut text = Vec::from_slice(alloc, Q)?;
    text.extend_from_slice(behind)?;
    Ok(text)
}

fn show_q(alloc: Global, behind: &[u8], property: Property) -> Option<bool> {
    let text = q_with(alloc, behind).ok()?;
    show(alloc, &text, property)
}

// A label that no database has where there is none of this name.
fn label(database: &Database, name: &[u8]) -> Label {
    database.frames().label(name).unwrap_or(Label(u32::MAX))
}

fn are_usable(database: &Database, rows: &[(&'static [u8], bool)]) -> bool {
    rows.iter().all(|(name, usable)| database.usable(label(database, name)) == *usable)
}

// Whether the labels are these.
fn are_labels(database: &Database, labels: &[Label], names: &[&'static [u8]]) -> bool {
    labels.len() == names.len()
        && labels
            .iter()
            .zip(names)
            .all(|(found, name)| *found == label(database, name))
}

// Whether the assertions with that head and number of `$e` are these.
fn have_head(
    database: &Database,
    head: Option<&'static [u8]>,
    hyps: u32,
    names: &[&'static [u8]],
) -> bool {
    let head = head.map(|name| label(database, name));
    are_labels(database, database.by_head(head, hyps).as_slice(), names)
}

const USABLE: &[(&[u8], bool)] = &[
    (b"ax-mp", true),
    (b"ax-1", true),
    (b"one", true),
    (b"two", false),
    (b"any", true),
    (b"wn", false),
    (b"min", false),
    (b"none", false),
];

const HEADS: &[(Option<&[u8]>, u32, &[&[u8]])] = &[
    (Some(b"wi"), 0, &[b"ax-1"]),
    (None, 2, &[b"ax-mp"]),
    (None, 0, &[b"any"]),
    (Some(b"wn"), 0, &[]),
];

fn have_heads(
    database: &Database,
    rows: &[(Option<&'static [u8]>, u32, &'static [&'static [u8]])],
) -> bool {
    rows.iter().all(|(head, hyps, names)| have_head(database, *head, *hyps, names))
}

// The labels and the variables of an assertion's tree, from the front.
fn has_tree(alloc: Global, database: &Database, name: &[u8], shape: &[u32]) -> bool {
    let label = label(database, name);
    database.usable(label) && is_spelled(alloc, database.tree(label), shape)
}

fn has_hypotheses(
    alloc: Global,
    database: &Database,
    name: &[u8],
    shapes: &[&'static [u32]],
) -> bool {
    let label = label(database, name);
    if !database.usable(label) {
        return false;
    }
    let trees = database.hyp_trees(label).as_slice();
    trees.len() == shapes.len()
        && trees
            .iter()
            .zip(shapes)
            .all(|(tree, shape)| is_spelled(alloc, tree, shape))
}

fn has_variables(database: &Database, name: &[u8], symbols: &[Sym]) -> bool {
    let label = label(database, name);
    database.usable(label) && database.vars(label).as_slice() == symbols
}

// wi is label 4, wceq 16 and cv 14; ph is symbol 6, ps 7, x 16, A 18.
fn have_trees(alloc: Global, database: &Database) -> bool {
    has_tree(alloc, database, b"ax-1", &[4, 6, 4, 7, 6])
        && has_tree(alloc, database, b"eqid", &[16, 18, 18])
        && has_hypotheses(alloc, database, b"ax-mp", &[&[6], &[4, 6, 7]])
        && has_variables(database, b"ax-mp", &[Sym(6), Sym(7)])
        && has_variables(database, b"drop", &[Sym(6), Sym(16)])
}

const Q_HEADS: &[(Option<&[u8]>, u32, &[&[u8]])] = &[
    (Some(b"wi"), 0, &[b"ax-1", b"ax-2", b"ax-5", b"ax-1c"]),
    (Some(b"wi"), 1, &[b"a1i", b"a2i", b"drop", b"pair"]),
    (Some(b"wceq"), 0, &[b"eqid"]),
    (None, 2, &[b"ax-mp"]),
];

// Before the third and the fifth statement there are no label and two; at the end all 29 are before.
fn counts_labels(database: &Database) -> bool {
    database.before(2) == 0
        && database.before(4) == 2
        && database.before(database.frames().end()) == 29
}

fn keeps(database: &Database, name: &[u8]) -> bool {
    let label = label(database, name);
    database
        .grammar()
        .kept()
        .as_slice()
        .iter()
        .any(|row| row.label == label)
}

const WFF: Typecode = Typecode(Sym(4));

const SETVAR: Typecode = Typecode(Sym(9));

const CLASS: Typecode = Typecode(Sym(10));

// `A.`
const FOR_ALL: Sym = Sym(15);

// The productions that begin with `A.`, and the chains that give classes and sets.
fn looks_up(database: &Database) -> bool {
    let grammar = database.grammar();
    let (Ok(first), Ok(classes), Ok(sets)) = (
        grammar.by_first(FOR_ALL),
        grammar.chains(CLASS),
        grammar.chains(SETVAR),
    ) else {
        return false;
    };
    are_labels(database, first.as_slice(), &[b"wal"])
        && are_labels(database, classes.as_slice(), &[b"cv"])
        && sets.as_slice().is_empty()
}

fn leaves_cycle_out(database: &Database) -> bool {
    keeps(database, b"cv")
        && !keeps(database, b"vc")
        && label(database, b"vc") == Label(29)
        && looks_up(database)
}

// `x = y`
const EQUATION: &[Leaf] = &[
    Leaf::Var(Sym(16), SETVAR),
    Leaf::Const(Sym(14)),
    Leaf::Var(Sym(17), SETVAR),
];

fn parse_equation(alloc: Global, database: &Database) -> Answer {
    parsed(
        alloc,
        database.grammar(),
        database.frames().end(),
        EQUATION,
        WFF,
    )
}

fn has_two_trees(alloc: Global, database: &Database) -> bool {
    let shapes: [&[u32]; 2] = [&[16, 14, 16, 14, 17], &[29, 16, 17]];
    are_two(
        alloc,
        database.grammar(),
        &parse_equation(alloc, database),
        EQUATION,
        shapes,
    )
}

fn has_one_tree(alloc: Global, database: &Database) -> bool {
    match &parse_equation(alloc, database) {
        Answer::One(tree) => is_spelled(alloc, tree, &[16, 14, 16, 14, 17]),
        _ => false,
    }
}

const Q2_USABLE: &[(&[u8], bool)] = &[(b"eqid", true), (b"eqv", false), (b"sel", true)];

// A text whose last assertion is a sign before a formula so many times.
fn signs(alloc: Global, count: usize) -> Result<Vec<u8>, Memory> {
    let mut text = Vec::from_slice(
        alloc,
        b"$c -. wff |- $. $v ph $. wph $f wff ph $. wn $a wff -. ph $. deep $a |- ",
    )?;
    for _ in 0..count {
        text.extend_from_slice(b"-. ")?;
    }
    text.extend_from_slice(b"ph $.")?;
    Ok(text)
}

fn signs_are_usable(alloc: Global, count: usize) -> Option<bool> {
    let text = signs(alloc, count).ok()?;
    show(alloc, &text, Property::Deep)
}

#[test]
fn databases_are_opened(rt: HostRuntime) {
    assert!(rt; show(rt.alloc(), TEXT, Property::Small) == Some(true));
    assert!(rt; show_q(rt.alloc(), b"", Property::First) == Some(true));
    assert!(rt; show_q(rt.alloc(), CYCLE, Property::Cycle) == Some(true));
    assert!(rt; show_q(rt.alloc(), SECOND, Property::Second) == Some(true));
}

#[test]
fn a_formula_of_4097_tokens_is_not_usable(rt: HostRuntime) {
    assert!(rt; signs_are_usable(rt.alloc(), 4_094) == Some(true));
    assert!(rt; signs_are_usable(rt.alloc(), 4_095) == Some(false));
}

fn has_line(alloc: Global, byte: u32, line: &[u8]) -> bool {
    match db_fault_line(alloc, &DbFault::Read(ReadFault::Redeclared(byte))) {
        Ok(found) => found.as_slice() == line,
        Err(_) => false,
    }
}

#[test]
fn faults_have_lines(rt: HostRuntime) {
    let fault = open_text(rt.alloc(), b"$c wff $. $v wff $.").err();
    assert!(rt; fault == Some(DbFault::Read(ReadFault::Redeclared(13))));
    assert!(rt; has_line(rt.alloc(), 13, b"database error 12 Redeclared at byte 13"));
}
