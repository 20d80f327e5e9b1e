use crate::opened::{Show, holds};
use mm_base::{Label, List, Memory, Pair, Tree};
use mm_database::Database;
use ref_search::{Wanted, all, first, is_closed};
use std::alloc::Global;

// Two equal assertions, a rule, quantified ones with and without a `$d`, and behind them what is wanted. The last axiom
// before the last wanted one fits everything.
const S: &[u8] = b"
$c ( ) -> A. wff |- setvar $. $v ph ps ch x y $.
wph $f wff ph $. wps $f wff ps $. wch $f wff ch $. vx $f setvar x $. vy $f setvar y $.
wi $a wff ( ph -> ps ) $. wal $a wff A. x ph $.
one $a |- ( ph -> ph ) $. two $a |- ( ch -> ch ) $.
${ min $e |- ph $. maj $e |- ( ph -> ps ) $. mp $a |- ps $. $}
${ $d x ph $. ax5 $a |- ( ph -> A. x ph ) $. $}
gen $a |- ( ph -> A. x ps ) $.
${ three.1 $e |- ph $. three.2 $e |- ps $. three.3 $e |- ch $. three $a |- ( ( ph -> ps ) -> ( ps -> ch ) ) $. $}
same $a |- ( ( ps -> ch ) -> ( ps -> ch ) ) $.
${ turned.1 $e |- ( ps -> ch ) $. turned.2 $e |- ps $. turned $a |- ch $. $}
${ listed.1 $e |- ps $. listed.2 $e |- ( ps -> ch ) $. listed $a |- ch $. $}
clash $a |- ( A. x ph -> A. x A. x ph ) $.
lack $a |- ( ch -> A. y ch ) $.
other $a |- ( ph -> ch ) $.
${ cycle.1 $e |- ch $. cycle.2 $e |- ph $. cycle.3 $e |- ps $. cycle $a |- ( ( ph -> ps ) -> ( ps -> ch ) ) $. $}
${ few.1 $e |- ph $. few $a |- ( ph -> ( ph -> ph ) ) $. $}
any $a |- ps $.
variable $a |- ch $.
";

/// Which pairs may be added: any, or only given ones, by the symbols of their variables.
#[derive(Clone, Copy)]
pub(crate) enum Allowed {
    Any,
    Only(&'static [(&'static [u8], &'static [u8])]),
}

/// The assertion whose formula and hypotheses are wanted before it, which pairs are allowed, the first label that fits with
/// its order, and all labels that fit.
pub(crate) type Searched = (
    &'static [u8],
    Allowed,
    Option<(&'static [u8], &'static [u32])>,
    &'static [&'static [u8]],
);

const ROWS: &[Searched] = &[
    (
        b"same",
        Allowed::Any,
        Some((b"one", &[])),
        &[b"one", b"two"],
    ),
    (b"turned", Allowed::Any, Some((b"mp", &[1, 0])), &[b"mp"]),
    (
        b"listed",
        Allowed::Any,
        Some((b"mp", &[0, 1])),
        &[b"mp", b"turned"],
    ),
    (b"clash", Allowed::Any, Some((b"gen", &[])), &[b"gen"]),
    (
        b"lack",
        Allowed::Any,
        Some((b"ax5", &[])),
        &[b"ax5", b"gen"],
    ),
    (b"lack", Allowed::Only(&[]), Some((b"gen", &[])), &[b"gen"]),
    (
        b"lack",
        Allowed::Only(&[(b"ch", b"x")]),
        Some((b"gen", &[])),
        &[b"gen"],
    ),
    (
        b"lack",
        Allowed::Only(&[(b"ch", b"y")]),
        Some((b"ax5", &[])),
        &[b"ax5", b"gen"],
    ),
    (b"other", Allowed::Any, None, &[]),
    (
        b"cycle",
        Allowed::Any,
        Some((b"three", &[1, 2, 0])),
        &[b"three"],
    ),
    (b"few", Allowed::Any, None, &[]),
    (b"variable", Allowed::Any, Some((b"any", &[])), &[b"any"]),
];

fn copies(alloc: Global, trees: &[Tree]) -> Result<List<Tree>, Memory> {
    let mut all = Vec::new(alloc);
    for tree in trees {
        all.push(tree.copy()?)?;
    }
    Ok(List::from_vec(all))
}

fn wanted_by(alloc: Global, db: &Database, label: Label) -> Result<Wanted, Memory> {
    if !db.usable(label) {
        return Err(Memory);
    }
    let hyps = copies(alloc, db.hyp_trees(label).as_slice())?;
    let formula = db.tree(label).copy()?;
    Ok(Wanted { formula, hyps })
}

fn pairs_of(alloc: Global, db: &Database, names: &[(&[u8], &[u8])]) -> Option<List<Pair>> {
    let mut pairs = Vec::new(alloc);
    for (one, other) in names {
        let (Some(one), Some(other)) = (db.frames().symbol(one), db.frames().symbol(other)) else {
            return None;
        };
        let Some(pair) = Pair::of(one, other) else {
            return None;
        };
        pairs.push(pair).ok()?;
    }
    Some(List::from_vec(pairs))
}

fn has_name(db: &Database, label: Label, name: &[u8]) -> bool {
    db.frames().label(name) == Some(label)
}

fn is_first(
    alloc: Global,
    db: &Database,
    place: u32,
    wanted: &Wanted,
    allowed: Option<&List<Pair>>,
    want: Option<(&[u8], &[u32])>,
) -> bool {
    if !is_closed(wanted) {
        return false;
    }
    match first(alloc, db, place, wanted, allowed) {
        Err(_) => false,
        Ok(None) => want.is_none(),
        Ok(Some(found)) => match want {
            None => false,
            Some((name, order)) => has_name(db, found.label, name)
                && found.order.as_slice() == order,
        },
    }
}

fn are_labels(db: &Database, labels: &[Label], names: &[&[u8]]) -> bool {
    for (label, name) in labels.iter().zip(names) {
        if !has_name(db, *label, name) {
            return false;
        }
    }
    labels.len() == names.len()
}

fn are_all(
    alloc: Global,
    db: &Database,
    place: u32,
    wanted: &Wanted,
    allowed: Option<&List<Pair>>,
    want: &[&[u8]],
) -> bool {
    if !is_closed(wanted) {
        return false;
    }
    match all(alloc, db, place, wanted, allowed) {
        Err(_) => false,
        Ok(labels) => are_labels(db, labels.as_slice(), want),
    }
}

fn row_holds(
    alloc: Global,
    db: &Database,
    place: u32,
    wanted: &Wanted,
    allowed: Option<&List<Pair>>,
    row: &Searched,
) -> bool {
    is_first(alloc, db, place, wanted, allowed, row.2)
        && are_all(alloc, db, place, wanted, allowed, row.3)
}

fn holds_with(alloc: Global, db: &Database, place: u32, wanted: &Wanted, row: &Searched) -> bool {
    match row.1 {
        Allowed::Any => row_holds(alloc, db, place, wanted, None, row),
        Allowed::Only(names) => match pairs_of(alloc, db, names) {
            None => false,
            Some(pairs) => row_holds(alloc, db, place, wanted, Some(&pairs), row),
        },
    }
}

fn place_of(db: &Database, label: Label) -> u32 {
    match db.frames().positions().get(label.0 as usize) {
        None => 0,
        Some(position) => *position,
    }
}

fn is_searched(alloc: Global, db: &Database, row: &Searched) -> bool {
    let Some(label) = db.frames().label(row.0) else {
        return false;
    };
    match wanted_by(alloc, db, label) {
        Err(_) => false,
        Ok(wanted) => holds_with(alloc, db, place_of(db, label), &wanted, row),
    }
}

/// Whether each row is found.
pub(crate) fn searches_hold(alloc: Global, db: &Database, rows: &[Searched]) -> bool {
    for row in rows {
        if !is_searched(alloc, db, row) {
            return false;
        }
    }
    true
}

#[test]
fn references_are_found(rt: HostRuntime) {
    assert!(rt; holds(rt.alloc(), S, Show::Searches(ROWS)));
}
