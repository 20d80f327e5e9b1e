ghost use Rattle.std.specs.Prelude.{◌≡◌, ◌-◌, ◌^◌, min, sum, map, nat_lt, slice_index_or, option_and_then};
ghost use Rattle.std.specs.Option.{option_map_or};
ghost use Rattle.mm_model.specs.Names.{label_named};
ghost use Rattle.mm_model.specs.Sizes as spec;
ghost use Rattle.sheet_bind.specs.Sizes.{candidate_at, usable_at, size_at, standing_at, size_in};

use formula_parse::nodes;
use mm_base::{Label, Name, Tree};
use mm_database::Database;
use solve_model::BoundStep;

/// The nodes of trees, or 2^64 - 1 where there are more.
fn nodes_of(trees: &[Tree]) -> u64
    ensures { result ≡ min (sum (map spec.nodes trees.now)) (2 ^ 64 - 1) }
{
    let mut count: u64 = 0;
    for tree in trees {
        count = count.saturating_add(nodes(tree));
    }
    count
}

/// The label of the candidate that a step names.
fn candidate(db: &Database, place: u32, hyp: bool, reference: &Option<Name>) -> Option<Label>
    ensures { result ≡ candidate_at db.now place hyp reference.now }
{
    if hyp {
        return None;
    }
    match reference {
        None => None,
        Some(name) => usable_before(db, place, name.as_slice()),
    }
}

fn usable_before(db: &Database, place: u32, name: &[u8]) -> Option<Label>
    ensures { result ≡ option_and_then (usable_at db.now place) (label_named db.now.contents.labels name.now) }
{
    match db.frames().label(name) {
        None => None,
        Some(label) => usable_at(db, place, label),
    }
}

fn usable_at(db: &Database, place: u32, label: Label) -> Option<Label>
    ensures { result ≡ usable_at db.now place label }
{
    if is_before(db.frames().positions(), place, label) && db.usable(label) {
        Some(label)
    } else {
        None
    }
}

fn is_before(positions: &[u32], place: u32, label: Label) -> bool
    ensures { result ≡ nat_lt (slice_index_or positions.now label.0 0) place }
{
    match positions.get(label.0 as usize) {
        None => 0 < place,
        Some(position) => *position < place,
    }
}

/// The nodes of the assertion's trees, where it has as many `$e` as the step lists places.
fn candidate_size(db: &Database, label: Label, places: usize) -> u64
    ensures { result ≡ min (size_at db.now label places) (2 ^ 64 - 1) }
{
    if !db.usable(label) {
        return 0;
    }
    let hyps = db.hyp_trees(label).as_slice();
    if hyps.len() < places {
        return 0;
    }
    nodes(db.tree(label)).saturating_add(nodes_of(hyps))
}

/// The nodes of the trees of the assertion that a step names, or 2^64 - 1 where there are more: its formula's and those of
/// its `$e`. 0 where it names none, or one that is not usable before the place, or has fewer `$e` than the step lists
/// places.
pub fn standing_size(
    db: &Database,
    place: u32,
    hyp: bool,
    reference: &Option<Name>,
    places: usize,
) -> u64
    ensures { result ≡ min (standing_at db.now place hyp reference.now places) (2 ^ 64 - 1) }
{
    match candidate(db, place, hyp, reference) {
        None => 0,
        Some(label) => candidate_size(db, label, places),
    }
}

fn tree_size(tree: &Option<Tree>) -> u64
    ensures { result ≡ min (option_map_or spec.nodes tree.now 1) (2 ^ 64 - 1) }
{
    match tree {
        None => 1,
        Some(tree) => nodes(tree),
    }
}

fn step_size(db: &Database, place: u32, step: &BoundStep) -> u64
    ensures { result ≡ min (size_in db.now place step.now) (2 ^ 64 - 1) }
{
    let places = step.places.as_slice().len();
    let standing = standing_size(db, place, step.hyp, &step.reference, places);
    tree_size(&step.tree).saturating_add(standing)
}

/// The work size of a worksheet, or 2^64 - 1 where it is larger.
pub fn work_size(db: &Database, place: u32, steps: &[BoundStep]) -> u64
    ensures { result ≡ min (sum (map (size_in db.now place) steps.now)) (2 ^ 64 - 1) }
{
    let mut size: u64 = 0;
    for step in steps {
        size = size.saturating_add(step_size(db, place, step));
    }
    size
}
