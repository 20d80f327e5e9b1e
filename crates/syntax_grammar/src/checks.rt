ghost use Rattle.std.specs.Prelude.{◌↔◌, ◌≡◌, ◌==◌, ◌≤◌, ◌<◌, ◌+◌, length, IsTrue};
ghost use Rattle.std.specs.List.{list_any};
ghost use Rattle.mm_model.specs.Rows.{AreRows, EachOnce, IsRow, LabelsDiffer, slot_order, place_of};
ghost use Rattle.mm_model.specs.declared.rows.Production.{Production};
ghost use Rattle.syntax_grammar.specs.Checks as spec;

use mm_base::List;
use mm_model::{Item, Production};

/// Where a slot stands among the slots of a text, from 0. Their number where it does not stand there.
pub fn slot_place(slot: usize, items: &[Item]) -> usize
    ensures place { result ≡ place_of slot (slot_order items.now) }
    ensures within { result < length items.now + 1 }
{
    match items {
        [] => 0,
        [Item::Const(_), rest @ ..] => slot_place(slot, rest),
        [Item::Slot(other), rest @ ..] => if *other as usize == slot {
            0
        } else {
            slot_place(slot, rest) + 1
        },
    }
}

/// The number of the slots of a text.
fn slot_count(items: &[Item]) -> usize
    ensures count { result ≡ length (slot_order items.now) }
    ensures within { result ≤ length items.now }
{
    match items {
        [] => 0,
        [Item::Const(_), rest @ ..] => slot_count(rest),
        [Item::Slot(_), rest @ ..] => slot_count(rest) + 1,
    }
}

/// Whether the slots of the last items are some of the production's, and none of them stands in the text before.
fn stand_first(all: &[Item], rest: &[Item], at: usize, slots: usize) -> bool
    requires { at + length rest.now ≤ length all.now }
    ensures { result ≡ spec.stand_first (slot_order all.now) (slot_order rest.now) at slots }
{
    match rest {
        [] => true,
        [Item::Const(_), more @ ..] => stand_first(all, more, at, slots),
        [Item::Slot(slot), more @ ..] => {
            (*slot as usize) < slots
                && slot_place(*slot as usize, all) == at
                && stand_first(all, more, at + 1, slots)
        }
    }
}

/// Whether the first slots of the production stand in its text.
fn all_stand(items: &[Item], slots: usize) -> bool
    ensures { result ≡ spec.all_stand (slot_order items.now) slots }
{
    slots == 0 || all_stand(items, slots - 1) && slot_place(slots - 1, items) < slot_count(items)
}

/// Whether each of the production's slots stands in its text once, and no other does.
fn stand_once(items: &[Item], slots: usize) -> bool
    ensures { IsTrue result ↔ EachOnce slots (slot_order items.now) }
{
    stand_first(items, items, 0, slots) && all_stand(items, slots)
}

/// Whether the production has a text, in which each of its slots stands once.
fn is_row(row: &Production) -> bool
    ensures { IsTrue result ↔ IsRow row.now }
{
    let items = row.items.as_slice();
    if items.is_empty() {
        return false;
    }
    stand_once(items, row.slots.as_slice().len())
}

/// Whether one of the productions has the label of another.
fn has_label_of(rows: &[Production], other: &Production) -> bool
    ensures { result ≡ list_any (λ (r : Production). r.label.0 == other.now.label.0) rows.now }
{
    rows.iter().any(|row| row.label == other.label)
}

/// Whether no two of the productions have one label.
fn labels_differ(rows: &[Production]) -> bool
    ensures { IsTrue result ↔ LabelsDiffer rows.now }
{
    for k in 0..rows.len() {
        if has_label_of(&rows[..k], &rows[k]) {
            return false;
        }
    }
    true
}

/// Whether these are rows of which a grammar can be made: each has a text in which each of its slots stands once, and
/// their labels differ. It takes time that grows with the square of their number.
pub fn are_rows(rows: &List<Production>) -> bool
    ensures { IsTrue result ↔ AreRows rows.now }
{
    rows.as_slice().iter().all(|row| is_row(row)) && labels_differ(rows.as_slice())
}
