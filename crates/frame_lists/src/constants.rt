//! Where constants are declared, and the typecodes of `$f`.

ghost use Rattle.std.specs.Prelude.{◌≡◌, ◌<◌, ◌^◌, ℕ, List, length, map, None, IfOk, OnOk};
ghost use Rattle.mm_model.specs.Names.{Name};
ghost use Rattle.mm_model.specs.Statements.{Statement, statements, statement_fault};
ghost use Rattle.mm_model.specs.Frames as spec;
ghost use Rattle.frame_lists.specs.Entries.{entry_in};
ghost use Rattle.frame_lists.specs.Listings.{constant_places, codes_of};
ghost use Rattle.frame_lists.specs.Places as place;

use crate::entry::{Entry, EntryKind, StatementKind, is_floating};
use mm_base::{List, Memory, Sym, Typecode};
use model_laws::statements_are_sound;
use std::alloc::Global;

fn is_constants(kind: EntryKind) -> bool
    ensures { result ≡ place.is_constants kind }
{
    matches!(kind, EntryKind::Statement(StatementKind::Constants))
}

/// Notes the number of a statement for a symbol that has none.
fn note_one(places: &mut [u32], symbol: u32, number: u32)
    ensures { places.new ≡ place.noted_more number places.old symbol }
{
    let at = symbol as usize;
    if at < places.len() && places[at] == u32::MAX {
        places[at] = number;
    }
}

/// Notes the number of a statement for those symbols that have none.
fn note(places: &mut [u32], symbols: &[Sym], number: u32)
    ensures { places.new ≡ place.noted number places.old symbols.now }
{
    for symbol in symbols {
        note_one(places, symbol.0, number);
    }
}

/// Notes the number of a statement for its symbols that have none, if it is a `$c`.
fn note_entry(places: &mut [u32], entry: &Entry, number: u32)
    ensures { places.new ≡ place.noted_entry number places.old entry.now }
{
    if is_constants(entry.kind) {
        note(places, entry.symbols.as_slice(), number);
    }
}

/// The numbers of the `$c` by symbol, of this many symbols.
fn places_of(alloc: Global, symbols: u32, entries: &[Entry]) -> Result<Vec<u32>, Memory>
    requires { length entries.now < 2 ^ 32 }
    ensures { IfOk result (λ v. v.items ≡ place.places_upto symbols entries.now (length entries.now)) }
{
    let mut places = vec![in alloc; u32::MAX; symbols as usize]?;
    for number in 0..entries.len() {
        note_entry(&mut places, &entries[number], number as u32);
    }
    Ok(places)
}

/// By symbol the number of the `$c` that declares it; `u32::MAX` where there is none. It takes one pass.
pub fn constant_places(alloc: Global, symbols: u32, entries: &[Entry]) -> Result<Vec<u32>, Memory>
    requires { length entries.now < 2 ^ 32 }
    ensures { (text : List ℕ) → statement_fault text ≡ None → symbols ≡ length (spec.symbols (statements text)) → entries.now ≡ map (entry_in (spec.symbols (statements text))) (statements text) → IfOk result (λ v. v.items ≡ constant_places (statements text)) }
{
    statements_are_sound();
    places_of(alloc, symbols, entries)
}

/// Adds the typecode of a `$f`.
fn add_code(codes: &mut Vec<Typecode>, entry: &Entry) -> Result<(), Memory>
    ensures { OnOk result (codes.new.items ≡ place.codes_more codes.old.items entry.now) }
{
    if is_floating(entry.kind) {
        match entry.symbols.as_slice().first() {
            None => {}
            Some(first) => codes.push(Typecode(*first))?,
        }
    }
    Ok(())
}

/// The typecodes of the `$f` among the statements, in order, with repeats.
pub fn float_codes(alloc: Global, entries: &[Entry]) -> Result<List<Typecode>, Memory>
    ensures { (names : List Name) (ss : List Statement) → entries.now ≡ map (entry_in names) ss → IfOk result (λ codes. codes ≡ codes_of names ss) }
{
    let mut codes = Vec::new(alloc);
    for entry in entries {
        add_code(&mut codes, entry)?;
    }
    Ok(List::from_vec(codes))
}
