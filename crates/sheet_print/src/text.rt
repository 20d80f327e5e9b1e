//! Writing the text of a worksheet.

ghost use Rattle.std.specs.Prelude.{◌≡◌, ℕ, List, [], ◌∷◌, ◌++◌, map, flat_map, if◌then◌else◌, unwrap_or, codes, IfOk, OnOk, length, ◌≤◌};
ghost use Rattle.std.specs.Option.{option_copied};
ghost use Rattle.std.specs.List.{join_with_byte};
ghost use Rattle.mm_base.specs.Limits.{most_sheet_bytes};
ghost use Rattle.sheet_text.specs.Layout.{ended, header_line, step_names, step_of_item, place_text, step_token, spaced, item_lines, pair_line, proof_lines, layout as layout_of};
ghost use Rattle.sheet_text.specs.Reads.{ReadsAs};
ghost use Rattle.sheet_text.specs.Spellable.{IsSpellable};
ghost use Rattle.written_model.specs.ReadBack.{IsOneLine};
ghost use Rattle.sheet_laws.specs.ReadAgain.{ReadsOnlyAs};
ghost use Rattle.sheet_print.specs.Pieces.{behind_spaces, behind_commas, names_of, shown, step_text, item_text, pair_text};

use mm_base::{Bytes, List, Memory, Name};
use sheet_laws::laid_out_reads_back;
use sheet_text::{Given, PairLine, Sheet, SheetItem, SheetStep};
use std::alloc::Global;

/// Appends a piece.
fn put(text: &mut Vec<u8>, piece: &[u8]) -> Result<(), Memory>
    ensures { OnOk result (text.new.items ≡ text.old.items ++ piece.now) }
{
    text.extend_from_slice(piece)?;
    Ok(())
}

/// Appends the tokens, each behind a space.
fn put_tokens(text: &mut Vec<u8>, tokens: &[Name]) -> Result<(), Memory>
    ensures { OnOk result (text.new.items ≡ text.old.items ++ behind_spaces tokens.now) }
{
    for token in tokens {
        put(text, b" ")?;
        put(text, token.as_slice())?;
    }
    Ok(())
}

/// The name of the step that a place takes, or `?`.
fn place_text<'a>(names: &[&'a [u8]], given: Given) -> &'a [u8]
    ensures { result.now ≡ place_text (shown names.now) given }
{
    match given {
        Given::Gap => b"?",
        Given::Step(number) => names.get(number as usize).copied().unwrap_or(b""),
    }
}

/// Appends the places, each behind a comma.
fn put_more_places(text: &mut Vec<u8>, names: &[&[u8]], places: &[Given]) -> Result<(), Memory>
    ensures { OnOk result (text.new.items ≡ text.old.items ++ behind_commas (map (place_text (shown names.now)) places.now)) }
{
    for given in places {
        put(text, b",")?;
        put(text, place_text(names, *given))?;
    }
    Ok(())
}

/// Appends the places, parted by commas.
fn put_places(text: &mut Vec<u8>, names: &[&[u8]], places: &[Given]) -> Result<(), Memory>
    ensures { OnOk result (text.new.items ≡ text.old.items ++ join_with_byte 44 (map (place_text (shown names.now)) places.now)) }
{
    if let Some((first, more)) = places.split_first() {
        put(text, place_text(names, *first))?;
        put_more_places(text, names, more)?;
    }
    Ok(())
}

/// The bytes of a name, where one is given.
pub(crate) fn name_or<'a>(name: &'a Option<Name>, other: &'a [u8]) -> &'a [u8]
    ensures { result.now ≡ unwrap_or name.now other.now }
{
    match name {
        Some(name) => name.as_slice(),
        None => other,
    }
}

/// Appends the first token of a step.
fn put_step_token(text: &mut Vec<u8>, names: &[&[u8]], step: &SheetStep) -> Result<(), Memory>
    ensures { OnOk result (text.new.items ≡ text.old.items ++ step_token (shown names.now) step.now) }
{
    if step.hyp {
        put(text, b"h")?;
    }
    put(text, step.name.as_slice())?;
    put(text, b":")?;
    put_places(text, names, step.places.as_slice())?;
    put(text, b":")?;
    put(text, name_or(&step.reference, b""))?;
    Ok(())
}

/// Appends the line of a step.
fn put_step(text: &mut Vec<u8>, names: &[&[u8]], step: &SheetStep) -> Result<(), Memory>
    ensures { OnOk result (text.new.items ≡ text.old.items ++ step_text (shown names.now) step.now) }
{
    put_step_token(text, names, step)?;
    put_tokens(text, step.formula.as_slice())?;
    put(text, b"\n")?;
    Ok(())
}

/// Appends the lines of a comment.
fn put_comment(text: &mut Vec<u8>, lines: &[Bytes]) -> Result<(), Memory>
    ensures { OnOk result (text.new.items ≡ text.old.items ++ flat_map ended lines.now) }
{
    for line in lines {
        put(text, line.as_slice())?;
        put(text, b"\n")?;
    }
    Ok(())
}

/// Appends the lines of an item.
fn put_item(text: &mut Vec<u8>, names: &[&[u8]], item: &SheetItem) -> Result<(), Memory>
    ensures { OnOk result (text.new.items ≡ text.old.items ++ item_text (shown names.now) item.now) }
{
    match item {
        SheetItem::Comment(lines) => put_comment(text, lines.as_slice()),
        SheetItem::Step(step) => put_step(text, names, step),
    }
}

/// Appends the lines of the comments and steps.
fn put_items(text: &mut Vec<u8>, names: &[&[u8]], items: &[SheetItem]) -> Result<(), Memory>
    ensures { OnOk result (text.new.items ≡ text.old.items ++ flat_map (item_text (shown names.now)) items.now) }
{
    for item in items {
        put_item(text, names, item)?;
    }
    Ok(())
}

/// Appends the header's line.
fn put_header(text: &mut Vec<u8>, sheet: &Sheet) -> Result<(), Memory>
    ensures { OnOk result (text.new.items ≡ text.old.items ++ ended (header_line sheet.now)) }
{
    put(text, b"$( <MM> <PROOF_ASST> THEOREM=")?;
    put(text, sheet.theorem.as_slice())?;
    put(text, b" LOC_AFTER=")?;
    put(text, name_or(&sheet.loc, b"?"))?;
    put(text, b"\n")?;
    Ok(())
}

/// Appends the line of the proof, where there is one.
fn put_proof(text: &mut Vec<u8>, proof: Option<&[u8]>) -> Result<(), Memory>
    ensures { OnOk result (text.new.items ≡ text.old.items ++ flat_map ended (proof_lines (option_copied proof.entry))) }
{
    if let Some(proof) = proof {
        put(text, b"$= ")?;
        put(text, proof)?;
        put(text, b" $.\n")?;
    }
    Ok(())
}

/// Appends the line of a `$d` statement.
fn put_pair(text: &mut Vec<u8>, pair: &PairLine) -> Result<(), Memory>
    ensures { OnOk result (text.new.items ≡ text.old.items ++ pair_text pair.now) }
{
    put(text, b"$d")?;
    put_tokens(text, pair.names.as_slice())?;
    put(text, b"\n")?;
    Ok(())
}

/// Appends the lines of the `$d` statements.
fn put_pairs(text: &mut Vec<u8>, pairs: &[PairLine]) -> Result<(), Memory>
    ensures { OnOk result (text.new.items ≡ text.old.items ++ flat_map pair_text pairs.now) }
{
    for pair in pairs {
        put_pair(text, pair)?;
    }
    Ok(())
}

/// The names of the steps, in order.
fn step_names<'a>(alloc: Global, items: &'a [SheetItem]) -> Result<Vec<&'a [u8]>, Memory>
    ensures { IfOk result (λ names. shown names.items ≡ names_of items.now) }
{
    let mut names = Vec::new(alloc);
    for item in items {
        match item {
            SheetItem::Comment(_) => {}
            SheetItem::Step(step) => names.push(step.name.as_slice())?,
        }
    }
    Ok(names)
}

/// The text that a worksheet is written as, each line ended by LF and the tokens parted by one space: the header, the
/// comments and steps, the proof's line where a proof is given, the `$d` statements and the footer. The proof is written as
/// it is, and a place that names no step is written as no bytes. Where the grammar can spell the worksheet and the proof has
/// no LF, the text has none of the faults 40 to 49 and reads as the worksheet, but for the numbers of its lines; where it has
/// at most 2^24 bytes it has no fault at all. `Memory` where memory runs out. Time and memory are in proportion to the text.
pub fn layout(alloc: Global, sheet: &Sheet, proof: Option<&[u8]>) -> Result<Bytes, Memory>
    ensures text { IfOk result (λ text. text ≡ layout_of sheet.now (option_copied proof.entry)) }
    ensures back { IfOk result (λ text. IsSpellable sheet.now → IsOneLine (option_copied proof.entry) → ReadsAs text sheet.now) }
    ensures only { IfOk result (λ text. IsSpellable sheet.now → IsOneLine (option_copied proof.entry) → length text ≤ most_sheet_bytes → ReadsOnlyAs text sheet.now) }
{
    laid_out_reads_back();
    let names = step_names(alloc, sheet.items.as_slice())?;
    let mut text = Vec::new(alloc);
    put_header(&mut text, sheet)?;
    put_items(&mut text, names.as_slice(), sheet.items.as_slice())?;
    put_proof(&mut text, proof)?;
    put_pairs(&mut text, sheet.pairs.as_slice())?;
    put(&mut text, b"$)\n")?;
    Ok(List::from_vec(text))
}
