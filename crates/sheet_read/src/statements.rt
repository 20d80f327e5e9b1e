//! The parts of a step and of a `$d` statement.

ghost use Rattle.std.specs.Prelude.{◌≡◌, ◌≤◌, ◌∷◌, List, ℕ, None, Some, true, IfOk, IfSome, IfNone, length, drop, map, take_while, not};
ghost use Rattle.std.specs.List.{list_any, prefix_len};
ghost use Rattle.mm_model.specs.Names.{has_twice};
ghost use Rattle.sheet_text.specs.Lines.{begins};
ghost use Rattle.sheet_text.specs.Forms.{entry_of, parts_of, step_of, reference_of};
ghost use Rattle.sheet_text.specs.TextFaults.{is_end, without_end, symbols_of, is_bad_distinct};
ghost use Rattle.sheet_text.specs.Reads.{given_of};
ghost use Rattle.sheet_read.specs.Parts.{line_in, lines_in, targets, step_in_form};
ghost use Rattle.sheet_read.specs.Reading.{is_unknown, AreGiven};

use crate::forms::{StepHead, is_gap, parts_of, step_head};
use crate::lines::{TextLine, begins};
use indexmap::IndexSet;
use mm_base::{Bytes, List, Memory, Name};
use mm_model::is_label;
use names::Names;
use sheet_text::Given;
use std::alloc::Global;

#[tactic(auto, using(crate::proofs::Sets::lengths))]
fn count_indented(lines: &[TextLine<'_>]) -> usize
    ensures count { result ≡ prefix_len (λ t. not (begins (line_in t))) lines.now }
    ensures within { result ≤ length lines.now }
{
    lines.iter().take_while(|line| !begins(line.bytes)).count()
}

/// The lines at the front that belong to the statement before them.
pub fn indented<'l, 'a>(lines: &'l [TextLine<'a>]) -> &'l [TextLine<'a>]
    ensures { lines_in result.now ≡ take_while (λ m. not (begins m)) (lines_in lines.now) }
{
    &lines[..count_indented(lines)]
}

/// The lines of a comment.
pub fn comment_lines(
    alloc: Global,
    first: &TextLine<'_>,
    more: &[TextLine<'_>],
) -> Result<List<Bytes>, Memory>
    ensures { IfOk result (λ ls. ls ≡ first.now.bytes.now ∷ map (λ l. l.bytes) (lines_in more.now)) }
{
    let mut lines = Vec::new(alloc);
    lines.push(List::copy_of(alloc, first.bytes)?)?;
    for line in more {
        lines.push(List::copy_of(alloc, line.bytes)?)?;
    }
    Ok(List::from_vec(lines))
}

/// Copies of tokens.
pub fn names_of(alloc: Global, tokens: &[&[u8]]) -> Result<List<Name>, Memory>
    ensures { IfOk result (λ ns. ns ≡ targets tokens.now) }
{
    let mut names = Vec::new(alloc);
    for token in tokens {
        names.push(List::copy_of(alloc, *token)?)?;
    }
    Ok(List::from_vec(names))
}

// ---- `$d`

fn is_end(token: &[u8]) -> bool
    ensures { result ≡ is_end token.now }
{
    token == b"$.".as_slice()
}

/// The tokens without a last `$.`.
fn without_end<'l, 'a>(tokens: &'l [&'a [u8]]) -> &'l [&'a [u8]]
    ensures { targets result.now ≡ without_end (targets tokens.now) }
{
    let len = tokens.len();
    if len == 0 {
        return tokens;
    }
    if is_end(tokens[len - 1]) {
        &tokens[..len - 1]
    } else {
        tokens
    }
}

/// The symbols of a `$d`, by all its tokens.
pub fn symbols_of<'l, 'a>(tokens: &'l [&'a [u8]]) -> &'l [&'a [u8]]
    ensures { targets result.now ≡ symbols_of (targets tokens.now) }
{
    if tokens.is_empty() {
        return tokens;
    }
    without_end(&tokens[1..])
}

/// Whether some token stands twice.
fn has_twice(alloc: Global, tokens: &[&[u8]]) -> Result<bool, Memory>
    ensures { IfOk result (λ b. b ≡ has_twice (targets tokens.now)) }
{
    let mut seen = IndexSet::new(alloc);
    for token in tokens {
        if !seen.insert(*token)? {
            return Ok(true);
        }
    }
    Ok(false)
}

fn has_end(tokens: &[&[u8]]) -> bool
    ensures { result ≡ list_any (λ t. is_end t.now) tokens.now }
{
    tokens.iter().any(|token| is_end(*token))
}

/// Whether these are no symbols of a `$d`.
pub fn is_bad_distinct(alloc: Global, symbols: &[&[u8]]) -> Result<bool, Memory>
    ensures { IfOk result (λ b. b ≡ is_bad_distinct (targets symbols.now)) }
{
    if symbols.len() < 2 {
        return Ok(true);
    }
    if has_twice(alloc, symbols)? {
        return Ok(true);
    }
    Ok(has_end(symbols))
}

// ---- steps

/// What the first of the tokens says, where they are a step.
pub fn head_of<'a>(tokens: &[&'a [u8]]) -> Option<StepHead<'a>>
    ensures none { IfNone result (step_of (targets tokens.now) ≡ None) }
    ensures form { IfSome result (λ h. step_of (targets tokens.now) ≡ Some (step_in_form h (drop 1 (targets tokens.now)))) }
{
    if tokens.is_empty() {
        return None;
    }
    step_head(tokens[0])
}

/// The tokens behind the first.
pub fn formula_of<'l, 'a>(tokens: &'l [&'a [u8]]) -> &'l [&'a [u8]]
    ensures { targets result.now ≡ drop 1 (targets tokens.now) }
{
    if tokens.is_empty() {
        return tokens;
    }
    &tokens[1..]
}

/// The reference, where it is a label.
pub fn reference_of(alloc: Global, bytes: &[u8]) -> Result<Option<Name>, Memory>
    ensures { IfOk result (λ r. r ≡ reference_of bytes.now) }
{
    if is_label(bytes) {
        Ok(Some(List::copy_of(alloc, bytes)?))
    } else {
        Ok(None)
    }
}

/// The place that an entry is; none where it names no earlier step.
fn given_of(names: &Names, entry: &[u8]) -> Option<Given>
    ensures none { IfNone result ((more : List (List ℕ)) → is_unknown names.now (map entry_of (entry.now ∷ more)) ≡ true) }
    ensures known { IfSome result (λ g. (more : List (List ℕ)) → is_unknown names.now (map entry_of (entry.now ∷ more)) ≡ is_unknown names.now (map entry_of more)) }
    ensures given { IfSome result (λ g. g ≡ given_of names.now (entry_of entry.now)) }
{
    if is_gap(entry) {
        return Some(Given::Gap);
    }
    match names.number(entry) {
        None => None,
        Some(number) => Some(Given::Step(number)),
    }
}

/// The places that entries are; none where one names no earlier step.
fn givens(alloc: Global, names: &Names, entries: &[&[u8]]) -> Result<Option<List<Given>>, Memory>
    ensures { IfOk result (λ o. AreGiven names.now (targets entries.now) o) }
{
    let mut given = Vec::new(alloc);
    for entry in entries {
        match given_of(names, *entry) {
            None => return Ok(None),
            Some(place) => given.push(place)?,
        }
    }
    Ok(Some(List::from_vec(given)))
}

/// The places that a step lists; none where one names no earlier step.
pub fn places_of(alloc: Global, names: &Names, places: &[u8]) -> Result<Option<List<Given>>, Memory>
    ensures { IfOk result (λ o. AreGiven names.now (parts_of places.now) o) }
{
    let entries = parts_of(alloc, places)?;
    givens(alloc, names, entries.as_slice())
}
