//! The forms of a header and of a step's first token.

ghost use Rattle.std.specs.Prelude.{◌≡◌, ◌≢◌, ◌==◌, ◌&&◌, [], ◌∷◌, List, ℕ, None, Some, IfOk, IfSome, IfNone, length, option_map, position, codes};
ghost use Rattle.std.specs.List.{list_all, slice_split};
ghost use Rattle.std.specs.Str.{bytes_eq};
ghost use Rattle.sheet_text.specs.Forms.{is_gap, is_entry, after_prefix, loc_of, loc_in, header_of, step_of, is_reference, parts_of, marked_name};
ghost use Rattle.sheet_read.specs.Parts.{targets, target, header_in, step_in_form};

use mm_base::Memory;
use mm_model::is_label;
use std::alloc::{AllocError, Global};

/// A header: the theorem's name, and the label of LOC_AFTER where one is given.
#[derive(Clone, Copy, Debug)]
pub struct HeaderForm<'a> {
    pub theorem: &'a [u8],
    pub loc: Option<&'a [u8]>,
}

/// The first token of a step.
#[derive(Clone, Copy, Debug)]
pub struct StepHead<'a> {
    /// Whether it is a hypothesis.
    pub hyp: bool,
    /// The name, without the `h` of a hypothesis.
    pub name: &'a [u8],
    /// Nothing, or entries parted by commas.
    pub places: &'a [u8],
    /// A label, `?` or nothing.
    pub reference: &'a [u8],
}

/// Whether bytes are `?`.
pub fn is_gap(bytes: &[u8]) -> bool
    ensures { result ≡ is_gap bytes.now }
{
    bytes == b"?".as_slice()
}

fn is_entry(bytes: &[u8]) -> bool
    ensures { result ≡ is_entry bytes.now }
{
    is_gap(bytes) || is_label(bytes)
}

/// What follows a prefix.
fn after_prefix<'a>(prefix: &[u8], bytes: &'a [u8]) -> Option<&'a [u8]>
    ensures { target result ≡ after_prefix prefix.now bytes.now }
{
    if bytes.starts_with(prefix) {
        Some(&bytes[prefix.len()..])
    } else {
        None
    }
}

/// What LOC_AFTER gives: nothing, `?` or a label.
fn loc_of(bytes: &[u8]) -> Option<Option<&[u8]>>
    ensures { option_map target result ≡ loc_of bytes.now }
{
    if bytes.is_empty() || is_gap(bytes) {
        Some(None)
    } else if is_label(bytes) {
        Some(Some(bytes))
    } else {
        None
    }
}

/// What LOC_AFTER gives in the tokens behind the theorem's name: there is at most one.
fn loc_in<'a>(tokens: &[&'a [u8]]) -> Option<Option<&'a [u8]>>
    ensures { option_map target result ≡ loc_in (targets tokens.now) }
{
    if tokens.is_empty() {
        return Some(None);
    }
    if tokens.len() > 1 {
        return None;
    }
    match after_prefix(b"LOC_AFTER=", tokens[0]) {
        None => None,
        Some(loc) => loc_of(loc),
    }
}

/// Whether the first three tokens are `$(`, `<MM>` and `<PROOF_ASST>`.
fn opens_header(a: &[u8], b: &[u8], c: &[u8]) -> bool
    ensures { result ≡ (bytes_eq a.now (codes "$(") && bytes_eq b.now (codes "<MM>") && bytes_eq c.now (codes "<PROOF_ASST>")) }
{
    a == b"$(".as_slice() && b == b"<MM>".as_slice() && c == b"<PROOF_ASST>".as_slice()
}

/// The header that tokens are; none where they have another form.
pub fn header_form<'a>(tokens: &[&'a [u8]]) -> Option<HeaderForm<'a>>
    ensures { option_map header_in result ≡ header_of (targets tokens.now) }
{
    if tokens.len() < 4 {
        return None;
    }
    if !opens_header(tokens[0], tokens[1], tokens[2]) {
        return None;
    }
    let theorem = after_prefix(b"THEOREM=", tokens[3])?;
    let loc = loc_in(&tokens[4..])?;
    if theorem.is_empty() {
        return None;
    }
    Some(HeaderForm { theorem, loc })
}

fn position_of(bytes: &[u8], byte: u8) -> Option<usize>
    ensures { result ≡ position (λ b. b == byte) bytes.now }
{
    bytes.iter().position(|b| *b == byte)
}

/// The bytes before and behind the first of these bytes; none where it is not among them.
fn split_once(bytes: &[u8], byte: u8) -> Option<(&[u8], &[u8])>
    ensures none { IfNone result (slice_split (λ b. b == byte) bytes.now ≡ bytes.now ∷ []) }
    ensures parts { IfSome result (λ p. slice_split (λ b. b == byte) bytes.now ≡ p.0.now ∷ slice_split (λ b. b == byte) p.1.now) }
{
    match position_of(bytes, byte) {
        None => None,
        Some(at) => Some((&bytes[..at], &bytes[at + 1..])),
    }
}

/// The name, the places and the reference of a token with exactly two colons.
fn step_parts(token: &[u8]) -> Option<(&[u8], &[u8], &[u8])>
    ensures none { IfNone result (length (slice_split (λ b. b == 58) token.now) ≢ 3) }
    ensures parts { IfSome result (λ p. slice_split (λ b. b == 58) token.now ≡ p.0.now ∷ p.1.now ∷ p.2.now ∷ []) }
{
    let (name, rest) = split_once(token, b':')?;
    let (places, reference) = split_once(rest, b':')?;
    match split_once(reference, b':') {
        None => Some((name, places, reference)),
        Some(_) => None,
    }
}

fn split_at_commas<'a>(alloc: Global, bytes: &'a [u8]) -> Result<Vec<&'a [u8]>, AllocError>
    ensures { IfOk result (λ ps. targets ps.items ≡ slice_split (λ b. b == 44) bytes.now) }
{
    bytes.split(|b| *b == b',').collect(alloc)
}

/// The entries between the commas; no bytes are no entries.
pub fn parts_of<'a>(alloc: Global, places: &'a [u8]) -> Result<Vec<&'a [u8]>, Memory>
    ensures { IfOk result (λ ps. targets ps.items ≡ parts_of places.now) }
{
    if places.is_empty() {
        return Ok(Vec::new(alloc));
    }
    Ok(split_at_commas(alloc, places)?)
}

fn are_entries(places: &[u8]) -> bool
    ensures { result ≡ list_all is_entry (parts_of places.now) }
{
    places.is_empty() || places.split(|b| *b == b',').all(is_entry)
}

fn is_reference(hyp: bool, bytes: &[u8]) -> bool
    ensures { result ≡ is_reference hyp bytes.now }
{
    is_label(bytes) || (!hyp && (bytes.is_empty() || is_gap(bytes)))
}

/// Whether the leading `h` of a hypothesis stands, and the name.
fn marked_name(bytes: &[u8]) -> (bool, &[u8])
    ensures hyp { result.0 ≡ (marked_name bytes.now).0 }
    ensures name { result.1.now ≡ (marked_name bytes.now).1 }
{
    if !bytes.is_empty() && bytes[0] == b'h' {
        (true, &bytes[1..])
    } else {
        (false, bytes)
    }
}

/// What the first token of a step says; none where it has another form.
pub fn step_head(token: &[u8]) -> Option<StepHead<'_>>
    ensures none { IfNone result ((formula : List (List ℕ)) → step_of (token.now ∷ formula) ≡ None) }
    ensures form { IfSome result (λ h. (formula : List (List ℕ)) → step_of (token.now ∷ formula) ≡ Some (step_in_form h formula)) }
{
    let (marked, places, reference) = step_parts(token)?;
    let (hyp, name) = marked_name(marked);
    if !is_label(name) || !are_entries(places) || !is_reference(hyp, reference) {
        return None;
    }
    Some(StepHead {
        hyp,
        name,
        places,
        reference,
    })
}
