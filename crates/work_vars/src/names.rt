ghost use Rattle.std.specs.Prelude.{◌≡◌, ◌≢◌, ℕ, ◌-◌, ◌<◌, ◌≤◌, ◌^◌, List, length, drop, slice_index, true, false, decimal, IfOk, MatchOption};
ghost use Rattle.std.specs.Str.{all_ascii_digits};
ghost use Rattle.std.specs.Char.{is_ascii_digit};
ghost use Rattle.solve_model.specs.Formulas.{prefix_of, spelling as spelling_of, work_number as work_number_by};
ghost use Rattle.work_vars.specs.Spelled.{has_letter, number_by, IsNamedBy};

use crate::numbers::read_number;
use itoa::Buffer;
use mm_base::{List, Memory, Name};
use std::alloc::Global;

/// What stands before the number in the names of a typecode's work variables.
fn prefix(alloc: Global, code: &[u8]) -> Result<Vec<u8>, Memory>
    ensures { IfOk result (λ bytes. bytes.items ≡ prefix_of code.now) }
{
    if code == b"wff".as_slice() {
        return Ok(Vec::from_slice(alloc, b"&W")?);
    }
    if code == b"setvar".as_slice() {
        return Ok(Vec::from_slice(alloc, b"&S")?);
    }
    if code == b"class".as_slice() {
        return Ok(Vec::from_slice(alloc, b"&C")?);
    }
    let mut bytes = Vec::from_slice(alloc, b"&")?;
    bytes.extend_from_slice(code)?;
    bytes.push(b'.')?;
    Ok(bytes)
}

/// The name of a work variable, by its typecode's name and its number, from 1: `&W1`, `&S1` and `&C1` for `wff`, `setvar`
/// and `class`, and `&T.1` for another typecode T. It takes memory for the name. `Memory`: there is no room for it.
pub fn spelling(alloc: Global, code: &[u8], number: u32) -> Result<Name, Memory>
    ensures { IfOk result (λ name. name ≡ spelling_of code.now number) }
{
    let mut name = prefix(alloc, code)?;
    let mut buffer = Buffer::new();
    name.extend_from_slice(buffer.format(number).as_bytes())?;
    Ok(List::from_vec(name))
}

/// Where the digits begin with which a token ends.
fn number_place(token: &[u8]) -> usize
    ensures inside { result ≤ length token.now }
    ensures digits { all_ascii_digits (drop result token.now) ≡ true }
    ensures before { 0 < result → is_ascii_digit (slice_index token.now (result - 1)) ≡ false }
{
    let mut place = token.len();
    while 0 < place && token[place - 1].is_ascii_digit() {
        place -= 1;
    }
    place
}

/// The typecode whose work variables' names begin so.
fn code_of(prefix: &[u8]) -> Option<&[u8]>
    ensures { MatchOption result ((code : List ℕ) → prefix_of code ≢ prefix.now) (λ code. prefix_of code.now ≡ prefix.now) }
{
    if prefix == b"&W".as_slice() {
        return Some(b"wff");
    }
    if prefix == b"&S".as_slice() {
        return Some(b"setvar");
    }
    if prefix == b"&C".as_slice() {
        return Some(b"class");
    }
    let code = prefix
        .strip_prefix(b"&".as_slice())?
        .strip_suffix(b".".as_slice())?;
    if is_short(code) { None } else { Some(code) }
}

/// Whether the names of a typecode's work variables have a letter in place of the typecode.
fn is_short(code: &[u8]) -> bool
    ensures { result ≡ has_letter code.now }
{
    code == b"wff".as_slice() || code == b"setvar".as_slice() || code == b"class".as_slice()
}

/// The number of a work variable, by its digits.
fn work_number(digits: &[u8]) -> Option<u32>
    ensures { MatchOption result ((n : ℕ) → 1 ≤ n → n < 2 ^ 32 → digits.now ≢ decimal n)
        (λ n. (1 ≤ n) × (n < 2 ^ 32) × (digits.now ≡ decimal n)) }
{
    match u32::try_from(read_number(digits)?) {
        Ok(0) => None,
        Ok(number) => Some(number),
        Err(_) => None,
    }
}

/// The work variable whose name a token is: its typecode's name and its number. None where it is no such name, as where
/// the number has a leading zero, is 0 or is above 2^32 - 1. It takes memory for the typecode's name. `Memory`: there is no
/// room for it.
pub fn read_name(alloc: Global, token: &[u8]) -> Result<Option<(Name, u32)>, Memory>
    ensures named { IfOk result (λ name. IsNamedBy token.now name) }
    ensures number { IfOk result (λ name. (code : List ℕ) → work_number_by code token.now ≡ number_by code name) }
{
    let place = number_place(token);
    let Some(code) = code_of(&token[..place]) else {
        return Ok(None);
    };
    let Some(number) = work_number(&token[place..]) else {
        return Ok(None);
    };
    let code = Vec::from_slice(alloc, code)?;
    Ok(Some((List::from_vec(code), number)))
}
