ghost use Rattle.std.specs.Prelude.{◌≡◌, ◌≤◌, length, slice_index_or, find, option_map, is_some, None, IfOk, OnOk};
ghost use Rattle.sheet_bind.specs.Lists.{put_some};
ghost use Rattle.std.specs.Str.{bytes_eq};
ghost use Rattle.mm_model.specs.declared.rows.Leaf.TheVariants as leaf;
ghost use Rattle.sheet_bind.specs.Named.{leaf_named};
ghost use Rattle.sheet_bind.specs.Seen as spec;
ghost use Rattle.sheet_bind.specs.Seen.{name_in, leaf_at, are_known, expression_at};

use crate::setting::Setting;
use crate::symbols::is_named;
use mm_base::{List, Memory, Name, Sym, Typecode};
use mm_frames::Frames;
use mm_model::Leaf;
use std::alloc::Global;
use work_vars::read_name;

/// What a symbol of the database is at the place.
pub fn symbol_leaf(frames: &Frames, setting: &Setting, symbol: Sym) -> Option<Leaf>
    ensures { result ≡ spec.symbol_leaf frames.now.constants setting.now symbol }
{
    if is_constant(frames.constants(), setting.place, symbol) {
        return Some(Leaf::Const(symbol));
    }
    if !is_variable(setting, symbol) {
        return None;
    }
    match code_of(setting, symbol) {
        None => None,
        Some(code) => Some(Leaf::Var(symbol, code)),
    }
}

/// Whether a constant is declared below a place, where these are the numbers of the `$c` by symbol.
pub fn is_constant(constants: &[u32], place: u32, symbol: Sym) -> bool
    ensures { result ≡ spec.is_constant_below constants.now place symbol }
{
    match constants.get(symbol.0 as usize) {
        None => u32::MAX < place,
        Some(declared) => *declared < place,
    }
}

/// Whether a symbol is a variable active at the place.
pub fn is_variable(setting: &Setting, symbol: Sym) -> bool
    ensures { result ≡ spec.is_variable_in setting.now symbol }
{
    match setting.variables.as_slice().get(symbol.0 as usize) {
        None => false,
        Some(marked) => *marked,
    }
}

fn code_of(setting: &Setting, symbol: Sym) -> Option<Typecode>
    ensures { result ≡ slice_index_or setting.now.codes symbol.0 None }
{
    match setting.codes.as_slice().get(symbol.0 as usize) {
        None => None,
        Some(code) => *code,
    }
}

/// The first of these typecodes that has a name.
fn code_named(frames: &Frames, codes: &[Typecode], name: &[u8]) -> Option<Typecode>
    ensures { result ≡ find (λ (c : Typecode). bytes_eq (name_in frames.now.symbols c.0) name.now) codes.now }
{
    codes
        .iter()
        .copied()
        .find(|code| is_named(frames, code.0, name))
}

/// The work variable that a token names.
fn work_leaf(
    alloc: Global,
    frames: &Frames,
    codes: &[Typecode],
    token: &[u8],
) -> Result<Option<Leaf>, Memory>
    ensures { IfOk result (λ o. o ≡ spec.work_leaf frames.now.symbols codes.now token.now) }
{
    let name = read_name(alloc, token)?;
    Ok(leaf_named(frames, codes, &name))
}

fn leaf_named(frames: &Frames, codes: &[Typecode], name: &Option<(Name, u32)>) -> Option<Leaf>
    ensures { result ≡ leaf_named frames.now.symbols codes.now name.now }
{
    match name {
        None => None,
        Some(named) => work_of(frames, codes, named.0.as_slice(), named.1),
    }
}

fn work_of(frames: &Frames, codes: &[Typecode], name: &[u8], number: u32) -> Option<Leaf>
    ensures { result ≡ option_map (λ c. leaf.Work c number)
        (find (λ (c : Typecode). bytes_eq (name_in frames.now.symbols c.0) name.now) codes.now) }
{
    match code_named(frames, codes, name) {
        None => None,
        Some(code) => Some(Leaf::Work(code, number)),
    }
}

/// What a token of a formula is at the place.
pub fn leaf_of(
    alloc: Global,
    frames: &Frames,
    setting: &Setting,
    token: &[u8],
) -> Result<Option<Leaf>, Memory>
    ensures { IfOk result (λ o. o ≡ leaf_at frames.now setting.now token.now) }
{
    match frames.symbol(token) {
        Some(symbol) => Ok(symbol_leaf(frames, setting, symbol)),
        None => work_leaf(alloc, frames, setting.work.as_slice(), token),
    }
}

/// Whether each token is something at the place.
pub fn all_known(
    alloc: Global,
    frames: &Frames,
    setting: &Setting,
    tokens: &[Name],
) -> Result<bool, Memory>
    ensures { IfOk result (λ known. known ≡ are_known frames.now setting.now tokens.now) }
{
    for token in tokens {
        if !is_known(alloc, frames, setting, token.as_slice())? {
            return Ok(false);
        }
    }
    Ok(true)
}

fn is_known(alloc: Global, frames: &Frames, setting: &Setting, token: &[u8]) -> Result<bool, Memory>
    ensures { IfOk result (λ known. known ≡ is_some (leaf_at frames.now setting.now token.now)) }
{
    let leaf = leaf_of(alloc, frames, setting, token)?;
    Ok(leaf.is_some())
}

/// What the tokens are, where each is something.
pub fn expression(
    alloc: Global,
    frames: &Frames,
    setting: &Setting,
    tokens: &[Name],
) -> Result<List<Leaf>, Memory>
    ensures leaves { IfOk result (λ leaves. leaves ≡ expression_at frames.now setting.now tokens.now) }
    ensures few { IfOk result (λ leaves. length leaves ≤ length tokens.now) }
{
    let mut leaves = Vec::new(alloc);
    for token in tokens {
        let leaf = leaf_of(alloc, frames, setting, token.as_slice())?;
        push_leaf(&mut leaves, leaf)?;
    }
    Ok(List::from_vec(leaves))
}

fn push_leaf(leaves: &mut Vec<Leaf>, leaf: Option<Leaf>) -> Result<(), Memory>
    ensures { OnOk result (leaves.new.items ≡ put_some leaves.old.items leaf) }
{
    match leaf {
        None => Ok(()),
        Some(leaf) => {
            leaves.push(leaf)?;
            Ok(())
        }
    }
}
