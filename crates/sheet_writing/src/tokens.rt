ghost use Rattle.std.specs.Prelude.{◌≡◌, ◌++◌, map, IfOk, OnOk};
ghost use Rattle.sheet_writing.specs.Sheets.{leaf_in, name_at, tokens_in};

use formula_parse::text;
use mm_base::{List, Memory, Name, Sym, Tree};
use mm_database::Database;
use mm_frames::Frames;
use mm_model::Leaf;
use std::alloc::Global;
use work_vars::spelling;

/// The name of a symbol; no bytes where it is none of the database.
fn name_of(frames: &Frames, symbol: Sym) -> &[u8]
    ensures { result.now ≡ name_at frames.now.symbols symbol }
{
    if symbol.0 < frames.symbols() {
        frames.symbol_name(symbol)
    } else {
        b""
    }
}

/// The token of a symbol.
pub fn symbol_token(alloc: Global, frames: &Frames, symbol: Sym) -> Result<Name, Memory>
    ensures { IfOk result (λ token. token ≡ name_at frames.now.symbols symbol) }
{
    List::copy_of(alloc, name_of(frames, symbol))
}

/// The token of a leaf.
fn leaf_token(alloc: Global, frames: &Frames, leaf: Leaf) -> Result<Name, Memory>
    ensures { IfOk result (λ token. token ≡ leaf_in frames.now.symbols leaf) }
{
    match leaf {
        Leaf::Const(symbol) => symbol_token(alloc, frames, symbol),
        Leaf::Var(symbol, _) => symbol_token(alloc, frames, symbol),
        Leaf::Work(code, number) => spelling(alloc, name_of(frames, code.0), number),
    }
}

/// Puts in the tokens of leaves.
fn put_leaves(
    alloc: Global,
    frames: &Frames,
    tokens: &mut Vec<Name>,
    leaves: &[Leaf],
) -> Result<(), Memory>
    ensures { OnOk result (tokens.new.items ≡ tokens.old.items ++ map (leaf_in frames.now.symbols) leaves.now) }
{
    for leaf in leaves {
        tokens.push(leaf_token(alloc, frames, *leaf)?)?;
    }
    Ok(())
}

/// The tokens of the formula of a tree: the provable typecode, and the tree's text.
pub fn formula_tokens(
    alloc: Global,
    db: &Database,
    provable: &[u8],
    tree: &Tree,
) -> Result<List<Name>, Memory>
    ensures { IfOk result (λ tokens. tokens ≡ tokens_in db.now provable.now tree.now) }
{
    let leaves = text(alloc, db.grammar(), tree)?;
    let mut tokens = Vec::new(alloc);
    tokens.push(List::copy_of(alloc, provable)?)?;
    put_leaves(alloc, db.frames(), &mut tokens, leaves.as_slice())?;
    Ok(List::from_vec(tokens))
}
