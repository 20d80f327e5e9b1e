ghost use Rattle.std.specs.Prelude.{◌≡◌, [], fold, filter_map, IfOk, OnOk};
ghost use Rattle.mm_model.specs.Names.{symbol_named};
ghost use Rattle.sheet_bind.specs.Lists.{put_some};
ghost use Rattle.sheet_bind.specs.GivenPairs.{put_row, put_two, put_line};

use mm_base::{List, Memory, Name, Pair, Sym};
use mm_frames::Frames;
use pair_set::PairSet;
use sheet_text::PairLine;
use std::alloc::Global;

/// The symbols that tokens name.
pub fn symbols_of(alloc: Global, frames: &Frames, names: &[Name]) -> Result<Vec<Sym>, Memory>
    ensures { IfOk result (λ symbols. symbols.items ≡ filter_map (symbol_named frames.now.symbols) names.now) }
{
    let mut symbols = Vec::new(alloc);
    for name in names {
        let symbol = frames.symbol(name.as_slice());
        push_symbol(&mut symbols, symbol)?;
    }
    Ok(symbols)
}

fn push_symbol(symbols: &mut Vec<Sym>, symbol: Option<Sym>) -> Result<(), Memory>
    ensures { OnOk result (symbols.new.items ≡ put_some symbols.old.items symbol) }
{
    match symbol {
        None => Ok(()),
        Some(symbol) => {
            symbols.push(symbol)?;
            Ok(())
        }
    }
}

fn add_row(set: &mut PairSet, one: Sym, others: &[Sym]) -> Result<(), Memory>
    ensures { OnOk result (set.new ≡ put_row one set.old others.now) }
{
    for other in others {
        set.add(one, *other)?;
    }
    Ok(())
}

/// Puts in the pairs of any two of these symbols.
fn add_two(set: &mut PairSet, symbols: &[Sym]) -> Result<(), Memory>
    ensures { OnOk result (set.new ≡ put_two set.old symbols.now) }
{
    for (i, symbol) in symbols.iter().enumerate() {
        add_row(set, *symbol, &symbols[i + 1..])?;
    }
    Ok(())
}

fn add_line(
    alloc: Global,
    frames: &Frames,
    set: &mut PairSet,
    pair: &PairLine,
) -> Result<(), Memory>
    ensures { OnOk result (set.new ≡ put_line frames.now.symbols set.old pair.now) }
{
    let symbols = symbols_of(alloc, frames, pair.names.as_slice())?;
    add_two(set, symbols.as_slice())
}

fn given_set(alloc: Global, frames: &Frames, pairs: &[PairLine]) -> Result<PairSet, Memory>
    ensures { IfOk result (λ set. set ≡ fold (put_line frames.now.symbols) [] pairs.now) }
{
    let mut set = PairSet::new(alloc);
    for pair in pairs {
        add_line(alloc, frames, &mut set, pair)?;
    }
    Ok(set)
}

/// The pairs of the `$d` statements, each once, by lesser and then greater symbol number.
pub fn given_pairs(alloc: Global, frames: &Frames, pairs: &[PairLine]) -> Result<List<Pair>, Memory>
    ensures { IfOk result (λ list. list ≡ fold (put_line frames.now.symbols) [] pairs.now) }
{
    let set = given_set(alloc, frames, pairs)?;
    set.listed(alloc)
}
