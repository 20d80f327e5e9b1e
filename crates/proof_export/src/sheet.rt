//! The statements of a worksheet.

ghost use Rattle.std.specs.Prelude.{◌≡◌, map, IfOk};
ghost use Rattle.export_model.specs.Exported.{number_name};
ghost use Rattle.proof_export.specs.Sheets.{token_in, line_in};

use itoa::Buffer;
use mm_base::{List, Memory, Name, Pair, Sym};
use mm_frames::Frames;
use sheet_text::PairLine;
use std::alloc::Global;
use written_steps::symbol_name;

fn token(alloc: Global, frames: &Frames, symbol: Sym) -> Result<Name, Memory>
    ensures { IfOk result (λ t. t ≡ token_in frames.now.symbols symbol) }
{
    List::copy_of(alloc, symbol_name(frames, symbol))
}

/// The tokens of a formula.
pub(crate) fn tokens(alloc: Global, frames: &Frames, formula: &[Sym]) -> Result<List<Name>, Memory>
    ensures { IfOk result (λ ts. ts ≡ map (token_in frames.now.symbols) formula.now) }
{
    let mut tokens = Vec::new(alloc);
    for symbol in formula {
        tokens.push(token(alloc, frames, *symbol)?)?;
    }
    Ok(List::from_vec(tokens))
}

/// The name of the step of a number, counted from 0.
pub(crate) fn number_name(alloc: Global, number: u32) -> Result<Name, Memory>
    ensures { IfOk result (λ name. name ≡ number_name number) }
{
    let mut buffer = Buffer::new();
    List::copy_of(alloc, buffer.format(number as u64 + 1).as_bytes())
}

fn pair_line(alloc: Global, frames: &Frames, pair: Pair) -> Result<PairLine, Memory>
    ensures { IfOk result (λ line. line ≡ line_in frames.now.symbols pair) }
{
    Ok(PairLine {
        line: 0,
        names: tokens(alloc, frames, &[pair.a, pair.b])?,
    })
}

/// The `$d` statements of pairs.
pub(crate) fn pair_lines(
    alloc: Global,
    frames: &Frames,
    pairs: &[Pair],
) -> Result<List<PairLine>, Memory>
    ensures { IfOk result (λ lines. lines ≡ map (line_in frames.now.symbols) pairs.now) }
{
    let mut lines = Vec::new(alloc);
    for pair in pairs {
        lines.push(pair_line(alloc, frames, *pair)?)?;
    }
    Ok(List::from_vec(lines))
}
