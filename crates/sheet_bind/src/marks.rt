ghost use Rattle.std.specs.Prelude.{◌≡◌, fold, replicate, false, None, IfOk};
ghost use Rattle.sheet_bind.specs.Marks.{mark, put_hyp, put_typed};

use mm_base::{Memory, Sym, Typecode};
use mm_model::Hyp;
use std::alloc::Global;

/// Marks a symbol, where the marks reach that far.
fn mark(marks: &mut [bool], symbol: Sym)
    ensures { marks.new ≡ mark marks.old symbol }
{
    if (symbol.0 as usize) < marks.len() {
        marks[symbol.0 as usize] = true;
    }
}

/// Marks symbols.
pub fn mark_all(marks: &mut [bool], symbols: &[Sym])
    ensures { marks.new ≡ fold mark marks.old symbols.now }
{
    for symbol in symbols {
        mark(marks, *symbol);
    }
}

/// Keeps the typecode that a `$f` gives to its variable, where no earlier one gives one.
fn put_code(codes: &mut [Option<Typecode>], hyp: &Hyp)
    ensures { codes.new ≡ put_hyp codes.old hyp.now }
{
    if !hyp.floating {
        return;
    }
    match hyp.formula.as_slice() {
        [code, symbol, ..] => put_typed(codes, *symbol, Typecode(*code)),
        _ => {}
    }
}

/// Keeps a variable's typecode, where there is none yet.
fn put_typed(codes: &mut [Option<Typecode>], symbol: Sym, code: Typecode)
    ensures { codes.new ≡ put_typed codes.old symbol code }
{
    let place = symbol.0 as usize;
    if place < codes.len() {
        if codes[place].is_none() {
            codes[place] = Some(code);
        }
    }
}

/// By symbol number, below a count, the typecode that the `$f` among hypotheses give.
pub fn codes_by_symbol(
    alloc: Global,
    count: usize,
    hyps: &[Hyp],
) -> Result<Vec<Option<Typecode>>, Memory>
    ensures { IfOk result (λ codes. codes.items ≡ fold put_hyp (replicate count None) hyps.now) }
{
    let mut codes = vec![in alloc; None; count]?;
    for hyp in hyps {
        put_code(&mut codes, hyp);
    }
    Ok(codes)
}

/// By symbol number, below a count, whether it is one of these.
pub fn marks_of(alloc: Global, count: usize, symbols: &[Sym]) -> Result<Vec<bool>, Memory>
    ensures { IfOk result (λ marks. marks.items ≡ fold mark (replicate count false) symbols.now) }
{
    let mut marks = vec![in alloc; false; count]?;
    mark_all(&mut marks, symbols);
    Ok(marks)
}
