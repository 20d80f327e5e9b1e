ghost use Rattle.std.specs.Prelude.{◌≡◌, ◌==◌, ◌<◌, ◌^◌, length, map, position, find, IfOk};
ghost use Rattle.std.specs.Option.{option_copied};
ghost use Rattle.mm_database.specs.declared.variables.FrameVariable.{FrameVariable};
ghost use Rattle.mm_database.specs.Variables as spec;

use mm_base::{Memory, Sym, Typecode};
use mm_model::Hyp;
use std::alloc::Global;

/// A variable of a frame, with the typecode that its `$f` gives it.
#[derive(Clone, Copy)]
pub struct FrameVariable {
    pub sym: Sym,
    pub code: Typecode,
}

/// What a `$f` says of its variable; none where it is a `$e`.
fn variable_of(hyp: &Hyp) -> Option<FrameVariable>
    ensures { result ≡ spec.variable_of hyp.now }
{
    if !hyp.floating {
        return None;
    }
    match hyp.formula.as_slice() {
        [code, sym, ..] => Some(FrameVariable {
            sym: *sym,
            code: Typecode(*code),
        }),
        _ => None,
    }
}

/// The variables of a frame's `$f`, in order.
pub fn frame_variables(alloc: Global, hyps: &[Hyp]) -> Result<Vec<FrameVariable>, Memory>
    ensures variables { IfOk result (λ vars. vars.items ≡ spec.frame_variables hyps.now) }
    ensures few { IfOk result (λ vars. length vars.items < 2 ^ 32) }
{
    let mut vars = Vec::new(alloc);
    for hyp in hyps {
        if let Some(variable) = variable_of(hyp) {
            vars.push(variable)?;
        }
    }
    if vars.len() > u32::MAX as usize {
        return Err(Memory);
    }
    Ok(vars)
}

/// The place of a symbol among the variables.
pub fn place_of(vars: &[FrameVariable], sym: Sym) -> Option<usize>
    ensures { result ≡ position (λ (v : FrameVariable). v.sym.0 == sym.0) vars.now }
{
    vars.iter().position(|variable| variable.sym == sym)
}

/// The typecode of a symbol; none where it is none of the variables.
pub fn code_of(vars: &[FrameVariable], sym: Sym) -> Option<Typecode>
    ensures { result ≡ spec.code_of vars.now sym }
{
    match vars.iter().find(|variable| variable.sym == sym) {
        None => None,
        Some(variable) => Some(variable.code),
    }
}

/// The typecodes of the variables, in order.
pub fn codes(alloc: Global, vars: &[FrameVariable]) -> Result<Vec<Typecode>, Memory>
    ensures { IfOk result (λ codes. codes.items ≡ map (λ (v : FrameVariable). v.code) vars.now) }
{
    let mut codes = Vec::new(alloc);
    for variable in vars {
        codes.push(variable.code)?;
    }
    Ok(codes)
}

/// The variables alone, in order.
pub fn symbols(alloc: Global, vars: &[FrameVariable]) -> Result<Vec<Sym>, Memory>
    ensures { IfOk result (λ syms. syms.items ≡ map (λ (v : FrameVariable). v.sym) vars.now) }
{
    let mut syms = Vec::new(alloc);
    for variable in vars {
        syms.push(variable.sym)?;
    }
    Ok(syms)
}
