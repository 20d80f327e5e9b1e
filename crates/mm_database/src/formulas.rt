ghost use Rattle.std.specs.Prelude.{◌≡◌, ◌≤◌, length, IfOk, option_copied};
ghost use Rattle.std.specs.List.{filter_map};
ghost use Rattle.mm_base.specs.declared.tree.Tree.{Tree};
ghost use Rattle.mm_database.specs.Formulas as spec;
ghost use Rattle.mm_database.specs.Formulas.{IsAnswer, IsReadBy};

use crate::variables::{FrameVariable, code_of};
use formula_parse::{ParseFault, parse};
use mm_base::{List, MOST_FORMULA_TOKENS, Memory, Sym, Tree, Typecode};
use mm_model::Leaf;
use std::alloc::Global;
use syntax_grammar::Grammar;

/// The two typecodes that the program gives a meaning to.
#[derive(Clone, Copy)]
pub struct KindCodes {
    /// The typecode of assertions; none where the database does not declare it.
    pub provable: Option<Sym>,
    /// The typecode of their formulas' trees.
    pub logic: Typecode,
}

/// What the symbols of a formula are, at a place of the database and by a frame.
#[derive(Clone, Copy)]
pub struct Scope<'c, 'v> {
    /// The numbers of the `$c` by symbol.
    pub constants: &'c [u32],
    /// The number of the statement whose formula it is.
    pub place: u32,
    /// The frame's variables.
    pub vars: &'v [FrameVariable],
}

/// Whether a constant is declared below a place, where these are the numbers of the `$c` by symbol.
fn is_constant(constants: &[u32], place: u32, sym: Sym) -> bool
    ensures { result ≡ spec.is_constant constants.now place sym }
{
    match constants.get(sym.0 as usize) {
        None => false,
        Some(declared) => *declared < place,
    }
}

/// What a symbol of an assertion's formula is: a constant, or one of the frame's variables.
fn leaf_of(scope: &Scope, sym: Sym) -> Option<Leaf>
    ensures { result ≡ spec.leaf_of scope.now.constants.now scope.now.place scope.now.vars.now sym }
{
    if is_constant(scope.constants, scope.place, sym) {
        return Some(Leaf::Const(sym));
    }
    match code_of(scope.vars, sym) {
        None => None,
        Some(code) => Some(Leaf::Var(sym, code)),
    }
}

/// The expression of these symbols.
fn expression(alloc: Global, scope: &Scope, symbols: &[Sym]) -> Result<List<Leaf>, Memory>
    ensures { IfOk result (λ leaves. leaves ≡ filter_map (spec.leaf_of scope.now.constants.now scope.now.place scope.now.vars.now) symbols.now) }
{
    let mut leaves = Vec::new(alloc);
    for sym in symbols {
        if let Some(leaf) = leaf_of(scope, *sym) {
            leaves.push(leaf)?;
        }
    }
    Ok(List::from_vec(leaves))
}

/// The one tree of an expression, over the productions below a place; none where it has no tree, or two.
fn tree_of(
    alloc: Global,
    grammar: &Grammar,
    place: u32,
    leaves: &List<Leaf>,
    logic: Typecode,
) -> Result<Option<Tree>, Memory>
    requires { length leaves.now ≤ 4095 }
    ensures { IfOk result (IsAnswer (spec.IsOneTree grammar.now place leaves.now logic)) }
{
    match parse(alloc, grammar, place, leaves, logic) {
        Ok(tree) => Ok(Some(tree)),
        Err(ParseFault::NoTree) => Ok(None),
        Err(ParseFault::TwoTrees(_, _)) => Ok(None),
        Err(ParseFault::Memory) => Err(Memory),
    }
}

/// Whether a formula begins with the provable typecode and is not too long.
fn is_assertion(provable: Option<Sym>, formula: &[Sym]) -> bool
    ensures { result ≡ spec.is_assertion provable formula.now }
{
    match (provable, formula) {
        (Some(sym), [first, ..]) => *first == sym && formula.len() as u64 <= MOST_FORMULA_TOKENS,
        _ => false,
    }
}

/// The one tree of a formula at a place; none where it is not provable, is too long, or has no tree, or two.
pub fn read_formula(
    alloc: Global,
    grammar: &Grammar,
    kinds: KindCodes,
    scope: &Scope,
    formula: &[Sym],
) -> Result<Option<Tree>, Memory>
    ensures { IfOk result (IsAnswer (IsReadBy kinds grammar.now scope.now.constants.now scope.now.place scope.now.vars.now formula.now)) }
{
    if !is_assertion(kinds.provable, formula) {
        return Ok(None);
    }
    match formula {
        [] => Ok(None),
        [_, symbols @ ..] => {
            let leaves = expression(alloc, scope, symbols)?;
            tree_of(alloc, grammar, scope.place, &leaves, kinds.logic)
        }
    }
}
