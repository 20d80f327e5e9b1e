ghost use Rattle.std.specs.Prelude.{◌≤◌, length, IfErr, IfOk};
ghost use Rattle.mm_model.specs.Typed.{Parses};
ghost use Rattle.formula_parse.specs.Finds.{Finds};
ghost use Rattle.formula_parse.specs.Answers.{HasCause, IsOnly};

use crate::chart::chart;
use crate::found::Found;
use crate::search::trees;
use mm_base::{List, Memory, Tree, Typecode};
use mm_model::Leaf;
use std::alloc::Global;
use syntax_grammar::Grammar;
use thiserror::Error;

/// Why an expression has not exactly one tree.
#[derive(Debug, Drop, Error)]
pub enum ParseFault {
    /// It has none.
    #[error("no tree")]
    NoTree,
    /// It has more than one. These two differ.
    #[error("two trees")]
    TwoTrees(Tree, Tree),
    /// Memory ran out.
    #[error("out of memory")]
    Memory,
}

/// The trees of an expression: none, the only one, or two of them.
fn search(
    alloc: Global,
    g: &Grammar,
    before: u32,
    leaves: &[Leaf],
    want: Typecode,
) -> Result<Found<Tree>, Memory>
    ensures { IfOk result (Finds (Parses g.now before leaves.now want)) }
{
    let rows = g.kept();
    let chart = chart(alloc, g, before, leaves)?;
    let mut found = Found::Nothing;
    trees(
        alloc,
        rows.as_slice(),
        before,
        leaves,
        &chart,
        0,
        leaves.len(),
        want,
        &mut found,
    )?;
    Ok(found)
}

/// The one tree of an expression, which is `leaves`, of the typecode `want`, over the kept productions whose statements
/// have numbers below `before`. There are at most 4,095 leaves: a formula has at most 4,096 tokens, and the first is its
/// typecode.
///
/// Fails where there is no tree, where there are two or more, and where memory runs out. For the usual formulas the time
/// grows with their length. Where many parts of a text are formulas in many ways, it grows with the cube of the length,
/// or with its fourth power where a production has more than two slots.
pub fn parse(
    alloc: Global,
    g: &Grammar,
    before: u32,
    leaves: &List<Leaf>,
    want: Typecode,
) -> Result<Tree, ParseFault>
    requires { length leaves.now ≤ 4095 }
    ensures tree { IfOk result (IsOnly (Parses g.now before leaves.now want)) }
    ensures fault { IfErr result (HasCause (Parses g.now before leaves.now want)) }
{
    match search(alloc, g, before, leaves.as_slice(), want) {
        Err(_) => Err(ParseFault::Memory),
        Ok(Found::Nothing) => Err(ParseFault::NoTree),
        Ok(Found::One(tree)) => Ok(tree),
        Ok(Found::Two(tree, other)) => Err(ParseFault::TwoTrees(tree, other)),
    }
}
