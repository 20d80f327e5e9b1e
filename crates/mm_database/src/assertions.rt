ghost use Rattle.std.specs.Prelude.{◌≡◌, IfOk};
ghost use Rattle.std.specs.List.{AllZip};
ghost use Rattle.mm_base.specs.declared.tree.Tree.{Tree};
ghost use Rattle.mm_model.specs.declared.frames.Hyp.{Hyp};
ghost use Rattle.mm_model.specs.Productions.{essentials};
ghost use Rattle.mm_database.specs.Formulas.{IsAnswer, IsReadBy};
ghost use Rattle.mm_database.specs.Assertions.{IsParsed, IsKept, AreParsed};

use crate::formulas::{KindCodes, Scope, read_formula};
use crate::variables::{frame_variables, symbols};
use mm_base::{List, Memory, Sym, Tree};
use mm_model::{Frame, Hyp};
use std::alloc::Global;
use syntax_grammar::Grammar;

/// What an opened database keeps of a usable assertion.
#[derive(Drop)]
pub struct Parsed {
    /// The tree of its conclusion.
    pub tree: Tree,
    /// The trees of its `$e`, in order.
    pub hyps: List<Tree>,
    /// Its mandatory variables, in the order of its frame.
    pub vars: List<Sym>,
}

/// The trees of the `$e` among hypotheses; none where one of them is not one of a usable assertion.
fn read_hyps(
    alloc: Global,
    grammar: &Grammar,
    kinds: KindCodes,
    scope: &Scope,
    hyps: &[Hyp],
) -> Result<Option<List<Tree>>, Memory>
    ensures { IfOk result (IsAnswer (AllZip (λ (h : Hyp) (t : Tree). IsReadBy kinds grammar.now scope.now.constants.now scope.now.place scope.now.vars.now h.formula t)
        (essentials hyps.now))) }
{
    let mut trees = Vec::new(alloc);
    for hyp in hyps {
        if !hyp.floating {
            let read = read_formula(alloc, grammar, kinds, scope, hyp.formula.as_slice())?;
            match read {
                None => return Ok(None),
                Some(tree) => trees.push(tree)?,
            }
        }
    }
    Ok(Some(List::from_vec(trees)))
}

/// What is kept of an assertion that is usable; none where it is not.
fn read_assertion(
    alloc: Global,
    grammar: &Grammar,
    constants: &[u32],
    kinds: KindCodes,
    frame: &Frame,
) -> Result<Option<Parsed>, Memory>
    ensures { IfOk result (IsAnswer (IsParsed kinds grammar.now constants.now frame.now)) }
{
    let vars = frame_variables(alloc, frame.hyps.as_slice())?;
    let scope = Scope {
        constants,
        place: frame.at,
        vars: &vars,
    };
    let read = read_formula(alloc, grammar, kinds, &scope, frame.formula.as_slice())?;
    let Some(tree) = read else {
        return Ok(None);
    };
    let read = read_hyps(alloc, grammar, kinds, &scope, frame.hyps.as_slice())?;
    let Some(hyps) = read else {
        return Ok(None);
    };
    Ok(Some(Parsed {
        tree,
        hyps,
        vars: List::from_vec(symbols(alloc, &vars)?),
    }))
}

/// What is kept of a label.
fn keep(
    alloc: Global,
    grammar: &Grammar,
    constants: &[u32],
    kinds: KindCodes,
    entry: &Option<Frame>,
) -> Result<Option<Parsed>, Memory>
    ensures { IfOk result (IsKept kinds grammar.now constants.now entry.now) }
{
    match entry {
        None => Ok(None),
        Some(frame) => read_assertion(alloc, grammar, constants, kinds, frame),
    }
}

/// What is kept of each label: none where it is no label of a usable assertion.
pub fn parse_all(
    alloc: Global,
    grammar: &Grammar,
    constants: &[u32],
    kinds: KindCodes,
    frames: &[Option<Frame>],
) -> Result<Vec<Option<Parsed>>, Memory>
    ensures { IfOk result (λ parsed. AreParsed kinds grammar.now constants.now frames.now parsed.items) }
{
    let mut parsed = Vec::new(alloc);
    for entry in frames {
        let kept = keep(alloc, grammar, constants, kinds, entry)?;
        parsed.push(kept)?;
    }
    Ok(parsed)
}
