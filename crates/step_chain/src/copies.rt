ghost use Rattle.std.specs.Prelude.{◌≡◌, ◌<◌, ◌++◌, ◌+◌, [], length, map, IfOk, OnOk};
ghost use Rattle.mm_model.specs.Productions.{typed_variables};
ghost use Rattle.chain_laws.specs.Adding.{added, numbered, run};
ghost use Rattle.step_chain.specs.Grown.{IsGrown, AreListed, AreWorksIn, AreVariablesIn, AreIdsIn};
ghost use Rattle.step_chain.specs.Candidate.{table_of, copied, root_of, roots_of};
ghost use Rattle.step_chain.specs.Copied.{typed_of, free_at};

use crate::adding::add_tree;
use crate::works::WorkTable;
use chain_laws::VariableNode;
use mm_base::{Memory, Tree, Typecode};
use mm_model::Hyp;
use std::alloc::Global;
use syntax_grammar::Grammar;
use term_arena::{Arena, Id};

/// Adds the variable of a `$f`, with the node that comes next. `Memory`: there is no room, or the number of the node is 2^32
/// or more, which no worksheet within the limits reaches.
fn push_variable(variables: &mut Vec<VariableNode>, first: u32, hyp: &Hyp) -> Result<(), Memory>
    ensures { OnOk result (variables.new.items ≡ variables.old.items ++ numbered (first + length variables.old.items) (typed_of hyp.now)) }
{
    if !hyp.floating {
        return Ok(());
    }
    let Ok(node) = u32::try_from(first as usize + variables.len()) else {
        return Err(Memory);
    };
    match hyp.formula.as_slice() {
        [code, sym, ..] => {
            variables.push(VariableNode {
                sym: *sym,
                code: Typecode(*code),
                node,
            })?;
            Ok(())
        }
        _ => Ok(()),
    }
}

/// The variables of the `$f` among hypotheses, in order, with nodes one behind the other from a place on.
pub fn own_variables(alloc: Global, first: u32, hyps: &[Hyp]) -> Result<Vec<VariableNode>, Memory>
    ensures { IfOk result (λ v. v.items ≡ numbered first (typed_variables hyps.now)) }
{
    let mut variables = Vec::new(alloc);
    for hyp in hyps {
        push_variable(&mut variables, first, hyp)?;
    }
    Ok(variables)
}

/// Adds a free node for each variable.
pub fn add_copies(arena: &mut Arena, variables: &[VariableNode]) -> Result<(), Memory>
    ensures nodes { OnOk result (arena.new.nodes ≡ arena.old.nodes ++ map free_at variables.now) }
    ensures grows { IsGrown arena.old arena.new }
{
    for variable in variables {
        let _node = arena.add_free(variable.code)?;
    }
    Ok(())
}

/// Adds the nodes of trees, one after the other.
pub fn add_trees(
    alloc: Global,
    arena: &mut Arena,
    grammar: &Grammar,
    works: &WorkTable,
    variables: &[VariableNode],
    trees: &[Tree],
) -> Result<Vec<Id>, Memory>
    requires works { AreWorksIn (length arena.old.nodes) works.now }
    requires variables { AreVariablesIn (length arena.old.nodes) variables.now }
    ensures listed { IfOk result (λ ids. AreListed (run (map (added grammar.now works.now variables.now) trees.now) arena.old.nodes) arena.new.nodes ids.items) }
    ensures grows { IsGrown arena.old arena.new }
    ensures within { IfOk result (λ ids. AreIdsIn (length arena.new.nodes) ids.items) }
{
    let mut ids = Vec::new(alloc);
    for tree in trees {
        let id = add_tree(arena, grammar, works, variables, tree)?;
        ids.push(id)?;
    }
    Ok(ids)
}

/// The nodes of a candidate.
#[derive(Drop)]
pub struct CandidateNodes {
    pub variables: Vec<VariableNode>,
    pub root: Id,
    pub hyps: Vec<Id>,
}

/// Adds the nodes of a candidate: its own copies of its frame's variables, its conclusion and its `$e`.
pub fn add_candidate(
    alloc: Global,
    arena: &mut Arena,
    grammar: &Grammar,
    frame_hyps: &[Hyp],
    tree: &Tree,
    trees: &[Tree],
) -> Result<CandidateNodes, Memory>
    ensures variables { IfOk result (λ c. c.variables.items ≡ table_of arena.old.nodes frame_hyps.now) }
    ensures root { IfOk result (λ c. c.root.0 ≡ (root_of grammar.now arena.old.nodes frame_hyps.now tree.now).root) }
    ensures hyps { IfOk result (λ c. AreListed (roots_of grammar.now arena.old.nodes frame_hyps.now tree.now trees.now) arena.new.nodes c.hyps.items) }
    ensures grows { IsGrown arena.old arena.new }
    ensures root_in { IfOk result (λ c. c.root.0 < length arena.new.nodes) }
    ensures hyps_in { IfOk result (λ c. AreIdsIn (length arena.new.nodes) c.hyps.items) }
    ensures variables_in { IfOk result (λ c. AreVariablesIn (length arena.new.nodes) c.variables.items) }
{
    let variables = own_variables(alloc, arena.count(), frame_hyps)?;
    add_copies(arena, &variables)?;
    let works = WorkTable::new(alloc);
    let root = add_tree(arena, grammar, &works, &variables, tree)?;
    let hyps = add_trees(alloc, arena, grammar, &works, &variables, trees)?;
    Ok(CandidateNodes {
        variables,
        root,
        hyps,
    })
}
