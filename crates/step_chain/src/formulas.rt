ghost use Rattle.std.specs.Prelude.{◌≡◌, ◌<◌, [], length, IfOk, OnOk};
ghost use Rattle.std.specs.List.{AllByRecursion};
ghost use Rattle.std.specs.Option.{ForSome};
ghost use Rattle.solve_model.specs.Trees.{work, open_leaves};
ghost use Rattle.chain_laws.specs.Adding.{run};
ghost use Rattle.step_chain.specs.Grown.{IsGrown, IsRooted, AreListed, AreWorksIn, AreIdsIn};
ghost use Rattle.step_chain.specs.Formulas.{begun, with_leaf, with_leaves, with_formula, with_steps, blank_node, blank_nodes, formula_adder, formula_adders, AreFormulas};

use crate::adding::{add_tree, there_or_free};
use crate::works::WorkTable;
use chain_laws::WorkNode;
use mm_base::{Memory, Tree, Typecode};
use solve_model::BoundStep;
use std::alloc::Global;
use syntax_grammar::Grammar;
use term_arena::{Arena, Id};

/// A free node for a work variable that has none yet.
fn add_work(
    arena: &mut Arena,
    works: &mut WorkTable,
    code: Typecode,
    number: u32,
) -> Result<(), Memory>
    ensures begun { OnOk result (begun arena.new works.new ≡ with_leaf (begun arena.old works.old) (work code number)) }
    ensures grows { IsGrown arena.old arena.new }
{
    match works.node(code, number) {
        Some(_) => Ok(()),
        None => {
            let id = arena.add_free(code)?;
            works.add(code, number, id.0)
        }
    }
}

/// Free nodes for the work variables of a tree that have none yet.
fn add_works(arena: &mut Arena, works: &mut WorkTable, tree: &Tree) -> Result<(), Memory>
    ensures begun { OnOk result (begun arena.new works.new ≡ with_leaves (begun arena.old works.old) (open_leaves tree.now)) }
    ensures grows { IsGrown arena.old arena.new }
{
    match tree {
        Tree::Var(_, _) => Ok(()),
        Tree::Work(code, number) => add_work(arena, works, *code, *number),
        Tree::Fresh(_, _) => Ok(()),
        Tree::Node(_, _, children) => {
            for child in children.as_slice() {
                add_works(arena, works, child)?;
            }
            Ok(())
        }
    }
}

/// Free nodes for the unknowns of a formula, with the node of a blank one.
fn add_unknowns(
    arena: &mut Arena,
    works: &mut WorkTable,
    logic: Typecode,
    tree: &Option<Tree>,
) -> Result<Option<u32>, Memory>
    ensures begun { OnOk result (begun arena.new works.new ≡ with_formula logic (begun arena.old works.old) tree.now) }
    ensures node { IfOk result (λ o. o ≡ blank_node (begun arena.old works.old) tree.now) }
    ensures grows { IsGrown arena.old arena.new }
{
    match tree {
        None => {
            let id = arena.add_free(logic)?;
            Ok(Some(id.0))
        }
        Some(tree) => {
            add_works(arena, works, tree)?;
            Ok(None)
        }
    }
}

/// Free nodes for the unknowns of all formulas, with those of the blank ones by step.
fn add_all_unknowns(
    alloc: Global,
    arena: &mut Arena,
    works: &mut WorkTable,
    logic: Typecode,
    steps: &[BoundStep],
) -> Result<Vec<Option<u32>>, Memory>
    ensures begun { OnOk result (begun arena.new works.new ≡ with_steps logic (begun arena.old works.old) steps.now) }
    ensures nodes { IfOk result (λ v. v.items ≡ blank_nodes logic (begun arena.old works.old) steps.now) }
    ensures grows { IsGrown arena.old arena.new }
{
    let mut nodes = Vec::new(alloc);
    for step in steps {
        let node = add_unknowns(arena, works, logic, &step.tree)?;
        nodes.push(node)?;
    }
    Ok(nodes)
}

/// The node of a formula; of a blank one, the node that is there.
fn add_formula(
    arena: &mut Arena,
    grammar: &Grammar,
    works: &WorkTable,
    logic: Typecode,
    there: Option<u32>,
    tree: &Option<Tree>,
) -> Result<Id, Memory>
    requires works { AreWorksIn (length arena.old.nodes) works.now }
    requires there { ForSome there (λ i. i < length arena.old.nodes) }
    ensures added { IfOk result (λ id. IsRooted (formula_adder grammar.now works.now logic there tree.now arena.old.nodes) arena.new.nodes id) }
    ensures grows { IsGrown arena.old arena.new }
    ensures within { IfOk result (λ id. id.0 < length arena.new.nodes) }
{
    match tree {
        None => there_or_free(arena, there, logic),
        Some(tree) => add_tree(arena, grammar, works, &[], tree),
    }
}

/// The node of each formula, where the blank ones have these.
fn add_formulas(
    alloc: Global,
    arena: &mut Arena,
    grammar: &Grammar,
    works: &WorkTable,
    logic: Typecode,
    blanks: &[Option<u32>],
    steps: &[BoundStep],
) -> Result<Vec<Id>, Memory>
    requires works { AreWorksIn (length arena.old.nodes) works.now }
    requires count { length blanks.now ≡ length steps.now }
    requires blanks { AllByRecursion (λ o. ForSome o (λ i. i < length arena.old.nodes)) blanks.now }
    ensures listed { IfOk result (λ ids. AreListed (run (formula_adders grammar.now works.now logic blanks.now steps.now) arena.old.nodes) arena.new.nodes ids.items) }
    ensures grows { IsGrown arena.old arena.new }
    ensures within { IfOk result (λ ids. AreIdsIn (length arena.new.nodes) ids.items) }
{
    let mut ids = Vec::new(alloc);
    for k in 0..steps.len() {
        let tree = &steps[k].tree;
        let id = add_formula(arena, grammar, works, logic, blanks[k], tree)?;
        ids.push(id)?;
    }
    Ok(ids)
}

/// The nodes of a worksheet's work variables, and of its formulas by step.
#[derive(Drop)]
pub struct FormulaNodes {
    pub works: Vec<WorkNode>,
    pub formulas: Vec<Id>,
}

/// Adds the nodes of a worksheet's unknowns and formulas to an empty store. `Memory`: there is no room for them.
pub fn add_all(
    alloc: Global,
    arena: &mut Arena,
    grammar: &Grammar,
    logic: Typecode,
    steps: &[BoundStep],
) -> Result<FormulaNodes, Memory>
    requires { arena.old.nodes ≡ [] }
    ensures formulas { IfOk result (λ f. AreFormulas grammar.now logic steps.now arena.new.nodes f.works.items f.formulas.items) }
    ensures grows { IsGrown arena.old arena.new }
    ensures within { IfOk result (λ f. AreIdsIn (length arena.new.nodes) f.formulas.items) }
    ensures works_in { IfOk result (λ f. AreWorksIn (length arena.new.nodes) f.works.items) }
    ensures count { IfOk result (λ f. length f.formulas.items ≡ length steps.now) }
{
    let mut table = WorkTable::new(alloc);
    let blanks = add_all_unknowns(alloc, arena, &mut table, logic, steps)?;
    let formulas = add_formulas(alloc, arena, grammar, &table, logic, &blanks, steps)?;
    let works = table.list(alloc)?;
    Ok(FormulaNodes { works, formulas })
}
