ghost use Rattle.std.specs.Prelude.{◌≡◌, ◌<◌, ◌++◌, ◌^◌, ◌-◌, List, length, min, count_by, find, option_map, IfOk};
ghost use Rattle.std.specs.List.{AllByRecursion};
ghost use Rattle.std.specs.Option.{ForSome};
ghost use Rattle.term_model.specs.Terms.{Var, Free, Node};
ghost use Rattle.step_chain.specs.Grown.{IsGrown, IsRooted, AreWorksIn, AreVariablesIn};
ghost use Rattle.chain_laws.specs.Adding.{added, id_of, is_constant, row_constants, constants_in, variable_at, Rooted, there_or};

use crate::works::WorkTable;
use chain_laws::VariableNode;
use mm_base::{Label, List, Memory, Sym, Tree, Typecode};
use mm_model::{Item, Production};
use syntax_grammar::Grammar;
use term_arena::{Arena, Id};

/// The node of a variable, by a list of them.
pub fn variable_at(variables: &[VariableNode], sym: Sym, code: Typecode) -> Option<u32>
    ensures { result ≡ variable_at variables.now sym code }
{
    variables
        .iter()
        .find(|variable| variable.sym == sym && variable.code == code)
        .map(|variable| variable.node)
}

fn is_constant(item: &Item) -> bool
    ensures { result ≡ is_constant item.now }
{
    match item {
        Item::Const(_) => true,
        Item::Slot(_) => false,
    }
}

/// The constants of a production's text.
fn row_constants(row: &Production) -> u32
    ensures { result ≡ row_constants row.now }
{
    let count = row
        .items
        .as_slice()
        .iter()
        .filter(|item| is_constant(item))
        .count();
    u32::try_from(count).unwrap_or(u32::MAX)
}

fn constants_of(grammar: &Grammar, label: Label) -> u32
    ensures { result ≡ constants_in grammar.now label }
{
    match grammar.production(label) {
        Some(row) => row_constants(row),
        None => 0,
    }
}

/// The node that is there, or a new one.
pub fn there_or_free(arena: &mut Arena, there: Option<u32>, code: Typecode) -> Result<Id, Memory>
    requires { ForSome there (λ i. i < length arena.old.nodes) }
    ensures added { IfOk result (λ id. IsRooted (there_or there (Free code) arena.old.nodes) arena.new.nodes id) }
    ensures grows { IsGrown arena.old arena.new }
    ensures within { IfOk result (λ id. id.0 < length arena.new.nodes) }
{
    match there {
        Some(node) => Ok(Id(node)),
        None => arena.add_free(code),
    }
}

/// The node that is there, or a new one.
fn there_or_variable(
    arena: &mut Arena,
    there: Option<u32>,
    sym: Sym,
    code: Typecode,
) -> Result<Id, Memory>
    requires { ForSome there (λ i. i < length arena.old.nodes) }
    ensures added { IfOk result (λ id. IsRooted (there_or there (Var sym code) arena.old.nodes) arena.new.nodes id) }
    ensures grows { IsGrown arena.old arena.new }
    ensures within { IfOk result (λ id. id.0 < length arena.new.nodes) }
{
    match there {
        Some(node) => Ok(Id(node)),
        None => arena.add_var(sym, code),
    }
}

/// Adds the nodes of a tree, where these are the nodes of work variables and of variables. `Memory`: there is no room for
/// them, and some of them may have been added.
pub fn add_tree(
    arena: &mut Arena,
    grammar: &Grammar,
    works: &WorkTable,
    variables: &[VariableNode],
    tree: &Tree,
) -> Result<Id, Memory>
    requires works { AreWorksIn (length arena.old.nodes) works.now }
    requires variables { AreVariablesIn (length arena.old.nodes) variables.now }
    ensures added { IfOk result (λ id. IsRooted (added grammar.now works.now variables.now tree.now arena.old.nodes) arena.new.nodes id) }
    ensures grows { IsGrown arena.old arena.new }
    ensures within { IfOk result (λ id. id.0 < length arena.new.nodes) }
{
    match tree {
        Tree::Var(sym, code) => {
            let there = variable_at(variables, *sym, *code);
            there_or_variable(arena, there, *sym, *code)
        }
        Tree::Work(code, number) => {
            let there = works.node(*code, *number);
            there_or_free(arena, there, *code)
        }
        Tree::Fresh(code, _) => arena.add_free(*code),
        Tree::Node(label, code, children) => {
            let mut ids = Vec::new(children.allocator());
            for child in children.as_slice() {
                let id = add_tree(arena, grammar, works, variables, child)?;
                ids.push(id)?;
            }
            let constants = constants_of(grammar, *label);
            arena.add_node(*label, *code, constants, &ids)
        }
    }
}
