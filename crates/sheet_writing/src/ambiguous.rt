ghost use Rattle.std.specs.Prelude.{◌≡◌, ◌↔◌, ◌≤◌, ℕ, List, length, IfOk, IsTrue};
ghost use Rattle.mm_base.specs.declared.kinds.Kinds.{Kinds};
ghost use Rattle.mm_base.specs.Trees as spec;
ghost use Rattle.mm_model.specs.Texts.{text as text_of};
ghost use Rattle.mm_model.specs.Typed.{Parses};
ghost use Rattle.mm_database.specs.Opened.{IsOpened};
ghost use Rattle.written_model.specs.declared.options.Options.{Options};
ghost use Rattle.written_model.specs.WrittenSteps.{steps_in};
ghost use Rattle.written_model.specs.Written.{Writing, Writes, IsAmbiguous};
ghost use Rattle.again_laws.specs.Second.{NumbersFit};
ghost use Rattle.written_steps.specs.Drafts.{book, drafts_in, items_in};
ghost use Rattle.sheet_writing.specs.Ambiguous.{AreShort, HasTwo, HasTwoReadings, IsNamedFirst, IsNameOfFirst, IsOtherTree};

use again_laws::written_trees_read_back;
use formula_parse::{ParseFault, parse, text};
use mm_base::{List, Memory, Name, Tree, Typecode};
use mm_database::Database;
use mm_model::Leaf;
use std::alloc::Global;
use written_steps::DraftItem;

/// Whether an expression has two trees over the productions before a place.
fn has_two_trees(
    alloc: Global,
    db: &Database,
    place: u32,
    leaves: &List<Leaf>,
    code: Typecode,
) -> Result<bool, Memory>
    requires { length leaves.now ≤ 4095 }
    ensures { IfOk result (λ two. IsTrue two ↔ HasTwo (Parses db.now.rows place leaves.now code)) }
{
    match parse(alloc, db.grammar(), place, leaves, code) {
        Ok(_) => Ok(false),
        Err(ParseFault::NoTree) => Ok(false),
        Err(ParseFault::TwoTrees(_, _)) => Ok(true),
        Err(ParseFault::Memory) => Err(Memory),
    }
}

/// The typecode of a tree.
fn code_of(tree: &Tree) -> Typecode
    ensures { result ≡ spec.code_of tree.now }
{
    match tree {
        Tree::Var(_, code) => *code,
        Tree::Work(code, _) => *code,
        Tree::Fresh(code, _) => *code,
        Tree::Node(_, code, _) => *code,
    }
}

/// Whether the text of a tree has two trees of its typecode.
fn is_ambiguous(alloc: Global, db: &Database, place: u32, tree: &Tree) -> Result<bool, Memory>
    requires { length (text_of db.now.rows tree.now) ≤ 4095 }
    ensures { IfOk result (λ two. IsTrue two ↔ HasTwo (IsOtherTree db.now.rows place tree.now)) }
{
    let leaves = text(alloc, db.grammar(), tree)?;
    has_two_trees(alloc, db, place, &leaves, code_of(tree))
}

/// The name of the first step whose text has two trees.
fn first_ambiguous(
    alloc: Global,
    db: &Database,
    place: u32,
    items: &[DraftItem],
) -> Result<Option<Name>, Memory>
    requires { AreShort db.now.rows (steps_in (items_in db.now items.now)) }
    ensures { IfOk result (IsNamedFirst (HasTwoReadings db.now.rows place) (drafts_in items.now)) }
{
    for item in items {
        if let DraftItem::Step(step) = item {
            if is_ambiguous(alloc, db, place, &step.tree)? {
                let name = List::copy_of(alloc, step.name.as_slice())?;
                return Ok(Some(name));
            }
        }
    }
    Ok(None)
}

/// The name of the first step whose formula, as it is written, has two trees at the place; none where no formula has. It
/// takes the time to parse the formulas up to that one. The formulas have at most 4,095 symbols each, the typecode not
/// counted.
///
/// Fails where memory runs out.
pub fn ambiguous_step(
    alloc: Global,
    db: &Database,
    place: u32,
    items: &[DraftItem],
) -> Result<Option<Name>, Memory>
    requires { AreShort db.now.rows (steps_in (items_in db.now items.now)) }
    ensures { IfOk result (λ name. (kinds : Kinds) (text : List ℕ) (read : List ℕ) (options : Options) (w : Writing) → IsOpened kinds text db.now → options.kinds ≡ kinds
        → Writes (book kinds text db.now) read options w → NumbersFit w.names → w.bound.place ≡ place → w.items ≡ items_in db.now items.now
        → IsNameOfFirst (IsAmbiguous (book kinds text db.now) options w) (steps_in w.items) name) }
{
    written_trees_read_back();
    first_ambiguous(alloc, db, place, items)
}
