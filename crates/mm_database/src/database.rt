ghost use Rattle.std.specs.Prelude.{◌≡◌, ◌<◌, ◌≤◌, ◌^◌, ◌↔◌, ℕ, None, Option, Some, count_by, length, option_map, position, nat_lt, slice_index_or, IfOk, IfErr, OnOk};
ghost use Rattle.std.specs.List.{range_with_len};
ghost use Rattle.std.specs.Str.{bytes_eq};
ghost use Rattle.mm_base.specs.Limits.{most_database_bytes};
ghost use Rattle.mm_model.specs.BookFacts.{Rise};
ghost use Rattle.mm_model.specs.Names.{sym, typecode, symbol_named};
ghost use Rattle.mm_model.specs.Productions.{kept_rows};
ghost use Rattle.mm_model.specs.Statements.{statements, database_fault};
ghost use Rattle.mm_frames.specs.Contents.{contents_of};
ghost use Rattle.mm_database.specs.Faults.{IsDbFault, IsTold};
ghost use Rattle.mm_database.specs.Heads.{AreHeads};
ghost use Rattle.mm_database.specs.Opened.{HasPositions, IsOpened};
ghost use Rattle.mm_database.specs.Assertions.{AreParsed};
ghost use Rattle.mm_database.specs.Books.{kinds_in};

use crate::assertions::{Parsed, parse_all};
use crate::faults::DbFault;
use crate::formulas::KindCodes;
use crate::heads::Heads;
use crate::productions::rows;
use mm_base::{Kinds, Label, List, Memory, Sym, Tree, Typecode};
use mm_frames::{Frames, ReadFault, read};
use mm_tokens::{TokenFault, tokens};
use model_laws::{frames_give_rows, frames_have_own_expressions, positions_rise};
use std::alloc::Global;
use std::marker::Model;
use syntax_grammar::{Grammar, keep_rows};

/// A database without a fault, with its productions and the trees of its usable assertions.
#[derive(Drop)]
pub struct Database {
    frames: Frames,
    grammar: Grammar,
    /// What is kept of usable assertions, by label.
    parsed: Vec<Option<Parsed>>,
    heads: Heads,
}

impl Model for Database {
    ghost use Rattle.mm_database.specs.Opened.{Opened, HasPositions};
    ghost use Rattle.mm_database.specs.Heads.{AreHeads};

    ghost Value = { Opened };

    ghost use Rattle.mm_base.specs.contracts.tree.Tree as tree;
    ghost use Rattle.std.specs.Coded.{codes};

    ghost coded = { Prim.hlevel (codes, tree.the_row.coded) };

    ghost view = { λ d. record { contents = d.frames; rows = d.grammar; parsed = d.parsed.items } };

    ghost invariant = { λ d. AreHeads d.parsed.items d.heads × HasPositions d.frames };
}

/// Reads the statements of a database of at most 2^28 bytes. It takes one pass over the text, and memory in proportion
/// to it.
///
/// Fails with the first fault of the text, that of its tokens first and then that of its statements, and where memory
/// runs out.
pub fn read_frames(alloc: Global, text: &[u8]) -> Result<Frames, DbFault>
    requires { length text.now ≤ most_database_bytes }
    ensures contents { IfOk result (λ frames. frames ≡ contents_of text.now) }
    ensures no_fault { OnOk result (database_fault text.now ≡ None) }
    ensures fault { IfErr result (λ e. IsDbFault e (database_fault text.now)) }
    ensures memory { IfErr result (λ e. IsTold e) }
{
    match tokens(alloc, text) {
        Err(TokenFault::Memory) => Err(DbFault::Memory),
        Err(fault) => Err(DbFault::Token(fault)),
        Ok(tokens) => match read(alloc, text, &tokens) {
            Err(ReadFault::Memory) => Err(DbFault::Memory),
            Err(fault) => Err(DbFault::Read(fault)),
            Ok(frames) => Ok(frames),
        },
    }
}

/// The two typecodes that the program gives a meaning to.
fn kind_codes(frames: &Frames, kinds: &Kinds) -> KindCodes
    ensures { result ≡ kinds_in frames.now.symbols kinds.now }
{
    KindCodes {
        provable: frames.symbol(kinds.provable.as_slice()),
        logic: Typecode(frames.symbol_or_end(kinds.logic.as_slice())),
    }
}

/// The productions that are kept.
fn grammar_of(alloc: Global, text: &[u8], frames: &Frames, kinds: &Kinds) -> Result<Grammar, Memory>
    requires contents { frames.now ≡ contents_of text.now }
    requires no_fault { database_fault text.now ≡ None }
    ensures { IfOk result (λ g. g ≡ kept_rows kinds.now.provable (statements text.now)) }
{
    let _ = text;
    frames_give_rows();
    let provable = frames.symbol_or_end(kinds.provable.as_slice());
    let rows = rows(alloc, provable, frames.frames())?;
    keep_rows(List::from_vec(rows))
}

/// The number of positions below a place, where they rise.
fn positions_below(positions: &[u32], place: u32) -> usize
    requires { Rise positions.now }
    ensures within { result ≤ length positions.now }
    ensures first { (l : ℕ) → l < length positions.now → (l < result) ↔ (slice_index_or positions.now l 0 < place) }
    ensures count { result ≡ count_by (λ l. nat_lt (slice_index_or positions.now l 0) place) (range_with_len 0 (length positions.now)) }
{
    positions.partition_point(|position| *position < place)
}

fn has_few_labels(frames: &Frames)
    ensures { length frames.now.labels < 2 ^ 32 }
{
    let _ = frames.labels();
}

fn has_few_statements(frames: &Frames)
    ensures { length frames.now.entries < 2 ^ 32 }
{
    let _ = frames.end();
}

/// What an opened database has beside its statements.
#[derive(Drop)]
struct Trees {
    grammar: Grammar,
    parsed: Vec<Option<Parsed>>,
    heads: Heads,
}

/// What is kept of each label, and the usable assertions by head.
fn parsed_of(
    alloc: Global,
    grammar: &Grammar,
    frames: &Frames,
    kinds: &Kinds,
) -> Result<(Vec<Option<Parsed>>, Heads), Memory>
    ensures parsed { IfOk result (λ kept. AreParsed (kinds_in frames.now.symbols kinds.now) grammar.now
        frames.now.constants frames.now.frames kept.0.items) }
    ensures heads { IfOk result (λ kept. AreHeads kept.0.items kept.1) }
{
    let codes = kind_codes(frames, kinds);
    let parsed = parse_all(alloc, grammar, frames.constants(), codes, frames.frames())?;
    match Heads::of(alloc, &parsed) {
        Ok(heads) => Ok((parsed, heads)),
        Err(_) => Err(Memory),
    }
}

/// The productions and the trees of the statements of a text, which is `text`.
fn trees_of(alloc: Global, text: &[u8], frames: &Frames, kinds: &Kinds) -> Result<Trees, Memory>
    requires contents { frames.now ≡ contents_of text.now }
    requires no_fault { database_fault text.now ≡ None }
    ensures opened { IfOk result (λ trees. IsOpened kinds.now text.now
        (record { contents = frames.now; rows = trees.grammar; parsed = trees.parsed.items })) }
    ensures heads { IfOk result (λ trees. AreHeads trees.parsed.items trees.heads) }
    ensures positions { OnOk result (HasPositions frames.now) }
{
    frames_have_own_expressions();
    positions_rise();
    has_few_statements(frames);
    let grammar = grammar_of(alloc, text, frames, kinds)?;
    match parsed_of(alloc, &grammar, frames, kinds) {
        Ok((parsed, heads)) => Ok(Trees {
            grammar,
            parsed,
            heads,
        }),
        Err(_) => Err(Memory),
    }
}

/// The database of the statements of a text, as `read_frames` reads them, where these are the names of the two typecodes
/// that have a meaning. The text is there for the contract alone. It takes the time to parse the formulas of the
/// assertions, and memory in proportion to the text.
///
/// Fails where memory runs out.
pub fn open_frames(
    alloc: Global,
    text: &[u8],
    frames: Frames,
    kinds: &Kinds,
) -> Result<Database, Memory>
    requires contents { frames ≡ contents_of text.now }
    requires no_fault { database_fault text.now ≡ None }
    ensures { IfOk result (IsOpened kinds.now text.now) }
{
    match trees_of(alloc, text, &frames, kinds) {
        Err(_) => Err(Memory),
        Ok(
            Trees {
                grammar,
                parsed,
                heads,
            },
        ) => Ok(Database {
            frames,
            grammar,
            parsed,
            heads,
        }),
    }
}

/// Opens a database of at most 2^28 bytes, where these are the names of the two typecodes that have a meaning. It takes
/// one pass over the text and the time to parse the formulas of its assertions, and memory in proportion to the text.
///
/// Fails with the first fault of the text, that of its tokens first and then that of its statements, and where memory
/// runs out.
pub fn open_database(alloc: Global, text: &[u8], kinds: &Kinds) -> Result<Database, DbFault>
    requires { length text.now ≤ most_database_bytes }
    ensures opened { IfOk result (IsOpened kinds.now text.now) }
    ensures fault { IfErr result (λ e. IsDbFault e (database_fault text.now)) }
    ensures memory { IfErr result (λ e. IsTold e) }
{
    let frames = read_frames(alloc, text)?;
    match open_frames(alloc, text, frames, kinds) {
        Ok(database) => Ok(database),
        Err(_) => Err(DbFault::Memory),
    }
}

impl Database {
    ghost use Rattle.std.specs.Prelude.{◌≡◌, ◌<◌, ◌↔◌, ℕ, IsSome, Some, is_some, length, slice_index_or};
    ghost use Rattle.mm_database.specs.declared.assertions.Parsed.{Parsed};
    ghost use Rattle.mm_database.specs.Books.{parsed_at};
    ghost use Rattle.mm_database.specs.ByHead.{by_head};
    ghost use Rattle.mm_database.specs.Opened.{labels_before};

    /// Its symbols, labels and statements.
    pub fn frames(&self) -> &Frames
        ensures { result.now ≡ self.now.contents }
    {
        &self.frames
    }

    /// Its productions that are kept.
    pub fn grammar(&self) -> &Grammar
        ensures { result.now ≡ self.now.rows }
    {
        &self.grammar
    }

    /// Whether the label is that of a usable assertion: it and its `$e` begin with the provable typecode, have at most
    /// 4,096 symbols, and each has exactly one tree of the logic typecode over the productions below its position.
    /// `kept_are_usable` says that it is so. It takes constant time.
    pub fn usable(&self, label: Label) -> bool
        ensures { result ≡ is_some (parsed_at self.now.parsed label) }
    {
        match self.parsed.as_slice().get(label.0 as usize) {
            None => false,
            Some(entry) => entry.is_some(),
        }
    }

    /// What is kept of a usable assertion.
    fn parsed(&self, label: Label) -> &Parsed
        requires { IsSome (parsed_at self.now.parsed label) }
        ensures { parsed_at self.now.parsed label ≡ Some result.now }
    {
        match self.parsed.as_slice().get(label.0 as usize) {
            Some(Some(parsed)) => parsed,
            _ => unreachable!(),
        }
    }

    /// The tree of the conclusion of a usable assertion.
    pub fn tree(&self, label: Label) -> &Tree
        requires { IsSome (parsed_at self.now.parsed label) }
        ensures { (p : Parsed) → parsed_at self.now.parsed label ≡ Some p → result.now ≡ p.tree }
    {
        &self.parsed(label).tree
    }

    /// The trees of the `$e` of a usable assertion, in order.
    pub fn hyp_trees(&self, label: Label) -> &List<Tree>
        requires { IsSome (parsed_at self.now.parsed label) }
        ensures { (p : Parsed) → parsed_at self.now.parsed label ≡ Some p → result.now ≡ p.hyps }
    {
        &self.parsed(label).hyps
    }

    /// The mandatory variables of a usable assertion, in the order of its frame.
    pub fn vars(&self, label: Label) -> &List<Sym>
        requires { IsSome (parsed_at self.now.parsed label) }
        ensures { (p : Parsed) → parsed_at self.now.parsed label ≡ Some p → result.now ≡ p.vars }
    {
        &self.parsed(label).vars
    }

    /// The number of labels whose position is below a place. They are the labels with the numbers below it. It takes
    /// logarithmic time.
    pub fn before(&self, place: u32) -> u32
        ensures count { result ≡ labels_before self.now place }
        ensures first { (l : ℕ) → l < length self.now.contents.labels
            → (l < result) ↔ (slice_index_or self.now.contents.positions l 0 < place) }
    {
        has_few_labels(&self.frames);
        positions_below(self.frames.positions(), place) as u32
    }

    /// The usable assertions with that number of `$e` whose conclusion's tree is a production with that label, or, for
    /// none, is a variable, in database order. It takes constant time and no memory.
    pub fn by_head(&self, head: Option<Label>, hyps: u32) -> &List<Label>
        ensures { result.now ≡ by_head self.now.parsed head hyps }
    {
        self.heads.at(head, hyps)
    }
}
