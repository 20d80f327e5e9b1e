ghost use Rattle.std.specs.Prelude.{◌≡◌, slice_index_or};

use frame_lists::{
    Active, Frame, Listed, Stack, active_at, constant_places, float_codes, frames_by_label,
    place_after,
};
use mm_base::{Label, List, Memory, Sym, Typecode};
use names::Names;
use std::alloc::Global;
use std::marker::Model;

/// What a database without a fault has: its symbols, its labels and its statements in order.
#[derive(Drop)]
pub struct Frames {
    /// The names of the symbols, in the order in which they were first declared.
    pub(crate) symbols: Names,
    /// Its labels and statements.
    pub(crate) listed: Listed,
    /// The frames by label; none where it is no label of an assertion.
    pub(crate) frames: Stack<Option<Frame>>,
    /// By symbol the number of the `$c` that declares it.
    pub(crate) constants: Vec<u32>,
    /// The bytes of the text.
    pub(crate) size: u32,
}

impl Model for Frames {
    ghost use Rattle.std.specs.Prelude.{◌<◌, ◌^◌, length};
    ghost use Rattle.frame_lists.specs.Lists.{AreOf};
    ghost use Rattle.mm_frames.specs.Contents.{Contents};

    ghost Value = { Contents };

    ghost view = { λ f. record { symbols = f.symbols; labels = f.listed.labels; positions = f.listed.positions; entries = f.listed.entries; frames = f.frames; constants = f.constants.items; size = f.size } };

    ghost invariant = { λ f. length f.listed.entries < 2 ^ 32 };
}

fn number_at(numbers: &[u32], place: u32) -> u32
    ensures { result ≡ slice_index_or numbers.now place 0 }
{
    numbers.get(place as usize).copied().unwrap_or(0)
}

/// The number of the `$c` that declares a symbol.
fn declared_at(places: &[u32], symbol: u32) -> u32
    ensures { result ≡ slice_index_or places.now symbol 4294967295 }
{
    places.get(symbol as usize).copied().unwrap_or(u32::MAX)
}

impl Frames {
    ghost use Rattle.std.specs.Prelude.{◌≡◌, ◌<◌, ◌≤◌, ◌^◌, ℕ, List, length, position, option_map, slice_index_or, None, IfOk, []};
    ghost use Rattle.std.specs.Option.{option_copied};
    ghost use Rattle.std.specs.Str.{bytes_eq};
    ghost use Rattle.mm_model.specs.Names.{sym, label};
    ghost use Rattle.mm_model.specs.Statements.{statements, statement_fault};
    ghost use Rattle.mm_model.specs.Frames as spec;
    ghost use Rattle.mm_model.specs.Frames.{proof_range, symbol_in};
    ghost use Rattle.frame_lists.specs.Lists.{AreOf};
    ghost use Rattle.mm_frames.specs.Contents.{contents_of, place_byte, proof_at, frame_at};

    /// What a text has, by its symbols, labels and statements.
    pub(crate) fn of(
        alloc: Global,
        symbols: Names,
        listed: Listed,
        size: u32,
    ) -> Result<Frames, Memory>
        requires { length listed.entries < 2 ^ 32 }
        ensures { (text : List ℕ) → statement_fault text ≡ None → symbols ≡ spec.symbols (statements text) → AreOf listed (statements text) → size ≡ length text → IfOk result (λ f. f ≡ contents_of text) }
    {
        let frames = frames_by_label(alloc, &listed)?;
        let constants = constant_places(alloc, symbols.count(), listed.entries.as_slice())?;
        Ok(Frames {
            symbols,
            listed,
            frames,
            constants,
            size,
        })
    }

    /// The label of a name. None exactly where the database has no such label. It takes constant time.
    pub fn label(&self, name: &[u8]) -> Option<Label>
        ensures { result ≡ option_map label (position (bytes_eq name.now) self.now.labels) }
    {
        match self.listed.labels.number(name) {
            None => None,
            Some(number) => Some(Label(number)),
        }
    }

    /// The symbol of a name. None exactly where the database declares no such symbol anywhere. It takes constant time.
    pub fn symbol(&self, name: &[u8]) -> Option<Sym>
        ensures { result ≡ option_map sym (position (bytes_eq name.now) self.now.symbols) }
    {
        match self.symbols.number(name) {
            None => None,
            Some(number) => Some(Sym(number)),
        }
    }

    /// The symbol of a name; the number past the last where the database declares none. It takes constant time.
    pub fn symbol_or_end(&self, name: &[u8]) -> Sym
        ensures { result ≡ symbol_in self.now.symbols name.now }
    {
        match self.symbol(name) {
            None => Sym(self.symbols()),
            Some(symbol) => symbol,
        }
    }

    /// The name of a label of this database.
    pub fn label_name(&self, label: Label) -> &[u8]
        requires { label.0 < length self.now.labels }
        ensures { result.now ≡ slice_index_or self.now.labels label.0 [] }
    {
        self.listed.labels.name(label.0)
    }

    /// The name of a symbol of this database.
    pub fn symbol_name(&self, symbol: Sym) -> &[u8]
        requires { symbol.0 < length self.now.symbols }
        ensures { result.now ≡ slice_index_or self.now.symbols symbol.0 [] }
    {
        self.symbols.name(symbol.0)
    }

    /// The number of symbols; they are numbered from 0, in the order in which they were first declared.
    pub fn symbols(&self) -> u32
        ensures { result ≡ length self.now.symbols }
    {
        self.symbols.count()
    }

    /// The frames by label; none where it is no label of an assertion.
    pub fn frames(&self) -> &[Option<Frame>]
        ensures { result.now ≡ self.now.frames }
    {
        self.frames.as_slice()
    }

    /// By symbol the number of the `$c` that declares it; 2^32 - 1 where there is none.
    pub fn constants(&self) -> &[u32]
        ensures { result.now ≡ self.now.constants }
    {
        self.constants.as_slice()
    }

    /// The number of labels; they are numbered from 0.
    pub fn labels(&self) -> u32
        ensures { result ≡ length self.now.labels }
    {
        self.listed.labels.count()
    }

    /// By label its position, the number of its statement, from 0.
    pub fn positions(&self) -> &[u32]
        ensures { result.now ≡ self.now.positions }
    {
        self.listed.positions.as_slice()
    }

    /// The position of a label of this database: the number of its statement, from 0.
    pub fn position(&self, label: Label) -> u32
        requires { label.0 < length self.now.labels }
        ensures { result ≡ slice_index_or self.now.positions label.0 0 }
    {
        number_at(self.listed.positions.as_slice(), label.0)
    }

    /// The last place: the number of statements.
    pub fn end(&self) -> u32
        ensures { result ≡ length self.now.entries }
    {
        self.listed.entries.len() as u32
    }

    /// The byte where the statement of a place begins; at the last place the length of the text.
    pub fn place_byte(&self, place: u32) -> u32
        requires { place ≤ length self.now.entries }
        ensures { result ≡ place_byte self.now place }
    {
        match self.listed.entries.as_slice().get(place as usize) {
            None => self.size,
            Some(entry) => entry.start,
        }
    }

    /// The bytes between `$=` and `$.`: where they begin and where they end. None exactly where the label is no `$p`.
    pub fn proof(&self, label: Label) -> Option<(u32, u32)>
        requires { label.0 < length self.now.labels }
        ensures { (text : List ℕ) → self.now ≡ contents_of text → result ≡ proof_range (statements text) label }
    {
        self.proof_at(label)
    }

    /// The frame of a label. None exactly where it is no label of a `$a` or `$p`. It takes constant time.
    pub fn frame(&self, label: Label) -> Option<&Frame>
        ensures { (text : List ℕ) → self.now ≡ contents_of text → option_copied result ≡ spec.frame_of (statements text) label }
    {
        self.frame_at(label)
    }

    fn frame_at(&self, label: Label) -> Option<&Frame>
        ensures { option_copied result ≡ frame_at self.now label }
    {
        match self.frames.as_slice().get(label.0 as usize) {
            None => None,
            Some(frame) => frame.as_ref(),
        }
    }

    /// What is active at a place. It takes one pass over the statements below the place, and memory for what is active.
    pub fn active_at(&self, place: u32) -> Result<Active, Memory>
        requires { place ≤ length self.now.entries }
        ensures { (text : List ℕ) → self.now ≡ contents_of text → statement_fault text ≡ None → IfOk result (λ a. a ≡ spec.active_at (statements text) place) }
    {
        active_at(self.listed.entries.allocator(), &self.listed, place)
    }

    /// Whether a `$c` of the symbol stands below a place. It takes constant time.
    pub fn constant_at(&self, symbol: Sym, place: u32) -> bool
        requires { place ≤ length self.now.entries }
        ensures { (text : List ℕ) → self.now ≡ contents_of text → result ≡ spec.is_constant_at (statements text) symbol place }
    {
        declared_at(self.constants.as_slice(), symbol.0) < place
    }

    /// The least place above a label's position where no block is open; the last place where there is none. It takes one
    /// pass over the statements, and no memory.
    pub fn place_after(&self, label: Label) -> u32
        requires { label.0 < length self.now.labels }
        ensures { (text : List ℕ) → self.now ≡ contents_of text → result ≡ spec.place_after (statements text) label }
    {
        place_after(self.listed.entries.as_slice(), self.position(label))
    }

    /// The typecodes of the `$f` below a place, active there or not, in order, with repeats. It takes one pass over the
    /// statements below the place.
    pub fn float_codes(&self, place: u32) -> Result<List<Typecode>, Memory>
        requires { place ≤ length self.now.entries }
        ensures { (text : List ℕ) → self.now ≡ contents_of text → IfOk result (λ codes. codes ≡ spec.float_codes (statements text) place) }
    {
        let below = &self.listed.entries.as_slice()[..place as usize];
        float_codes(self.listed.entries.allocator(), below)
    }

    fn proof_at(&self, label: Label) -> Option<(u32, u32)>
        ensures { result ≡ proof_at self.now label }
    {
        match self.listed.positions.as_slice().get(label.0 as usize) {
            None => None,
            Some(position) => match self.listed.entries.as_slice().get(*position as usize) {
                None => None,
                Some(entry) => entry.proof,
            },
        }
    }
}
