//! Finding the name of a step by its number, without memory.

ghost use Rattle.std.specs.Prelude.{◌≡◌, ℕ, List, [], ◌≤◌, ◌<◌, ◌+◌, length, take, slice_index_or, slice_set};
ghost use Rattle.std.specs.List.{All};
ghost use Rattle.sheet_text.specs.declared.sheet.SheetItem.{SheetItem};
ghost use Rattle.sheet_print.specs.Pieces.{names_of};
ghost use Rattle.sheet_print.specs.Marks.{IsMark};

use sheet_text::SheetItem;

/// How many marks are noted.
pub(crate) const MARKS: usize = 1024;

/// A place among the items, and how many steps stand before it.
#[derive(Clone, Copy)]
pub(crate) struct Mark {
    place: usize,
    number: usize,
}

/// The items of a worksheet with marks among them. A name is found by a walk from the mark before its step, so the walk is
/// over a thousandth of the items.
#[derive(Clone, Copy)]
pub(crate) struct Index<'i, 'm> {
    pub(crate) items: &'i [SheetItem],
    marks: &'m [Mark],
    stride: usize,
    ghost steps: { 0 < stride },
    ghost valid: { All (IsMark items.now) marks.now },
}

/// No steps stand before the first item.
pub(crate) fn start() -> Mark
    ensures place { result.place ≡ 0 }
    ensures number { result.number ≡ 0 }
{
    Mark {
        place: 0,
        number: 0,
    }
}

fn note(marks: &mut [Mark], at: usize, mark: Mark)
    ensures { marks.new ≡ slice_set marks.old at mark }
{
    if at < marks.len() {
        marks[at] = mark;
    }
}

fn clear(marks: &mut [Mark])
    ensures { (items : List SheetItem) → All (IsMark items) marks.new }
{
    marks.fill(start());
}

/// Notes the first step, and after it a step for each stride.
pub(crate) fn mark_steps(items: &[SheetItem], stride: usize, marks: &mut [Mark])
    requires { 0 < stride }
    ensures { All (IsMark items.now) marks.new }
{
    clear(marks);
    let mut number = 0;
    for (place, item) in items.iter().enumerate() {
        match item {
            SheetItem::Comment(_) => {}
            SheetItem::Step(_) => {
                if number % stride == 0 {
                    note(marks, number / stride, Mark { place, number });
                }
                number += 1;
            }
        }
    }
}

/// The name of the step of that number, counted from 0; no bytes past the last.
fn walk(items: &[SheetItem], number: usize) -> &[u8]
    ensures { result.now ≡ slice_index_or (names_of items.now) number [] }
{
    let mut left = number;
    for item in items {
        match item {
            SheetItem::Comment(_) => {}
            SheetItem::Step(step) => {
                if left == 0 {
                    return step.name.as_slice();
                }
                left -= 1;
            }
        }
    }
    b""
}

impl<'i, 'm> Index<'i, 'm> {
    pub(crate) fn new(items: &'i [SheetItem], stride: usize, marks: &'m [Mark]) -> Index<'i, 'm>
        requires stride { 0 < stride }
        requires valid { All (IsMark items.now) marks.now }
        ensures { result.items.now ≡ items.now }
    {
        Index {
            items,
            marks,
            stride,
        }
    }

    /// A mark before the step of that number, if the marks go so far.
    fn near(&self, number: usize) -> Mark
        ensures { IsMark self.now.items.now result }
    {
        match self.marks.get(number / self.stride) {
            None => start(),
            Some(mark) => *mark,
        }
    }

    /// The name of the step of that number, counted from 0; no bytes past the last.
    pub(crate) fn name(&self, number: u32) -> &'i [u8]
        ensures { result.now ≡ slice_index_or (names_of self.now.items.now) number [] }
    {
        let number = number as usize;
        let mark = self.near(number);
        if mark.number <= number {
            walk(&self.items[mark.place..], number - mark.number)
        } else {
            walk(self.items, number)
        }
    }
}
