//! Reading a worksheet.

ghost use Rattle.std.specs.Prelude.{◌≡◌, ◌≤◌, length, MatchResult, IfOk, IfErr, Ok, Some};
ghost use Rattle.mm_base.specs.Limits.{most_sheet_bytes};
ghost use Rattle.sheet_text.specs.TextFaults.{line_fault};
ghost use Rattle.sheet_text.specs.Reads.{Reads};
ghost use Rattle.sheet_read.specs.Faults.{IsFault};
ghost use Rattle.sheet_read.specs.Parts.{line_in, lines_in, header_in};
ghost use Rattle.sheet_read.specs.Reading.{first_reading, read_lines};
ghost use Rattle.sheet_read.specs.Whole.{FailsWith, SheetFailsWith, begins_header, with_header, read_whole};

use crate::fault::{SheetCode, SheetFault};
use crate::forms::{HeaderForm, header_form};
use crate::lines::{TextLine, begins, first_token, lines_not_blank, tokens_in};
use crate::reader::Reader;
use crate::statements::indented;
use mm_base::{List, Memory, Name};
use sheet_text::Sheet;
use std::alloc::Global;

/// The lines behind the header's first line, where the line past the last has this number.
fn read_lines(alloc: Global, lines: &[TextLine<'_>], past: u32) -> Result<Reader, SheetFault>
    requires { length lines.now ≤ most_sheet_bytes }
    ensures { MatchResult result (λ r. read_lines past first_reading (lines_in lines.now) ≡ Ok r) (λ e. FailsWith e (read_lines past first_reading (lines_in lines.now))) }
{
    let mut reader = Reader::new(alloc);
    for at in 0..lines.len() {
        if reader.line(&lines[at], &lines[at + 1..])? {
            return Ok(reader);
        }
    }
    Err(reader.unended(past))
}

/// Whether a line begins in column 1 with the token `$(`.
fn begins_header(line: &TextLine<'_>) -> bool
    ensures { result ≡ begins_header (line_in line.now) }
{
    if !begins(line.bytes) {
        return false;
    }
    match first_token(line.bytes) {
        None => false,
        Some(token) => token == b"$(".as_slice(),
    }
}

/// The label of LOC_AFTER, where one is given.
fn label_of(alloc: Global, header: &HeaderForm<'_>) -> Result<Option<Name>, Memory>
    ensures { IfOk result (λ l. l ≡ (header_in header.now).loc) }
{
    match header.loc {
        None => Ok(None),
        Some(bytes) => Ok(Some(List::copy_of(alloc, bytes)?)),
    }
}

/// The sheet of a header at a line, and of the lines behind that line.
fn read_behind(
    alloc: Global,
    line: u32,
    header: &HeaderForm<'_>,
    behind: &[TextLine<'_>],
    past: u32,
) -> Result<Sheet, SheetFault>
    requires { length behind.now ≤ most_sheet_bytes }
    ensures { MatchResult result (λ s. with_header line (Some (header_in header.now)) (read_lines past first_reading (lines_in behind.now)) ≡ Ok s) (λ e. SheetFailsWith e (with_header line (Some (header_in header.now)) (read_lines past first_reading (lines_in behind.now)))) }
{
    let theorem = List::copy_of(alloc, header.theorem)?;
    let loc = label_of(alloc, header)?;
    let (items, pairs) = read_lines(alloc, behind, past)?.into_parts();
    Ok(Sheet {
        line,
        theorem,
        loc,
        items,
        pairs,
    })
}

/// The sheet of lines, where the line past the last has this number.
fn read_whole(alloc: Global, lines: &[TextLine<'_>], past: u32) -> Result<Sheet, SheetFault>
    requires { length lines.now ≤ most_sheet_bytes }
    ensures { MatchResult result (λ s. read_whole past (lines_in lines.now) ≡ Ok s) (λ e. SheetFailsWith e (read_whole past (lines_in lines.now))) }
{
    if lines.is_empty() {
        return Err(SheetFault::At(SheetCode::NoHeader, past));
    }
    let first = &lines[0];
    if !begins_header(first) {
        return Err(SheetFault::At(SheetCode::NoHeader, first.number));
    }
    let behind = &lines[1..];
    let tokens = tokens_in(alloc, first, indented(behind))?;
    match header_form(tokens.as_slice()) {
        None => Err(SheetFault::At(SheetCode::BadHeader, first.number)),
        Some(header) => read_behind(alloc, first.number, &header, behind, past),
    }
}

/// What the text of a worksheet says, or its first fault. White space is space, tab, CR, LF and FF. Line numbers count
/// from 1, and steps from 0; the numbers of the lines are in the sheet. It takes time in proportion to the text, and
/// memory in proportion to its lines and tokens.
pub fn read_sheet(alloc: Global, text: &[u8]) -> Result<Sheet, SheetFault>
    requires { length text.now ≤ most_sheet_bytes }

    // The text has no fault, and says this sheet.
    ensures reads { IfOk result (Reads text.now) }

    // The fault is the first one of the text, unless memory runs out.
    ensures first_fault { IfErr result (λ e. IsFault e (line_fault text.now)) }
{
    let (lines, past) = lines_not_blank(alloc, text)?;
    // Handed on by a `match`, which the checker follows.
    match read_whole(alloc, lines.as_slice(), past) {
        Ok(sheet) => Ok(sheet),
        Err(fault) => Err(fault),
    }
}
