//! The line of a proof.

ghost use Rattle.std.specs.Prelude.{◌≡◌, ◌≤◌, find, length, option_map, IfOk};
ghost use Rattle.mm_base.specs.Limits.{most_sheet_bytes};
ghost use Rattle.sheet_read.specs.Parts.{line_in, lines_in, targets};
ghost use Rattle.sheet_text.specs.Lines.{lines_not_blank as lines_of_text, tokens};
ghost use Rattle.sheet_text.specs.SheetStatements as statements;

use crate::lines::{TextLine, begins, first_token, lines_not_blank, tokens_in};
use mm_base::Memory;
use std::alloc::Global;

// Whether a proof begins at a line.
fn opens_proof(line: &TextLine<'_>) -> bool
    ensures { result ≡ statements.opens_proof (line_in line.now) }
{
    if !begins(line.bytes) {
        return false;
    }
    match first_token(line.bytes) {
        None => false,
        Some(token) => token == b"$=".as_slice(),
    }
}

// The first line of these at which a proof begins.
fn find_line<'l, 'a>(lines: &'l [TextLine<'a>]) -> Option<&'l TextLine<'a>>
    ensures { option_map (λ l. line_in l.now) result ≡ find statements.opens_proof (lines_in lines.now) }
{
    for line in lines {
        if opens_proof(line) {
            return Some(line);
        }
    }
    None
}

/// The tokens of the first line of a text that begins with the token `$=`; none where there is no such line. In a worksheet
/// that was written it is the whole proof, with the `$=` and the `$.`.
pub fn proof_tokens<'a>(alloc: Global, text: &'a [u8]) -> Result<Option<Vec<&'a [u8]>>, Memory>
    requires { length text.now ≤ most_sheet_bytes }
    ensures { IfOk result (λ found. option_map (λ line. targets line.items) found ≡ option_map tokens (find statements.opens_proof (lines_of_text text.now))) }
{
    let (lines, _) = lines_not_blank(alloc, text)?;
    match find_line(lines.as_slice()) {
        None => Ok(None),
        Some(line) => {
            let tokens = tokens_in(alloc, line, &[])?;
            Ok(Some(tokens))
        }
    }
}
