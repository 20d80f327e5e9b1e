//! A worksheet that is cut after each of its lines.

use crate::calls::{check, refused};
use crate::given::{PROP, SHEET};
use mm_base::Status;
use std::test::Fail;

// What is said of the first lines, one more in each row.
const CUT: [&str; 5] = [
    "sheet error 40 NoHeader at line 1\n",
    "sheet error 42 NoFooter at line 2\n",
    "sheet error 42 NoFooter at line 3\n",
    "sheet error 42 NoFooter at line 4\n",
    "sheet error 42 NoFooter at line 5\n",
];

// The text without its first line.
fn without_line(text: &[u8]) -> &[u8] {
    match text.iter().position(|byte| *byte == b'\n') {
        Some(at) => text.get(at + 1..).unwrap_or(b""),
        None => b"",
    }
}

// The text before the rest.
fn before<'t>(text: &'t [u8], rest: &[u8]) -> &'t [u8] {
    text.get(..text.len().saturating_sub(rest.len()))
        .unwrap_or(text)
}

#[test]
fn worksheets_are_cut_after_each_line(rt: HostRuntime) -> Result<(), Fail> {
    let text = SHEET.as_bytes();
    let mut rest = text;
    for line in CUT {
        let want = refused(Status::Sheet, line);
        check(
            &rt,
            rt.alloc(),
            line,
            PROP.as_bytes(),
            before(text, rest),
            want,
        )?;
        rest = without_line(rest);
    }
    assert!(rt; rest.is_empty());
    Ok(())
}
