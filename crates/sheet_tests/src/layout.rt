use crate::sheets::{SYLLOGISM, read_text};
use sheet_print::{layout, layout_len};
use sheet_read::Sheet;
use std::alloc::Global;

// The syllogism as it is written, with a compressed proof.
const WRITTEN: &[u8] = b"$( <MM> <PROOF_ASST> THEOREM=syl LOC_AFTER=?
* An inference version of the transitive laws for implication.
h1::syl.1 |- ( ph -> ps )
h2::syl.2 |- ( ps -> ch )
3:2:a1i |- ( ph -> ( ps -> ch ) )
4:3:a2i |- ( ( ph -> ps ) -> ( ph -> ch ) )
qed:1,4:ax-mp |- ( ph -> ch )
$= ( wi a1i a2i ax-mp ) ABFACFDABCBCFAEGHI $.
$)
";

const PROOF: &[u8] = b"( wi a1i a2i ax-mp ) ABFACFDABCBCFAEGHI";

// A label behind LOC_AFTER, a comment of two lines between steps, a place `?`, a blank formula, no reference, and pairs.
const SMALL: &[u8] = b"$( <MM> <PROOF_ASST> THEOREM=o LOC_AFTER=ax-1
1::
* one
   two
qed:?,1:ax-mp |- ps
$d ph x
$d x y z
$)
";

// The same with other white space, empty references and an ended `$d`.
const LOOSE: &[u8] = b"
$(   <MM> <PROOF_ASST>\tTHEOREM=o LOC_AFTER=ax-1\r
1::?
* one  \r
   two

qed:?,1:ax-mp
  |-  ps
$d ph
 x $.
$d x y z $.
$= ? $.
$)";

fn is_written(alloc: Global, sheet: &Sheet, proof: Option<&'static [u8]>, text: &[u8]) -> bool {
    match layout(alloc, sheet, proof) {
        Err(_) => false,
        Ok(written) => {
            written.as_slice() == text && layout_len(sheet, proof) == text.len() as u64
        }
    }
}

fn lays_out(alloc: Global, given: &[u8], proof: Option<&'static [u8]>, text: &[u8]) -> bool {
    match read_text(alloc, given) {
        Err(_) => false,
        Ok(sheet) => is_written(alloc, &sheet, proof, text),
    }
}

#[test]
fn lays_worksheets_out(rt: HostRuntime) {
    assert!(rt; lays_out(rt.alloc(), SYLLOGISM, Some(PROOF), WRITTEN));
    assert!(rt; lays_out(rt.alloc(), SMALL, None, SMALL));
    assert!(rt; lays_out(rt.alloc(), LOOSE, None, SMALL));
}
