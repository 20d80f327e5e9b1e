//! Worksheets that end too early.

use crate::calls::{check, honest, refused};
use crate::databases::{DEMO, PROP};
use mm_base::Status;
use std::test::Fail;

// A database, a text, and the line on its fault.
#[derive(Clone, Copy)]
struct Cut {
    database: &'static str,
    text: &'static str,
    line: &'static str,
}

const TEXTS: [Cut; 2] = [
    Cut {
        database: DEMO,
        text: "$( <MM> <PROOF_ASST> THEOREM=th1 LOC_AFTER=?
1::a2 |- ( t + 0 ) = t
2::a1 |- ( ( t + 0 ) = t -> ( ( t + 0 ) = t -> t = t ) )
3:1,2:mp |- ( ( t + 0 ) = t -> t = t )
qed:1,3:mp |- t = t
",
        line: "sheet error 42 NoFooter at line 6\n",
    },
    Cut {
        database: PROP,
        text: "$( <MM> <PROOF_ASST> THEOREM=r LOC_AFTER=?
h1::r.1 |- ph
h2::r.2 |- ( ph -> ps )
qed:1,2:ax-mp |- ps
$= wph
$)
",
        line: "sheet error 48 ProofUnended at line 5\n",
    },
];

#[test]
fn cut_texts(rt: HostRuntime) -> Result<(), Fail> {
    for row in TEXTS {
        let outside = honest(row.database.as_bytes(), row.text.as_bytes());
        let want = refused(Status::Sheet, row.line);
        check(&rt, rt.alloc(), &["unify", "P.mm", "r.mmp"], outside, want)?;
    }
    Ok(())
}
