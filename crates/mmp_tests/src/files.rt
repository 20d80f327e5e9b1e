//! Databases that are refused, before any worksheet is looked at.

use crate::calls::{Outside, check, honest, refused};
use mm_base::Status;
use std::test::Fail;

// A database that is refused, and the line that says why.
#[derive(Clone, Copy)]
struct Refused {
    text: &'static str,
    line: &'static str,
}

// Databases with a fault.
const DATABASES: [Refused; 19] = [
    Refused {
        text: "$c wff $. $v wff $.",
        line: "database error 12 Redeclared at byte 13\n",
    },
    Refused {
        text: "$c wff $. $v x $. ${ $d x x $. $}",
        line: "database error 25 DistinctTwice at byte 26\n",
    },
    Refused {
        text: "$c wff $. $c wff $.",
        line: "database error 12 Redeclared at byte 13\n",
    },
    Refused {
        text: "$c $.",
        line: "database error 26 EmptyFormula at byte 3\n",
    },
    Refused {
        text: "$c a$b $.",
        line: "database error 4 BadKeyword at byte 3\n",
    },
    Refused {
        text: "$c wff",
        line: "database error 21 Unended at byte 6\n",
    },
    Refused {
        text: "$c ( ) -> -. wff |-",
        line: "database error 21 Unended at byte 19\n",
    },
    Refused {
        text: "$c wff $. ${",
        line: "database error 22 BlockOpen at byte 12\n",
    },
    Refused {
        text: "$c wff $. $}",
        line: "database error 23 BlockUnopened at byte 10\n",
    },
    Refused {
        text: "$c wff $. $v x $. wx $f wff x x $.",
        line: "database error 27 BadHypothesis at byte 30\n",
    },
    Refused {
        text: "$c wff $. $v x $. wx $f wff x $. wy $f wff x $.",
        line: "database error 15 TwoTypes at byte 43\n",
    },
    Refused {
        text: "$c wff a $. $v x $. e $a wff a x $.",
        line: "database error 14 NoType at byte 31\n",
    },
    Refused {
        text: "$c wff a $. e $a wff b $.",
        line: "database error 13 NotActive at byte 21\n",
    },
    Refused {
        text: "$c wff a b $. e $a wff a $. e $a wff b $.",
        line: "database error 17 LabelTaken at byte 28\n",
    },
    Refused {
        text: "$c wff a $. e/f $a wff a $.",
        line: "database error 20 BadLabel at byte 12\n",
    },
    Refused {
        text: "$c wff a $. $a wff a $.",
        line: "database error 18 LabelMissing at byte 12\n",
    },
    Refused {
        text: "$( a",
        line: "database error 2 OpenComment at byte 4\n",
    },
    Refused {
        text: "$[ x $]",
        line: "database error 10 Include at byte 0\n",
    },
    Refused {
        text: "$c a $. ${ $c b $. $}",
        line: "database error 11 ConstInBlock at byte 11\n",
    },
];

#[test]
fn databases_are_refused(rt: HostRuntime) -> Result<(), Fail> {
    for row in DATABASES {
        let outside = Outside {
            // the worksheet is not read
            store_fails: &[2],
            ..honest(row.text.as_bytes(), b"")
        };
        let want = refused(Status::Database, row.line);
        check(&rt, rt.alloc(), &["unify", "P.mm", "r.mmp"], outside, want)?;
        check(
            &rt,
            rt.alloc(),
            &["unify", "--in-place", "P.mm", "r.mmp"],
            outside,
            want,
        )?;
        check(&rt, rt.alloc(), &["verify", "P.mm", "th"], outside, want)?;
        check(&rt, rt.alloc(), &["export", "P.mm", "th"], outside, want)?;
        check(
            &rt,
            rt.alloc(),
            &["install", "P.mm", "r.mmp"],
            outside,
            want,
        )?;
    }
    Ok(())
}
