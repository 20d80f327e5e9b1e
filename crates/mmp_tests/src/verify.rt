//! Proofs that are checked.

use crate::calls::{Outside, Want, check, honest, joined};
use crate::databases::{DEMO, PROP, THEOREMS};
use mm_base::Status;
use std::test::Fail;

// A theorem, and what is said of its proof.
#[derive(Clone, Copy)]
struct Verified {
    theorem: &'static str,
    status: Status,
    out: &'static str,
    log: &'static str,
}

const VERIFIED: [Verified; 10] = [
    Verified {
        theorem: "good",
        status: Status::Finished,
        out: "good accepted\n",
        log: "",
    },
    Verified {
        theorem: "bad",
        status: Status::Proof,
        out: "",
        log: "code error 3 MarkAtStart at 0\n",
    },
    Verified {
        theorem: "wrong",
        status: Status::Proof,
        out: "",
        log: "proof error 8 ResultDiffers at 3\n",
    },
    Verified {
        theorem: "open",
        status: Status::Proof,
        out: "",
        log: "proof error 9 Unknown at 0\n",
    },
    Verified {
        theorem: "empty",
        status: Status::Proof,
        out: "",
        log: "proof error 7 LeftOver at 0\n",
    },
    Verified {
        theorem: "late",
        status: Status::Proof,
        out: "",
        log: "proof error 6 NotEarlier at 2\n",
    },
    Verified {
        theorem: "last",
        status: Status::Finished,
        out: "last accepted\n",
        log: "",
    },
    Verified {
        theorem: "ax-1",
        status: Status::Proof,
        out: "",
        log: "no theorem ax-1\n",
    },
    Verified {
        theorem: "wph",
        status: Status::Proof,
        out: "",
        log: "no theorem wph\n",
    },
    Verified {
        theorem: "nosuch",
        status: Status::Proof,
        out: "",
        log: "no theorem nosuch\n",
    },
];

// What is said of these theorems, and of one of another database.
#[test]
fn proofs_are_checked(rt: HostRuntime) -> Result<(), Fail> {
    let database = joined(rt.alloc(), &[PROP, THEOREMS])?;
    for row in VERIFIED {
        let outside = Outside {
            // the one read of a call
            store_fails: &[2],
            ..honest(database.as_slice(), b"")
        };
        let want = Want {
            status: row.status,
            out: row.out.as_bytes(),
            log: row.log,
        };
        check(
            &rt,
            rt.alloc(),
            &["verify", "P.mm", row.theorem],
            outside,
            want,
        )?;
    }
    let want = Want {
        status: Status::Finished,
        out: b"th1 accepted\n",
        log: "",
    };
    check(
        &rt,
        rt.alloc(),
        &["verify", "P.mm", "th1"],
        honest(DEMO.as_bytes(), b""),
        want,
    )
}
