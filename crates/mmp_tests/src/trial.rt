//! Trials of the program by itself.

use crate::calls::{Outside, Want, check, honest, refused};
use mm_base::Status;
use std::test::Fail;

// A number of blocks, and the lines on them.
const TRIALS: [(&str, &str); 4] = [
    ("1", "steps 5\nfits 5\nletters 28\nfinished\n"),
    ("2", "steps 13\nfits 13\nletters 67\nfinished\n"),
    ("200", "steps 1597\nfits 1597\nletters 14873\nfinished\n"),
    ("200", "steps 1597\nfits 1597\nletters 14873\nfinished\n"),
];

// No file is read, and nothing is written to the log.
fn closed() -> Outside<'static> {
    Outside {
        store_fails: &[1],
        log_fails: &[1],
        ..honest(b"", b"")
    }
}

#[test]
fn trials(rt: HostRuntime) -> Result<(), Fail> {
    for (blocks, lines) in TRIALS {
        let want = Want {
            status: Status::Finished,
            out: lines.as_bytes(),
            log: "",
        };
        check(&rt, rt.alloc(), &["trial", blocks], closed(), want)?;
    }
    Ok(())
}

#[test]
fn a_trial_without_output(rt: HostRuntime) -> Result<(), Fail> {
    let outside = Outside {
        out_fails: &[1],
        ..closed()
    };
    let want = refused(Status::Write, "");
    check(&rt, rt.alloc(), &["trial", "1"], outside, want)
}
