//! Words that fit no command, and words that do.

use crate::calls::{Outside, check, honest, refused};
use crate::databases::PROP;
use mm_base::Status;
use std::test::Fail;

const USAGE: &str =
    "usage: mmp unify [--proof=normal|compressed] [--in-place] [--dv=add|given] [--provable=T] [--logic=T] DB SHEET | \
mmp verify DB LABEL | mmp trial N | mmp export [options] DB LABEL | mmp install [options] DB SHEET | \
mmp select [options] DB SHEET STEP | mmp auto [options] DB SHEET\n";

const WRONG: [&[&str]; 86] = [
    &[],
    &[""],
    &["check", "P.mm", "r.mmp"],
    &["unify", "P.mm"],
    &["unify", "P.mm", "r.mmp", "s.mmp"],
    &["unify", "--proof=normal", "--proof=normal", "P.mm", "r.mmp"],
    &[
        "unify",
        "--proof=normal",
        "--proof=compressed",
        "P.mm",
        "r.mmp",
    ],
    &["unify", "--in-place", "--in-place", "P.mm", "r.mmp"],
    &["unify", "--in-place=yes", "P.mm", "r.mmp"],
    &["unify", "--dv=add", "--dv=given", "P.mm", "r.mmp"],
    &["unify", "--dv=some", "P.mm", "r.mmp"],
    &["unify", "--provable=", "P.mm", "r.mmp"],
    &["unify", "--provable", "P.mm", "r.mmp"],
    &["unify", "--provable=wff", "P.mm", "r.mmp"],
    &["unify", "--logic=|-", "P.mm", "r.mmp"],
    &["unify", "--logic=T", "--provable=T", "P.mm", "r.mmp"],
    &["unify", "P.mm", "r.mmp", "--proof=normal"],
    &["unify", "P.mm", "--in-place", "r.mmp"],
    &["unify", "--proof=short", "P.mm", "r.mmp"],
    &["unify", "--proof=normal", "", "r.mmp"],
    &["verify", "P.mm"],
    &["verify", "P.mm", ""],
    &["verify", "P.mm", "--th"],
    &["verify", "--proof=normal", "P.mm", "th"],
    &["verify", "P.mm", "th", "th"],
    &["trial"],
    &["trial", "0"],
    &["trial", "01"],
    &["trial", "1001"],
    &["trial", "1", "2"],
    &["export"],
    &["export", "P.mm"],
    &["export", "P.mm", ""],
    &["export", "", "th"],
    &["export", "P.mm", "--th"],
    &["export", "P.mm", "th", "th"],
    &["export", "P.mm", "--proof=normal", "th"],
    &["export", "P.mm", "th", "--proof=normal"],
    &["export", "--in-place", "P.mm", "th"],
    &["export", "--proof=normal", "--in-place", "P.mm", "th"],
    &["export", "--proof=short", "P.mm", "th"],
    &["export", "--dv=add", "--dv=given", "P.mm", "th"],
    &["export", "--provable=", "P.mm", "th"],
    &["export", "--provable=wff", "P.mm", "th"],
    &["export", "--logic=T", "--provable=T", "P.mm", "th"],
    &["install"],
    &["install", "P.mm"],
    &["install", "P.mm", ""],
    &["install", "", "r.mmp"],
    &["install", "P.mm", "--r.mmp"],
    &["install", "P.mm", "r.mmp", "s.mmp"],
    &["install", "P.mm", "--proof=normal", "r.mmp"],
    &["install", "P.mm", "r.mmp", "--proof=normal"],
    &["install", "--in-place", "P.mm", "r.mmp"],
    &["install", "--in-place", "--dv=given", "P.mm", "r.mmp"],
    &[
        "install",
        "--proof=normal",
        "--proof=normal",
        "P.mm",
        "r.mmp",
    ],
    &["install", "--dv=some", "P.mm", "r.mmp"],
    &["install", "--logic", "P.mm", "r.mmp"],
    &["install", "--logic=|-", "P.mm", "r.mmp"],
    &["install", "--provable=T", "--logic=T", "P.mm", "r.mmp"],
    &["select"],
    &["select", "P.mm"],
    &["select", "P.mm", "r.mmp"],
    &["select", "P.mm", "r.mmp", ""],
    &["select", "P.mm", "", "qed"],
    &["select", "", "r.mmp", "qed"],
    &["select", "--P.mm", "r.mmp", "qed"],
    &["select", "P.mm", "--r.mmp", "qed"],
    &["select", "P.mm", "r.mmp", "--qed"],
    &["select", "P.mm", "r.mmp", "qed", "1"],
    &["select", "P.mm", "--dv=given", "r.mmp", "qed"],
    &["select", "P.mm", "r.mmp", "qed", "--dv=given"],
    &["select", "--in-place", "P.mm", "r.mmp", "qed"],
    &["select", "--dv=add", "--dv=given", "P.mm", "r.mmp", "qed"],
    &["select", "--dv=some", "P.mm", "r.mmp", "qed"],
    &["select", "--provable=", "P.mm", "r.mmp", "qed"],
    &[
        "select",
        "--provable=T",
        "--logic=T",
        "P.mm",
        "r.mmp",
        "qed",
    ],
    &["auto"],
    &["auto", "P.mm"],
    &["auto", "P.mm", ""],
    &["auto", "P.mm", "--r.mmp"],
    &["auto", "P.mm", "r.mmp", "qed"],
    &["auto", "P.mm", "r.mmp", "--dv=given"],
    &["auto", "--in-place", "P.mm", "r.mmp"],
    &["auto", "--dv=add", "--dv=given", "P.mm", "r.mmp"],
    &["auto", "--provable=T", "--logic=T", "P.mm", "r.mmp"],
];

// Words of commands that are answered by the first fault of the database.
const RIGHT: [&[&str]; 17] = [
    &["unify", "P.mm", "r.mmp"],
    &["unify", "--proof=normal", "P.mm", "r.mmp"],
    &["unify", "--in-place", "--proof=compressed", "P.mm", "r.mmp"],
    &["unify", "--dv=given", "--in-place", "P.mm", "r.mmp"],
    &[
        "unify",
        "--logic=form",
        "--dv=add",
        "--provable=T=U",
        "--proof=normal",
        "--in-place",
        "P.mm",
        "r.mmp",
    ],
    &["unify", "--provable=wff", "--logic=|-", "P.mm", "r.mmp"],
    &["export", "P.mm", "th"],
    &["export", "--proof=normal", "P.mm", "th"],
    &[
        "export",
        "--logic=form",
        "--dv=given",
        "--provable=T=U",
        "--proof=compressed",
        "P.mm",
        "th",
    ],
    &["install", "P.mm", "r.mmp"],
    &["install", "--dv=add", "P.mm", "r.mmp"],
    &[
        "install",
        "--proof=normal",
        "--provable=wff",
        "--dv=given",
        "--logic=|-",
        "P.mm",
        "r.mmp",
    ],
    &["select", "P.mm", "r.mmp", "qed"],
    &["select", "--dv=given", "P.mm", "r.mmp", "1"],
    &[
        "select",
        "--logic=|-",
        "--proof=normal",
        "--provable=wff",
        "--dv=add",
        "P.mm",
        "r.mmp",
        "d1",
    ],
    &["auto", "P.mm", "r.mmp"],
    &[
        "auto",
        "--logic=|-",
        "--proof=normal",
        "--provable=wff",
        "--dv=given",
        "P.mm",
        "r.mmp",
    ],
];

#[test]
fn wrong_words_are_refused(rt: HostRuntime) -> Result<(), Fail> {
    for words in WRONG {
        let outside = Outside {
            store_fails: &[1],
            out_fails: &[1],
            ..honest(PROP.as_bytes(), b"")
        };
        check(
            &rt,
            rt.alloc(),
            words,
            outside,
            refused(Status::Words, USAGE),
        )?;
    }
    for words in RIGHT {
        let want = refused(
            Status::Database,
            "database error 26 EmptyFormula at byte 3\n",
        );
        check(&rt, rt.alloc(), words, honest(b"$c $.", b""), want)?;
    }
    Ok(())
}
