//! A small database, a worksheet over it, and what comes of that.

/// Implication and negation, two axioms and modus ponens.
pub const PROP: &str = "$c ( ) -> -. wff |- $.
$v ph ps ch $.
wph $f wff ph $.
wps $f wff ps $.
wch $f wff ch $.
wn $a wff -. ph $.
wi $a wff ( ph -> ps ) $.
${
  min $e |- ph $.
  maj $e |- ( ph -> ps ) $.
  ax-mp $a |- ps $.
$}
ax-1 $a |- ( ph -> ( ps -> ph ) ) $.
ax-2 $a |- ( ( ph -> ( ps -> ch ) ) -> ( ( ph -> ps ) -> ( ph -> ch ) ) ) $.
";

/// Modus ponens.
pub const SHEET: &str = "$( <MM> <PROOF_ASST> THEOREM=r LOC_AFTER=?
h1::r.1 |- ph
h2::r.2 |- ( ph -> ps )
qed:1,2:ax-mp |- ps
$)
";

/// The same with its normal proof.
pub const WRITTEN: &str = "$( <MM> <PROOF_ASST> THEOREM=r LOC_AFTER=?
h1::r.1 |- ph
h2::r.2 |- ( ph -> ps )
qed:1,2:ax-mp |- ps
$= wph wps r.1 r.2 ax-mp $.
$)
";

/// What is written behind the database where its theorem is put in.
pub const BLOCK: &str = "${
r.1 $e |- ph $.
r.2 $e |- ( ph -> ps ) $.
r $p |- ps $= wph wps r.1 r.2 ax-mp $.
$}

";

/// The report on it.
pub const REPORT: &str = "1 hyp
2 hyp
qed fits ax-mp
finished
";

/// The words that write it to the output.
pub const TO_OUTPUT: &[&str] = &["unify", "--proof=normal", "P.mm", "r.mmp"];

/// The words that write it to the output with its steps filled; it has none that could be.
pub const FILLED: &[&str] = &["auto", "--proof=normal", "P.mm", "r.mmp"];

/// The words that write it in the place of the worksheet.
pub const IN_PLACE: &[&str] = &["unify", "--proof=normal", "--in-place", "P.mm", "r.mmp"];

/// The words that write the database with its theorem to the output.
pub const INTO_DATABASE: &[&str] = &["install", "--proof=normal", "P.mm", "r.mmp"];

/// The words that list what fits its last step.
pub const LABELS: &[&str] = &["select", "--proof=normal", "P.mm", "r.mmp", "qed"];
