//! The databases of the rows.

/// The first example of the Metamath book.
pub const DEMO: &str = "$c 0 + = -> ( ) term wff |- $.
$v t r s P Q $.
tt $f term t $.
tr $f term r $.
ts $f term s $.
wp $f wff P $.
wq $f wff Q $.
tze $a term 0 $.
tpl $a term ( t + r ) $.
weq $a wff t = r $.
wim $a wff ( P -> Q ) $.
a1 $a |- ( t = r -> ( t = s -> r = s ) ) $.
a2 $a |- ( t + 0 ) = t $.
${
  min $e |- P $.
  maj $e |- ( P -> Q ) $.
  mp $a |- Q $.
$}
th1 $p |- t = t $=
  tt tze tpl tt weq tt tt weq tt a2 tt tze tpl
  tt weq tt tze tpl tt weq tt tt weq wim tt a2
  tt tze tpl tt tt a1 mp mp $.
";

/// Implication and negation, two axioms and modus ponens.
pub const PROP: &str = "$c ( ) -> -. wff |- $.
$v ph ps ch $.
wph $f wff ph $.
wps $f wff ps $.
wch $f wff ch $.
wn $a wff -. ph $.
wi $a wff ( ph -> ps ) $.
${
  min $e |- ph $.
  maj $e |- ( ph -> ps ) $.
  ax-mp $a |- ps $.
$}
ax-1 $a |- ( ph -> ( ps -> ph ) ) $.
ax-2 $a |- ( ( ph -> ( ps -> ch ) ) -> ( ( ph -> ps ) -> ( ph -> ch ) ) ) $.
";

/// Behind `PROP`: sets and classes, and assertions with hypotheses and with pairs of distinct variables.
pub const SETS: &str = "$c setvar class { } | = A. $.
$v x y A B $.
vx $f setvar x $.
vy $f setvar y $.
cA $f class A $.
cB $f class B $.
cv $a class x $.
cab $a class { x | ph } $.
wceq $a wff A = B $.
wal $a wff A. x ph $.
${
  a1i.1 $e |- ph $.
  a1i $a |- ( ps -> ph ) $.
$}
${
  a2i.1 $e |- ( ph -> ( ps -> ch ) ) $.
  a2i $a |- ( ( ph -> ps ) -> ( ph -> ch ) ) $.
$}
${
  $d x ph $.
  ax-5 $a |- ( ph -> A. x ph ) $.
$}
eqid $a |- A = A $.
${
  drop.1 $e |- ( ph -> A. x ph ) $.
  drop $a |- ( ph -> ph ) $.
$}
${
  pair.1 $e |- ph $.
  pair $a |- ( ph -> ph ) $.
$}
ax-1c $a |- ( ph -> ( ps -> ph ) ) $.
";

/// Behind those: a second way to write an equation of sets.
pub const SETS_TWICE: &str = "weqx $a wff x = y $.
eqv $a |- x = x $.
${
  sel.1 $e |- A = A $.
  sel $a |- { x | ph } = A $.
$}
";

/// An assertion that any formula fits.
pub const ANY: &str = "any $a |- ph $.
";

/// As `PROP`, with other names of the two typecodes.
pub const FORMS: &str = "$c ( ) -> -. form T $.
$v ph ps ch $.
wph $f form ph $.
wps $f form ps $.
wch $f form ch $.
wn $a form -. ph $.
wi $a form ( ph -> ps ) $.
${
  min $e T ph $.
  maj $e T ( ph -> ps ) $.
  ax-mp $a T ps $.
$}
ax-1 $a T ( ph -> ( ps -> ph ) ) $.
ax-2 $a T ( ( ph -> ( ps -> ch ) ) -> ( ( ph -> ps ) -> ( ph -> ch ) ) ) $.
";

/// A constant with the name of a work variable.
pub const DECLARED: &str = "$c &W1 $.
";

/// A theorem.
pub const GOOD: &str = "good $p |- ( ph -> ( ps -> ph ) ) $= ( ax-1 ) ABC $.
";

/// Behind `PROP`: theorems over implications, with a right proof and with wrong ones.
pub const THEOREMS: &str = "\
good $p |- ( ph -> ( ps -> ph ) ) $= ( ax-1 ) ABC $.\n\
bad $p |- ( ph -> ( ps -> ph ) ) $= ( ) ZA $.\n\
wrong $p |- ( ph -> ( ph -> ph ) ) $= wph wps ax-1 $.\n\
open $p |- ph $= ? $.\n\
empty $p |- ph $= $.\n\
late $p |- ( ph -> ( ps -> ph ) ) $= wph wps last $.\n\
last $p |- ( ph -> ( ps -> ph ) ) $= $( the same $) wph wps ax-1 $.\n\
";

/// A production whose variables stand in another order than its frame has them.
pub const TURNED: &str = "$c ( ) ~> wff |- $. $v p q $. wp $f wff p $. wq $f wff q $.
wr $a wff ( q ~> p ) $. ax $a |- ( q ~> p ) $.
";

/// Implication over sets and classes.
pub const Q: &[&str] = &[PROP, SETS];

/// The same, where an equation of sets has two trees.
pub const Q_TWICE: &[&str] = &[PROP, SETS, SETS_TWICE];
