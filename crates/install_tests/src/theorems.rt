ghost use Rattle.std.specs.Prelude.{◌≡◌, IfSome};
ghost use Rattle.mm_frames.specs.Contents.{contents_of};

use db_install::{install, place_byte};
use install_model::NewTheorem;
use mm_base::{List, MOST_DATABASE_BYTES, Memory, Name};
use mm_frames::{Frames, read};
use mm_tokens::tokens;
use std::alloc::Global;

const WITHOUT_HYPOTHESES: &[u8] = b"$c |- wff $. $v ph $. wph $f wff ph $. ax $a |- ph $.
";

// The lines stand before the LF behind the last statement.
const WITH_HYPOTHESES: &[u8] = b"$c |- wff $. $v ph $. wph $f wff ph $. ax $a |- ph $.
${
r.1 $e |- ph $.
r.2 $e |- ( ph -> ps ) $.
r $p |- ps $= ( ax-mp ) ABCDE $.
$}

";

// A comment stands behind the fifth statement.
const SHORT: &[u8] =
    b"$( $. $) $c |- w $. $v p q $. wp $f w p $. wq $f w q $. a $a |- p $. $( $. $) b $a |- q $.";

const WITHIN: &[u8] = b"$( $. $) $c |- w $. $v p q $. wp $f w p $. wq $f w q $. a $a |- p $.
${
$d p q $.
t $p |- p $= wp a $.
$}
 $( $. $) b $a |- q $.";

const AT_FRONT: &[u8] = b"
${
$d p q $.
t $p |- p $= wp a $.
$}
$c w $.";

fn name(alloc: Global, bytes: &[u8]) -> Result<Name, Memory> {
    Ok(List::from_vec(Vec::from_slice(alloc, bytes)?))
}

/// The tokens of a formula, parted by single spaces.
fn formula(alloc: Global, text: &[u8]) -> Result<List<Name>, Memory> {
    let mut tokens = Vec::new(alloc);
    for token in text.split(|b| *b == b' ') {
        tokens.push(name(alloc, token)?)?;
    }
    Ok(List::from_vec(tokens))
}

fn modus_ponens(alloc: Global) -> Result<NewTheorem, Memory> {
    let mut hyps = Vec::new(alloc);
    hyps.push((name(alloc, b"r.1")?, formula(alloc, b"|- ph")?))?;
    hyps.push((name(alloc, b"r.2")?, formula(alloc, b"|- ( ph -> ps )")?))?;
    Ok(NewTheorem {
        name: name(alloc, b"r")?,
        pairs: List::from_vec(Vec::new(alloc)),
        hyps: List::from_vec(hyps),
        formula: formula(alloc, b"|- ps")?,
        proof: name(alloc, b"( ax-mp ) ABCDE")?,
    })
}

fn with_pair(alloc: Global) -> Result<NewTheorem, Memory> {
    let mut pairs = Vec::new(alloc);
    pairs.push((name(alloc, b"p")?, name(alloc, b"q")?))?;
    Ok(NewTheorem {
        name: name(alloc, b"t")?,
        pairs: List::from_vec(pairs),
        hyps: List::from_vec(Vec::new(alloc)),
        formula: formula(alloc, b"|- p")?,
        proof: name(alloc, b"wp a")?,
    })
}

/// The text with the theorem is this one.
fn becomes(
    alloc: Global,
    text: &[u8],
    place: u32,
    theorem: Result<NewTheorem, Memory>,
    whole: &[u8],
) -> bool {
    match theorem {
        Err(_) => false,
        Ok(theorem) => is_whole(alloc, text, place, &theorem, whole),
    }
}

fn frames_of(alloc: Global, text: &[u8]) -> Option<Frames>
    ensures { IfSome result (λ frames. frames ≡ contents_of text.now) }
{
    if text.len() as u64 > MOST_DATABASE_BYTES {
        return None;
    }
    let Ok(tokens) = tokens(alloc, text) else {
        return None;
    };
    match read(alloc, text, &tokens) {
        Err(_) => None,
        Ok(frames) => Some(frames),
    }
}

fn is_whole(alloc: Global, text: &[u8], place: u32, theorem: &NewTheorem, whole: &[u8]) -> bool {
    let Some(frames) = frames_of(alloc, text) else {
        return false;
    };
    if place > frames.end() {
        return false;
    }
    match install(alloc, text, &frames, place, theorem) {
        Err(_) => false,
        Ok(installed) => installed.as_slice() == whole,
    }
}

/// The byte behind the statement before a place; none where the text has a fault or no such place.
fn byte_of(alloc: Global, text: &[u8], place: u32) -> Option<usize> {
    match frames_of(alloc, text) {
        None => None,
        Some(frames) if place > frames.end() => None,
        Some(frames) => Some(place_byte(text, &frames, place)),
    }
}

#[test]
fn puts_theorems_in(rt: HostRuntime) {
    let alloc = rt.alloc();
    assert!(rt; becomes(alloc, SHORT, 5, with_pair(alloc), WITHIN));
    assert!(rt; becomes(alloc, b"$c w $.", 0, with_pair(alloc), AT_FRONT));
    assert!(rt;
        becomes(
            alloc,
            WITHOUT_HYPOTHESES,
            4,
            modus_ponens(alloc),
            WITH_HYPOTHESES
        )
    );
}

#[test]
fn finds_places(rt: HostRuntime) {
    let alloc = rt.alloc();
    assert!(rt; byte_of(alloc, SHORT, 0) == Some(0));
    assert!(rt; byte_of(alloc, SHORT, 1) == Some(19));
    assert!(rt; byte_of(alloc, SHORT, 5) == Some(68));
    assert!(rt; byte_of(alloc, SHORT, 6) == Some(SHORT.len()));
    assert!(rt; byte_of(alloc, SHORT, 7) == None);
}
