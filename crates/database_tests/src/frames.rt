use mm_base::{Label, MOST_DATABASE_BYTES, Memory, Pair, Sym};
use mm_frames::{Frames, Hyp, ReadFault, read};
use mm_tokens::tokens;
use std::alloc::{AllocError, Global};
use std::test::Fail;

fn read_text(alloc: Global, text: &[u8]) -> Result<Frames, Option<ReadFault>> {
    if text.len() as u64 > MOST_DATABASE_BYTES {
        return Err(None);
    }
    match tokens(alloc, text) {
        Err(_) => Err(None),
        Ok(tokens) => match read(alloc, text, &tokens) {
            Ok(frames) => Ok(frames),
            Err(fault) => Err(Some(fault)),
        },
    }
}

fn fault_of(alloc: Global, text: &[u8]) -> Option<ReadFault> {
    match read_text(alloc, text) {
        Ok(_) => None,
        Err(fault) => fault,
    }
}

const FAULTS: &[(&[u8], ReadFault)] = &[
    (b"$[ x $]", ReadFault::Include(0)),
    (b"$c a $. ${ $c b $. $}", ReadFault::ConstInBlock(11)),
    (b"$c wff $. $v wff $.", ReadFault::Redeclared(13)),
    (b"$v x x $.", ReadFault::Redeclared(5)),
    (b"$c ( ) -> -. wff |-", ReadFault::Unended(19)),
    (b"$c $= $.", ReadFault::EmptyFormula(3)),
    (b"$c a $= $.", ReadFault::StrayToken(5)),
    (b"$c a $. ${ $v", ReadFault::Unended(13)),
    (b"${ ${ $}", ReadFault::BlockOpen(8)),
    (b"${ $} $}", ReadFault::BlockUnopened(6)),
    (b"$c a $. l $a a $. l l", ReadFault::LabelTaken(18)),
    (b"l $a $a", ReadFault::LabelMissing(5)),
    (b"x! y", ReadFault::LabelExtra(0)),
    (b"x!", ReadFault::BadLabel(0)),
    (b"$v x $. f $f x x $.", ReadFault::FirstNotConst(13)),
    (
        b"$c a $. $v x $. f $f a x $. g $f a x $.",
        ReadFault::TwoTypes(35),
    ),
    (b"$c a $. f $f a $.", ReadFault::BadHypothesis(15)),
    (b"$c a $. $v x $. f $a a x $.", ReadFault::NoType(23)),
    (b"$c a $. f $a a b $.", ReadFault::NotActive(15)),
    (b"$v x $. $d x $.", ReadFault::DistinctShort(13)),
    (b"$v x y $. $d x y x $.", ReadFault::DistinctTwice(17)),
    (b"$c a $. t $p a $.", ReadFault::NoProof(15)),
];

#[test]
fn first_faults(rt: HostRuntime) {
    for (text, fault) in FAULTS {
        assert!(rt; fault_of(rt.alloc(), text) == Some(*fault));
    }
}

// The text `${ ` so many times.
fn deep(alloc: Global, blocks: u32) -> Result<Vec<u8>, AllocError> {
    let mut text = Vec::new(alloc);
    for _ in 0..blocks {
        text.extend_from_slice(b"${ ")?;
    }
    Ok(text)
}

#[test]
fn blocks_may_be_nested_deeply(rt: HostRuntime) -> Result<(), Fail> {
    let text = deep(rt.alloc(), 100_000)?;
    assert!(rt; text.len() == 300_000);
    assert!(rt; fault_of(rt.alloc(), text.as_slice()) == Some(ReadFault::BlockOpen(300_000)));
    Ok(())
}

// The label of a name, its position and the bytes of its proof.
fn statement(frames: &Frames, name: &[u8]) -> Option<(u32, Option<(u32, u32)>)> {
    let label = frames.label(name)?;
    if label.0 >= frames.labels() || frames.label_name(label) != name {
        return None;
    }
    Some((frames.position(label), frames.proof(label)))
}

fn byte_at(frames: &Frames, place: u32) -> Option<u32> {
    if place > frames.end() {
        return None;
    }
    Some(frames.place_byte(place))
}

fn has_names(frames: &Frames) -> bool {
    frames.end() == 4
        && frames.labels() == 2
        && frames.symbols() == 2
        && frames.symbol(b"x") == Some(Sym(1))
        && frames.label(b"x").is_none()
}

fn has_places(frames: &Frames) -> bool {
    statement(frames, b"t") == Some((3, Some((39, 42))))
        && byte_at(frames, 2) == Some(16)
        && byte_at(frames, 4) == Some(44)
        && frames.constants().len() == 2
}

const LOGIC: &[u8] =
    b"$c ( ) -> -. wff |- $. $v ph ps ch $. wph $f wff ph $. wps $f wff ps $. wch $f wff ch $.
wn $a wff -. ph $. wi $a wff ( ph -> ps ) $.
${ min $e |- ph $. maj $e |- ( ph -> ps ) $. ax-mp $a |- ps $. $}
ax-1 $a |- ( ph -> ( ps -> ph ) ) $. ax-2 $a |- ( ( ph -> ( ps -> ch ) ) -> ( ( ph -> ps ) -> ( ph -> ch ) ) ) $.
$c setvar class { } | = A. $. $v x y A B $. vx $f setvar x $. vy $f setvar y $. cA $f class A $. cB $f class B $.
cv $a class x $. cab $a class { x | ph } $. wceq $a wff A = B $. wal $a wff A. x ph $.
${ a1i.1 $e |- ph $. a1i $a |- ( ps -> ph ) $. $}
${ a2i.1 $e |- ( ph -> ( ps -> ch ) ) $. a2i $a |- ( ( ph -> ps ) -> ( ph -> ch ) ) $. $}
${ $d x ph $. ax-5 $a |- ( ph -> A. x ph ) $. $}
eqid $a |- A = A $. ${ drop.1 $e |- ( ph -> A. x ph ) $. drop $a |- ( ph -> ph ) $. $}
two $p |- ( ph -> ph ) $= ? $.";

fn write_symbols(frames: &Frames, line: &mut Vec<u8>, symbols: &[Sym]) -> Result<(), AllocError> {
    for symbol in symbols {
        if symbol.0 < frames.symbols() {
            line.extend_from_slice(frames.symbol_name(*symbol))?;
        }
        line.push(b' ')?;
    }
    line.extend_from_slice(b"; ")?;
    Ok(())
}

fn write_names(line: &mut Vec<u8>, hyps: &[Hyp]) -> Result<(), AllocError> {
    for hyp in hyps {
        line.extend_from_slice(hyp.name.as_slice())?;
        line.push(b' ')?;
    }
    line.extend_from_slice(b"; ")?;
    Ok(())
}

fn write_pairs(frames: &Frames, line: &mut Vec<u8>, pairs: &[Pair]) -> Result<(), AllocError> {
    for pair in pairs {
        write_symbols(frames, line, &[pair.a, pair.b])?;
    }
    Ok(())
}

// The formula, the hypotheses and the pairs of a label's frame.
fn frame_line(alloc: Global, frames: &Frames, name: &[u8]) -> Result<Vec<u8>, Memory> {
    let mut line = Vec::new(alloc);
    let label = frames.label(name).unwrap_or(Label(u32::MAX));
    if let Some(frame) = frames.frame(label) {
        write_symbols(frames, &mut line, frame.formula.as_slice())?;
        write_names(&mut line, frame.hyps.as_slice())?;
        write_pairs(frames, &mut line, frame.pairs.as_slice())?;
    }
    Ok(line)
}

// The variables, the hypotheses and the pairs that are active at a place.
fn active_line(alloc: Global, frames: &Frames, place: u32) -> Result<Vec<u8>, Memory> {
    let mut line = Vec::new(alloc);
    if place <= frames.end() {
        let active = frames.active_at(place)?;
        write_symbols(frames, &mut line, active.variables.as_slice())?;
        write_names(&mut line, active.hyps.as_slice())?;
        write_pairs(frames, &mut line, active.pairs.as_slice())?;
    }
    Ok(line)
}

const FRAMES: &[(&[u8], &[u8])] = &[
    (b"ax-mp", b"|- ps ; wph wps min maj ; "),
    (b"ax-5", b"|- ( ph -> A. x ph ) ; wph vx ; ph x ; "),
    (b"drop", b"|- ( ph -> ph ) ; wph vx drop.1 ; "),
    (b"min", b""),
];

const ACTIVE: &[(u32, &[u8])] = &[
    (10, b"ph ps ch ; wph wps wch min maj ; "),
    (34, b"ph ps ch x y A B ; wph wps wch vx vy cA cB ; ph x ; "),
];

fn is_line(found: Result<Vec<u8>, Memory>, line: &[u8]) -> bool {
    match found {
        Err(_) => false,
        Ok(found) => found.as_slice() == line,
    }
}

fn have_frames(alloc: Global, frames: &Frames) -> bool {
    FRAMES.iter().all(|(name, line)| is_line(frame_line(alloc, frames, name), line))
}

fn have_active(alloc: Global, frames: &Frames) -> bool {
    ACTIVE.iter().all(|(place, line)| is_line(active_line(alloc, frames, *place), line))
}

fn is_constant(frames: &Frames, name: &[u8], place: u32) -> Option<bool> {
    let symbol = frames.symbol(name)?;
    if place > frames.end() {
        return None;
    }
    Some(frames.constant_at(symbol, place))
}

fn behind(frames: &Frames, name: &[u8]) -> Option<u32> {
    let label = frames.label(name)?;
    if label.0 >= frames.labels() {
        return None;
    }
    Some(frames.place_after(label))
}

fn codes(frames: &Frames, place: u32) -> Option<usize> {
    if place > frames.end() {
        return None;
    }
    Some(frames.float_codes(place).ok()?.as_slice().len())
}

// Where a constant begins to be one, the place behind a block, the typecodes of the first three `$f`, and the number of
// the assertions.
fn have_places(frames: &Frames) -> bool {
    is_constant(frames, b"class", 14) == Some(false)
        && is_constant(frames, b"class", 15) == Some(true)
        && behind(frames, b"min") == Some(12)
        && codes(frames, 5) == Some(3)
        && frames.frames().iter().filter(|f| f.is_some()).count() == 15
}

fn shows_logic(alloc: Global, frames: &Frames) -> bool {
    have_frames(alloc, frames) && have_active(alloc, frames) && have_places(frames)
}

fn shows_small(frames: &Frames) -> bool {
    has_names(frames) && has_places(frames)
}

fn show(alloc: Global, text: &[u8], is_small: bool) -> bool {
    match read_text(alloc, text) {
        Err(_) => false,
        Ok(frames) => {
            if is_small {
                shows_small(&frames)
            } else {
                shows_logic(alloc, &frames)
            }
        }
    }
}

#[test]
fn symbols_places_and_frames_are_read(rt: HostRuntime) {
    let text = b"$c a $. $v x $. f $f a x $. t $p a x $= f $.";
    assert!(rt; show(rt.alloc(), text, true));
    assert!(rt; show(rt.alloc(), LOGIC, false));
}

const MANY: u32 = 100;

fn add_many(text: &mut Vec<u8>, statement: &[u8]) -> Result<(), AllocError> {
    for _ in 0..MANY {
        text.extend_from_slice(statement)?;
    }
    Ok(())
}

// Many `$d` of one pair before an assertion, and many of another pair in a block.
fn crowded(alloc: Global) -> Result<Vec<u8>, AllocError> {
    let mut text = Vec::new(alloc);
    text.extend_from_slice(
        b"$c |- wff $. $v x y z $. fx $f wff x $. fy $f wff y $. fz $f wff z $. ",
    )?;
    add_many(&mut text, b"$d y x $. ")?;
    text.extend_from_slice(b"outside $a |- x y z $. ${ ")?;
    add_many(&mut text, b"$d z x $. ")?;
    text.extend_from_slice(b"inside $a |- x y z $. $} behind $a |- x y z $. ")?;
    Ok(text)
}

fn has_pairs(frames: &Frames, name: &[u8], pairs: &[Pair]) -> bool {
    match frames.label(name) {
        None => false,
        Some(label) => match frames.frame(label) {
            None => false,
            Some(frame) => frame.pairs.as_slice() == pairs,
        },
    }
}

fn are_crowded(alloc: Global, text: &[u8]) -> bool {
    let (first, second) = (
        Pair {
            a: Sym(2),
            b: Sym(3),
        },
        Pair {
            a: Sym(2),
            b: Sym(4),
        },
    );
    match read_text(alloc, text) {
        Err(_) => false,
        Ok(frames) => {
            has_pairs(&frames, b"outside", &[first])
                && has_pairs(&frames, b"inside", &[first, second])
                && has_pairs(&frames, b"behind", &[first])
        }
    }
}

#[test]
fn many_distinct_variable_statements(rt: HostRuntime) -> Result<(), Fail> {
    let text = crowded(rt.alloc())?;
    assert!(rt; are_crowded(rt.alloc(), text.as_slice()));
    Ok(())
}
