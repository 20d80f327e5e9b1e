use mm_base::{
    Bytes, HostSink, HostStore, Label, List, MOST_DATABASE_BYTES, MemSink, MemStore, Memory, Pair,
    ReadStop, ReplaceStop, Sink, Store, Sym, Tree, Typecode,
};
use std::alloc::{AllocError, Global};
use std::io::Write;
use std::test::Fail;
use std::{fs, io};

fn bytes_of(alloc: Global, bytes: &[u8]) -> Result<Bytes, AllocError> {
    Ok(List::from_vec(Vec::from_slice(alloc, bytes)?))
}

// A store with one file, `a`, that holds `four`.
fn one_file(alloc: Global, room: u64, fails: &[u64]) -> Result<MemStore, Memory> {
    let mut files = Vec::new(alloc);
    files.push((bytes_of(alloc, b"a")?, bytes_of(alloc, b"four")?))?;
    let fails = List::from_vec(Vec::from_slice(alloc, fails)?);
    MemStore::new(alloc, List::from_vec(files), room, fails)
}

fn sink(alloc: Global, room: u64, fails: &[u64]) -> Result<MemSink, Memory> {
    MemSink::new(alloc, room, List::from_vec(Vec::from_slice(alloc, fails)?))
}

// Whether a store answers this, and gives these bytes.
fn reads<S: Store>(
    alloc: Global,
    store: &mut S,
    name: &str,
    most: u64,
    want: (Result<(), ReadStop>, &[u8]),
) -> bool {
    if most > MOST_DATABASE_BYTES {
        return false;
    }
    let mut into = Vec::new(alloc);
    let answer = store.read(name, most, &mut into);
    answer == want.0 && into.as_slice() == want.1
}

fn replaces<S: Store>(store: &mut S, name: &str, bytes: &[u8]) -> Result<(), ReplaceStop> {
    store.replace(name, bytes)
}

fn writes<S: Sink>(sink: &mut S, bytes: &[u8]) -> bool {
    sink.write(bytes).is_ok()
}

fn holds(store: &MemStore, name: &str, bytes: &[u8]) -> bool {
    match store.file(name) {
        None => false,
        Some(file) => file == bytes,
    }
}

// The third call fails.
const REPLACED: &[(&[u8], Result<(), ReplaceStop>)] = &[
    (b"longer", Ok(())),
    (b"too long", Err(ReplaceStop::Failed)),
    (b"third", Err(ReplaceStop::Failed)),
];

const READ: &[(&str, u64, Result<(), ReadStop>, &[u8])] = &[
    ("a", 6, Ok(()), b"longer"),
    ("a", 5, Err(ReadStop::More), b"longer"),
    ("b", 6, Err(ReadStop::Failed), b""),
];

#[test]
fn a_store_in_memory_has_a_room_for_each_file(rt: HostRuntime) -> Result<(), Fail> {
    let mut store = one_file(rt.alloc(), 6, &[3])?;
    for (bytes, want) in REPLACED {
        assert!(rt; replaces(&mut store, "a", bytes) == *want);
    }
    assert!(rt; holds(&store, "a", b"longer"));
    assert!(rt; !holds(&store, "b", b""));
    for (name, most, want, bytes) in READ {
        assert!(rt; reads(rt.alloc(), &mut store, name, *most, (*want, bytes)));
    }
    Ok(())
}

// The second call fails, and the last piece is too long for the room.
const WRITTEN: &[(&[u8], bool, &[u8])] = &[
    (b"ab", true, b"ab"),
    (b"cd", false, b"ab"),
    (b"cd", true, b"abcd"),
    (b"efg", false, b"abcde"),
];

#[test]
fn a_sink_in_memory_has_a_room(rt: HostRuntime) -> Result<(), Fail> {
    let mut sink = sink(rt.alloc(), 5, &[2])?;
    for (piece, want, bytes) in WRITTEN {
        assert!(rt; writes(&mut sink, piece) == *want);
        assert!(rt; sink.bytes() == *bytes);
    }
    Ok(())
}

fn pair(alloc: Global, code: Typecode) -> Result<Tree, Memory> {
    let mut children = Vec::new(alloc);
    children.push(Tree::Var(Sym(1), code))?;
    children.push(Tree::Work(code, 7))?;
    Ok(Tree::Node(Label(3), code, List::from_vec(children)))
}

fn is_pair(tree: &Tree, code: Typecode) -> bool {
    match tree {
        Tree::Node(Label(3), of, children) => {
            *of == code
                && match children.as_slice() {
                    [Tree::Var(Sym(1), one), Tree::Work(other, 7)] => {
                        *one == code && *other == code
                    }
                    _ => false,
                }
        }
        _ => false,
    }
}

#[test]
fn a_copy_of_a_tree_has_its_children(rt: HostRuntime) -> Result<(), Fail> {
    let code = Typecode(Sym(0));
    let tree = pair(rt.alloc(), code)?;
    assert!(rt; is_pair(&tree.copy()?, code));
    Ok(())
}

#[test]
fn lists_and_pairs(rt: HostRuntime) -> Result<(), Fail> {
    let list = bytes_of(rt.alloc(), b"abc")?;
    let mut items = Vec::from_slice(list.allocator(), list.as_slice())?;
    items.push(b'd')?;
    let items = List::from_vec(items).into_vec();
    assert!(rt; items.as_slice() == b"abcd".as_slice());
    let ordered = Some(Pair {
        a: Sym(2),
        b: Sym(5),
    });
    assert!(rt; Pair::of(Sym(5), Sym(2)) == ordered);
    assert!(rt; Pair::of(Sym(2), Sym(5)) == ordered);
    assert!(rt; Pair::of(Sym(5), Sym(5)).is_none());
    Ok(())
}

const HOST_READ: &[(&str, u64, Result<(), ReadStop>, &[u8])] = &[
    ("a.txt", 5, Ok(()), b"hello"),
    ("a.txt", 3, Err(ReadStop::More), b"hell"),
    ("b.txt", 5, Err(ReadStop::Failed), b""),
];

// Whether there is a file with this text, or none where no text is given.
fn has_text(rt: HostRuntime, name: &str, text: Option<&str>) -> bool {
    match fs::read_to_string(&rt, name) {
        Err(_) => text.is_none(),
        Ok(found) => text == Some(found.as_str()),
    }
}

// A folder keeps its name, and the new bytes stand beside it.
#[test]
fn the_files_of_the_system_are_read_and_replaced(rt: HostRuntime) -> Result<(), Fail> {
    fs::write(&rt, "a.txt", "hello")?;
    fs::create_dir(&rt, "d")?;
    let mut store = HostStore::new(rt, rt.alloc());
    for (name, most, want, bytes) in HOST_READ {
        assert!(rt; reads(rt.alloc(), &mut store, name, *most, (*want, bytes)));
    }
    let failed = Err(ReplaceStop::Failed);
    assert!(rt; replaces(&mut store, "a.txt", b"other") == Ok(()));
    assert!(rt; replaces(&mut store, "no/such/folder", b"other") == failed);
    assert!(rt; replaces(&mut store, "d", b"third") == failed);
    assert!(rt; has_text(rt, "a.txt", Some("other")));
    assert!(rt; has_text(rt, "a.txt.new", None));
    assert!(rt; has_text(rt, "d.new", Some("third")));
    Ok(())
}

// Takes two bytes at a time, and five in all.
#[derive(Drop)]
struct Slow<'a> {
    taken: &'a mut Vec<u8>,
}

impl Write for Slow<'_> {
    fn write(&mut self, buf: &[u8]) -> io::Result<usize> {
        let count = buf
            .len()
            .min(2)
            .min(5usize.saturating_sub(self.taken.len()));
        self.taken.extend_from_slice(&buf[..count])?;
        Ok(count)
    }

    fn flush(&mut self) -> io::Result<()> {
        Ok(())
    }
}

#[test]
fn a_stream_is_written_in_pieces(rt: HostRuntime) -> Result<(), Fail> {
    let mut taken = Vec::new(rt.alloc());
    {
        let mut sink = HostSink::new(Slow { taken: &mut taken });
        assert!(rt; writes(&mut sink, b"abcd"));
        assert!(rt; !writes(&mut sink, b"efg"));
    }
    assert!(rt; taken.as_slice() == b"abcde".as_slice());
    Ok(())
}
