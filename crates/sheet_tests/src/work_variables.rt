use mm_base::{List, Memory};
use std::alloc::Global;
use std::test::Fail;
use work_vars::{least_free, least_unused, read_name, read_number, spelling};

// The name of a work variable, with its typecode and its number.
const NAMES: &[(&[u8], &[u8], u32)] = &[
    (b"&W1", b"wff", 1),
    (b"&S12", b"setvar", 12),
    (b"&C4294967295", b"class", 4_294_967_295),
    (b"&term.10", b"term", 10),
    (b"&a.b.3", b"a.b", 3),
];

const OTHERS: &[&[u8]] = &[
    b"&W021",
    b"&W0",
    b"&W",
    b"&W4294967296",
    b"&wff.1",
    b"&w1",
    b"W1",
    b"&term.",
    b"&.",
    b"",
];

fn is_spelled(alloc: Global, code: &[u8], number: u32, token: &[u8]) -> bool {
    match spelling(alloc, code, number) {
        Err(_) => false,
        Ok(spelled) => spelled.as_slice() == token,
    }
}

fn is_read(alloc: Global, token: &[u8], code: &[u8], number: u32) -> bool {
    match read_name(alloc, token) {
        Ok(Some((of, found))) => of.as_slice() == code && found == number,
        _ => false,
    }
}

fn is_no_name(alloc: Global, token: &[u8]) -> bool {
    match read_name(alloc, token) {
        Ok(name) => name.is_none(),
        Err(_) => false,
    }
}

#[test]
fn names_are_read_and_spelled(rt: HostRuntime) {
    for (token, code, number) in NAMES {
        assert!(rt; is_spelled(rt.alloc(), code, *number, token));
        assert!(rt; is_read(rt.alloc(), token, code, *number));
    }
    for token in OTHERS {
        assert!(rt; is_no_name(rt.alloc(), token));
    }
}

#[test]
fn digits_are_numbers(rt: HostRuntime) {
    for (digits, number) in [
        (b"0".as_slice(), Some(0)),
        (b"18446744073709551615", Some(u64::MAX)),
        (b"18446744073709551616", None),
        (b"01", None),
        (b"", None),
    ] {
        assert!(rt; read_number(digits) == number);
    }
}

fn free_number(used: &List<u32>) -> Option<u32> {
    if used.as_slice().len() > 1 << 20 {
        return None;
    }
    Some(least_free(used))
}

fn used_up_to(alloc: Global, end: u32) -> Result<List<u32>, Memory> {
    Ok(List::from_vec((1..end).collect(alloc)?))
}

#[test]
fn free_numbers_are_least(rt: HostRuntime) -> Result<(), Fail> {
    let used = List::from_vec(Vec::from_slice(rt.alloc(), &[1, 3, 2, 2, 7])?);
    assert!(rt; free_number(&used) == Some(4));
    assert!(rt; least_unused(rt.alloc(), &[5, 1, 2])? == 3);
    let many = used_up_to(rt.alloc(), 70_000)?;
    assert!(rt; free_number(&many) == Some(70_000));
    Ok(())
}
