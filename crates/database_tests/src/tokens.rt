use mm_base::MOST_DATABASE_BYTES;
use mm_tokens::{Token, TokenFault, TokenKind, is_white, next_word, tokens};
use std::alloc::Global;
use std::test::Fail;

fn fault_of(alloc: Global, text: &[u8]) -> Option<TokenFault> {
    if text.len() as u64 > MOST_DATABASE_BYTES {
        return None;
    }
    tokens(alloc, text).err()
}

const FAULTS: &[(&[u8], TokenFault)] = &[
    (b"$( a", TokenFault::OpenComment(4)),
    (b"a $) $x", TokenFault::BadKeyword(2)),
    (b"$( $( \x01", TokenFault::CommentInComment(3)),
    (b"$x\x80", TokenFault::BadKeyword(0)),
    (b"\x80$", TokenFault::BadByte(0)),
    (b"$( $(\x80", TokenFault::BadByte(5)),
    (b"a\x01 $)", TokenFault::BadByte(1)),
];

#[test]
fn first_faults(rt: HostRuntime) {
    for (text, fault) in FAULTS {
        assert!(rt; fault_of(rt.alloc(), text) == Some(*fault));
    }
}

const TOKENS: &[Token] = &[
    Token {
        start: 0,
        end: 2,
        kind: TokenKind::Constants,
    },
    Token {
        start: 3,
        end: 4,
        kind: TokenKind::Word,
    },
    Token {
        start: 18,
        end: 20,
        kind: TokenKind::End,
    },
];

#[test]
fn passes_comments_over(rt: HostRuntime) -> Result<(), Fail> {
    let read = tokens(rt.alloc(), b"$c a $( $x b$) $) $.")?;
    assert!(rt; read.as_slice() == TOKENS);
    Ok(())
}

fn word_from(text: &[u8], from: usize) -> Option<(usize, usize)> {
    if from > text.len() {
        return None;
    }
    next_word(text, from)
}

// The walk over two words, and the five bytes of white space.
#[test]
fn words(rt: HostRuntime) {
    for (from, word) in [(0, Some((1, 3))), (3, Some((8, 9))), (9, None)] {
        assert!(rt; word_from(b" $( \t\r\n\x0cb", from) == word);
    }
    for byte in b" \t\r\n\x0c" {
        assert!(rt; is_white(*byte));
    }
    for byte in b"\x0ba$" {
        assert!(rt; !is_white(*byte));
    }
}
