use edit_model::{Action, Request};
use edit_requests::{EditStop, edited, read_request};
use std::alloc::Global;

// The text that an edit leaves, or why it is refused.
fn told(alloc: Global, text: &str, from: u64, to: u64, new: &str) -> String {
    match edited(alloc, text.as_bytes(), from, to, new.as_bytes()) {
        Ok(bytes) => String::from_utf8_lossy(alloc, bytes.as_slice()).unwrap_or_else(
            |_| String::new(alloc),
        ),
        Err(_) => String::new(alloc),
    }
}

fn is_edit(request: &Request) -> bool {
    match request {
        Request::Ask {
            name,
            action: Action::Edit { from, to, text },
        } => name.as_slice() == b"a".as_slice()
            && *from == 4
            && *to == 5
            && text.as_slice() == "\u{e4}".as_bytes(),
        _ => false,
    }
}

#[test]
fn an_edit_is_read(rt: HostRuntime) {
    let line = b"{\"op\":\"edit\",\"name\":\"a\",\"from\":4,\"to\":5,\"text\":\"\\u00e4\"}";
    let request = read_request(rt.alloc(), line).expect(&rt, "memory");
    assert!(&rt; request.is_some_and(|r| is_edit(&r)));
}

#[test]
fn a_line_is_no_request(rt: HostRuntime) {
    let request = read_request(rt.alloc(), b"{\"op\":\"quit\"} x").expect(&rt, "memory");
    assert!(&rt; request.is_none());
}

#[test]
fn texts_are_edited(rt: HostRuntime) {
    assert!(&rt; told(rt.alloc(), "qed:: |- ps", 4, 4, "1,2").as_str() == "qed:1,2: |- ps");
    let stop = edited(rt.alloc(), "\u{e4}".as_bytes(), 1, 2, b"");
    assert!(&rt; matches!(stop, Err(EditStop::BadRange)));
}
