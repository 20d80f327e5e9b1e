use edit_replies::{
    error_reply, no_request_reply, no_suggestion_reply, ok_reply, suggest_reply, unify_reply,
};
use mm_base::{Bytes, List, Memory};

fn is_line(reply: Result<Bytes, Memory>, line: &str) -> bool {
    match reply {
        Ok(bytes) => bytes.as_slice() == line.as_bytes(),
        Err(_) => false,
    }
}

#[test]
fn replies_are_lines(rt: HostRuntime) {
    let alloc = rt.alloc();
    assert!(&rt; is_line(no_request_reply(alloc), "{\"error\":\"not a request\"}\n"));
    assert!(&rt;
        is_line(
            error_reply(alloc, b"a", b"bad range"),
            "{\"error\":\"bad range\",\"name\":\"a\"}\n"
        )
    );
    assert!(&rt; is_line(ok_reply(alloc, b"a"), "{\"name\":\"a\",\"ok\":true}\n"));
    assert!(&rt;
        is_line(
            no_suggestion_reply(alloc, b"a"),
            "{\"name\":\"a\",\"places\":[],\"reference\":null}\n"
        )
    );
}

#[test]
fn replies_have_texts(rt: HostRuntime) {
    let alloc = rt.alloc();
    let one = List::copy_of(alloc, b"1 hyp").expect(&rt, "memory");
    let lines = vec![in alloc; one].expect(&rt, "memory");
    let reply = unify_reply(alloc, b"a", false, lines.as_slice(), b"$(\n\xff$)\n");
    assert!(&rt;
        is_line(
            reply,
            "{\"finished\":false,\"name\":\"a\",\"report\":[\"1 hyp\"],\"text\":\"$(\\n\u{fffd}$)\\n\"}\n"
        )
    );
    let reply = suggest_reply(alloc, b"a", lines.as_slice(), b"ax-mp");
    assert!(&rt;
        is_line(
            reply,
            "{\"name\":\"a\",\"places\":[\"1 hyp\"],\"reference\":\"ax-mp\"}\n"
        )
    );
}
