//! Texts of several lines: in pieces, to sinks that take little, and to sinks that fail.

use crate::checks::{equal_at, expect, expect_at};
use crate::json::objects::{json_of, put_pieces};
use flashbase::{Sink, put_all};
use jjson::{JsonSink, Lines};
use std::alloc::Global;
use test_support::Taker;

/// What `ls` prints of a small tree, and a line that has no end.
const TEXT: &[u8] =
    b"d 0755 1 2 3 4 1 /\n- 0644 5 6 7 8 2 /a\\x20\\xff\nl 0777 0 0 1 9 3 /b -> a\nd 07";

/// Its JSON.
const JSON: &[u8] = b"{\"line\":\"object\",\"kind\":\"d\",\"mode\":\"0755\",\"uid\":1,\"gid\":2,\
    \"size\":3,\"mtime\":4,\"ino\":1,\"path\":\"/\"}\n\
    {\"line\":\"object\",\"kind\":\"-\",\"mode\":\"0644\",\"uid\":5,\"gid\":6,\"size\":7,\
    \"mtime\":8,\"ino\":2,\"path_bytes\":\"2f6120ff\"}\n\
    {\"line\":\"object\",\"kind\":\"l\",\"mode\":\"0777\",\"uid\":0,\"gid\":0,\"size\":1,\
    \"mtime\":9,\"ino\":3,\"path\":\"/b\",\"target\":\"a\"}\n";

/// Sizes of pieces.
const PIECES: [usize; 6] = [1, 2, 3, 17, 64, 1000];

/// Whether what went below is this.
fn is_json(found: Option<Vec<u8>>, wanted: &[u8]) -> bool {
    match found {
        Some(json) => json.as_slice() == wanted,
        None => false,
    }
}

#[test]
fn pieces_do_not_matter(rt: HostRuntime) {
    for piece in PIECES {
        for most in PIECES {
            let json = json_of(rt.alloc(), Some(Lines::Tree), TEXT, piece, most);
            expect_at(&rt, is_json(json, JSON), piece);
        }
    }
}

#[test]
fn without_lines_all_bytes_go_below(rt: HostRuntime) {
    for piece in PIECES {
        let same = json_of(rt.alloc(), None, TEXT, piece, 5);
        expect_at(&rt, is_json(same, TEXT), piece);
    }
}

#[test]
fn an_unfinished_line_gives_nothing(rt: HostRuntime) {
    for text in [b"".as_slice(), b"block 1", b"x"] {
        let json = json_of(rt.alloc(), Some(Lines::Report), text, 3, 9);
        expect_at(&rt, is_json(json, b""), text.len());
    }
}

/// A text without its first line is as a text of its own.
#[test]
fn lines_do_not_meet(rt: HostRuntime) {
    let text = b"weak 0000007c at 68\n\nweak 0000007d at 69\n";
    let wanted =
        b"{\"line\":\"weak\",\"address\":124,\"at\":68}\n{\"line\":\"text\",\"text\":\"\"}\n\
        {\"line\":\"weak\",\"address\":125,\"at\":69}\n";
    let json = json_of(rt.alloc(), Some(Lines::Cuts), text, 4, 6);
    expect(&rt, is_json(json, wanted));
}

/// A sink that has failed takes nothing more, and a beginning of the JSON went below.
fn fails_at(alloc: Global, limit: usize) -> bool {
    let below = Taker::limited(alloc, 7, limit);
    let mut sink = JsonSink::new(alloc, below, Some(Lines::Tree));
    if put_pieces(&mut sink, TEXT, 10) || put_all(&mut sink, b"x").is_ok() {
        return false;
    }
    let below = sink.into_below();
    below.took(1, &JSON[..limit.min(JSON.len())])
}

#[test]
fn failures_leave_a_beginning(rt: HostRuntime) {
    for limit in [0, 1, 8, 96, 97, 150] {
        expect_at(&rt, fails_at(rt.alloc(), limit), limit);
    }
}

#[test]
fn an_empty_piece_is_no_failure(rt: HostRuntime) {
    let below = Taker::new(rt.alloc());
    let mut sink = JsonSink::new(rt.alloc(), below, Some(Lines::Tree));
    equal_at(&rt, sink.put(b""), Ok(0), 0);
}

/// A line that is longer than the pieces in which its strings go out.
#[test]
fn long_names_are_whole(rt: HostRuntime) {
    let name = [b'n'; 300];
    let mut line = Vec::new(rt.alloc());
    let is_made = line
        .extend_from_slice(b"dangling pino 1 ino 2 name ")
        .is_ok()
        && line.extend_from_slice(&name).is_ok()
        && line.extend_from_slice(b"\\x01\n").is_ok();
    let mut wanted = Vec::new(rt.alloc());
    let is_wanted = wanted
        .extend_from_slice(b"{\"line\":\"dangling\",\"pino\":1,\"ino\":2,\"name\":\"")
        .is_ok()
        && wanted.extend_from_slice(&name).is_ok()
        && wanted.extend_from_slice(b"\\u0001\"}\n").is_ok();
    expect(&rt, is_made && is_wanted);
    let json = json_of(rt.alloc(), Some(Lines::Report), &line, 50, 1000);
    expect(&rt, is_json(json, &wanted));
}
