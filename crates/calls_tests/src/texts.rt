//! The texts of an image, with ample memory and with one byte too few.

ghost use Rattle.std.specs.Prelude.{◌≤◌};

use crate::checks::expect;
use crate::images::{FAULT, HOW, image};
use jcalls::{Fault, How, OK, SMALL, check_text, tree_text};
use std::alloc::Global;

/// The lines of what a path names: the status and how many bytes are told, and the memory.
fn lines_at(alloc: Global, how: How, path: &[u8], room: usize) -> (u32, usize, [u8; 44])
    requires { room ≤ 44 }
{
    let mut out = [b'#'; 44];
    let mut needed = 7;
    let mut fault = FAULT;
    let status = tree_text(
        alloc,
        image(),
        how,
        path,
        &mut out[..room],
        &mut needed,
        &mut fault,
    );
    (status, needed, out)
}

#[test]
fn its_lines_are_given(rt: HostRuntime) {
    let alloc = rt.alloc();
    let whole = *b"d 0755 0 0 0 0 1 /\n- 0644 0 0 11 0 2 /a\n####";
    let file = *b"- 0644 0 0 11 0 2 /a\n#######################";
    let none = [b'#'; 44];
    expect(&rt, lines_at(alloc, HOW, b"/", 44) == (OK, 40, whole));
    expect(&rt, lines_at(alloc, HOW, b"/", 39) == (SMALL, 40, none));
    expect(&rt, lines_at(alloc, HOW, b"/a", 21) == (OK, 21, file));
    expect(&rt, lines_at(alloc, HOW, b"/a", 20) == (SMALL, 21, none));
    let plain = How { through: 0, ..HOW };
    expect(&rt, lines_at(alloc, plain, b"/a", 44) == (OK, 21, file));
    expect(&rt, lines_at(alloc, HOW, b"a", 44) == (10, 7, none));
    expect(&rt, lines_at(alloc, HOW, b"/b", 44) == (11, 7, none));
    expect(&rt, lines_at(alloc, HOW, b"/a/b", 44) == (12, 7, none));
    let odd = How { block: 8193, ..HOW };
    expect(&rt, lines_at(alloc, odd, b"/", 44) == (1, 7, none));
}

/// What `check` prints of the image: the status, how many bytes are told, and the fault.
fn report(alloc: Global, how: How, shape: u32, out: &mut [u8]) -> (u32, usize, Fault) {
    let mut needed = 7;
    let mut fault = Fault {
        address: 5,
        detail: 6,
    };
    let status = check_text(alloc, image(), how, shape, out, &mut needed, &mut fault);
    (status, needed, fault)
}

fn is(found: (u32, usize, Fault), status: u32, needed: usize, address: u32, detail: u32) -> bool {
    (found.0, found.1) == (status, needed) && (found.2.address, found.2.detail) == (address, detail)
}

pub(crate) fn begins_with(bytes: &[u8], text: &[u8]) -> bool {
    bytes.len() >= text.len() && &bytes[..text.len()] == text
}

/// Of 296 bytes.
const REPORT: &[u8] = b"block 0
00000000 entry 44 pino 1 version 1 ino 2 type 8 name a
0000002c inode 76 ino 2 version 1 mode 100644 size 5 offset 0 data 5 none
00000078 inode 76 ino 2 version 2 mode 100644 size 11 offset 5 data 6 none
000000c4 erased 7996
total blocks 1 entries 1 inodes 2 findings 0
mount ok
shape ok
";

/// The same without the shape.
const PLAIN: &[u8] = b"block 0
00000000 entry 44 pino 1 version 1 ino 2 type 8 name a
0000002c inode 76 ino 2 version 1 mode 100644 size 5 offset 0 data 5 none
00000078 inode 76 ino 2 version 2 mode 100644 size 11 offset 5 data 6 none
000000c4 erased 7996
total blocks 1 entries 1 inodes 2 findings 0
mount ok
";

#[test]
fn its_report_is_given(rt: HostRuntime) {
    let alloc = rt.alloc();
    let mut out = [b'#'; 300];
    let found = report(alloc, HOW, 3, &mut out[..295]);
    expect(&rt, is(found, SMALL, 296, 5, 6));
    expect(&rt, out == [b'#'; 300]);
    let found = report(alloc, HOW, 3, &mut out);
    expect(&rt, is(found, OK, 296, 5, 6));
    expect(&rt, begins_with(&out, REPORT));
    expect(&rt, &out[296..] == b"####".as_slice());
    let mut plain = [b'#'; 300];
    let found = report(alloc, HOW, 0, &mut plain);
    expect(&rt, is(found, OK, 287, 5, 6));
    expect(&rt, begins_with(&plain, PLAIN));
    let odd = How { block: 8193, ..HOW };
    let found = report(alloc, odd, 0, &mut plain);
    expect(&rt, is(found, 1, 7, 0, 0));
    expect(&rt, &plain[287..] == b"#############".as_slice());
}
