//! Files that are holes, whole or in part. Images that claim great files are in tests/folders.py.

use crate::checks::expect;
use crate::extract::making::extracted;
use std::alloc::Global;
use std::test::Fail;
use test_support::{FILE, Node};

/// Which bytes of 4,096 zeros, 4,096 letters and 4,098 zeros a file has, and how its content ends.
fn contents() -> &'static [(usize, usize, &'static str)] {
    &[
        (0, 0, "]"),
        (0, 1, "[(1)]"),
        (0, 4096, "[(4096)]"),
        (0, 4098, "[(4096)yy]"),
        (4094, 4097, "[\0\0y]"),
        (4096, 12290, "y(4098)]"),
    ]
}

/// Whether what is made of a file of these bytes ends so.
fn ends_with(alloc: Global, content: &[u8], shown: &str) -> Result<bool, Fail> {
    let nodes = [Node::Inode(2, FILE, content), Node::Entry(1, 2, b"f")];
    let lines = extracted(alloc, &nodes, None, false)?.lines;
    let end = format!(in alloc; "{shown} 644 7 5\nattributes  755 0 0\n")?;
    Ok(lines.ends_with(end.as_str()))
}

/// A block of 4,096 zeros is a hole, also at the end, where it is as short as the file; a zero
/// beside another byte is written.
#[test]
fn blocks_of_zeros(rt: HostRuntime) -> Result<(), Fail> {
    let mut bytes = vec![in rt.alloc(); 0u8; 4096]?;
    bytes.resize(8192, b'y')?;
    bytes.resize(12290, 0)?;
    for &(from, to, shown) in contents() {
        let content = bytes.get(from..to).unwrap_or(&[]);
        expect(&rt, ends_with(rt.alloc(), content, shown)?);
    }
    Ok(())
}
