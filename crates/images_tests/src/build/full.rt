//! What would hold an operation that is refused for want of room. One that no flash holds is in
//! tests/program.sh: it takes more than 128 MiB.

use crate::build::runs::made;
use crate::checks::equal_at;
use byteorder::LittleEndian;
use std::alloc::Global;
use std::test::Fail;
use test_support::MADE;

/// A listing on a base and a flash of so many blocks: how many of its lines are accepted, and how
/// many blocks hold the next one.
struct Row {
    base: &'static [u8],
    blocks: u32,
    text: &'static [u8],
    accepted: usize,
    wanted: Option<u32>,
}

const THREE: &[u8] = b"create 0644 /a\npart /a 0 three\n";

/// A node of 4096 bytes takes 4164, so a block of 8192 holds one, behind its marker.
fn rows() -> &'static [Row] {
    &[
        Row {
            base: &[],
            blocks: 1,
            text: b"create 0644 /a\n",
            accepted: 1,
            wanted: None,
        },
        Row {
            base: &MADE,
            blocks: 1,
            text: b"create 0644 /b\n",
            accepted: 0,
            wanted: Some(2),
        },
        Row {
            base: &[],
            blocks: 1,
            text: THREE,
            accepted: 1,
            wanted: Some(3),
        },
        Row {
            base: &[],
            blocks: 2,
            text: THREE,
            accepted: 1,
            wanted: Some(3),
        },
        Row {
            base: &[],
            blocks: 3,
            text: THREE,
            accepted: 2,
            wanted: None,
        },
        Row {
            base: &[],
            blocks: 1,
            text: b"create 0644 /a\npart /a 0 page\npart /a 0 three\ncreate 0644 /b\n",
            accepted: 2,
            wanted: Some(4),
        },
        Row {
            base: &[],
            blocks: 1,
            text: b"create 0644 /a\ncreate 0644 /a\npart /a 0 three\n",
            accepted: 1,
            wanted: None,
        },
    ]
}

/// How many lines of a row are accepted, and what is told of the next one.
fn told(alloc: Global, row: &Row) -> Result<(usize, Option<u32>), Fail> {
    let outcome = made::<LittleEndian>(alloc, row.base, row.blocks, row.text)?;
    Ok((outcome.report.accepted, outcome.blocks?))
}

#[test]
fn blocks_of_a_refused_operation(rt: HostRuntime) -> Result<(), Fail> {
    for row in rows() {
        let found = told(rt.alloc(), row)?;
        equal_at(&rt, found, (row.accepted, row.wanted), row.blocks);
    }
    Ok(())
}
