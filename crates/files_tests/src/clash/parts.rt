//! Which nodes stay, and which are left out.

use crate::checks::equal_at;
use crate::clash::rows::{Node, Row, placed, put, written};
use jclash::{LeftOut, without_clashing};
use std::alloc::Global;
use std::process::Abort;
use std::test::Fail;

const AB: Node = Node::Inode(2, 5, 1, b"ab");

const CD: Node = Node::Inode(2, 5, 1, b"cd");

/// As `AB`, of another owner.
const OWNED: Node = Node::Inode(2, 5, 3, b"ab");

const NAME: Node = Node::Entry(1, 6, 2, b"name");

const OTHER_NUMBER: Node = Node::Entry(1, 6, 4, b"name");

const REMOVED: Node = Node::Entry(1, 6, 0, b"name");

/// A name whose last byte the image lacks, as `WHOLE` has it.
const CUT: Node = Node::Cut(1, 6, 2, b"nam");

const WHOLE: Node = Node::Entry(1, 6, 2, b"nam\xff");

const WHOLE_OTHER: Node = Node::Entry(1, 6, 4, b"nam\xff");

/// Another object or directory, another version, another name, another kind of node.
const APART: [(u32, Node); 9] = [
    (0, AB),
    (72, Node::Inode(3, 5, 1, b"cd")),
    (144, Node::Inode(2, 6, 1, b"cd")),
    (216, NAME),
    (260, Node::Entry(2, 6, 4, b"name")),
    (304, Node::Entry(1, 7, 4, b"name")),
    (348, Node::Entry(1, 6, 4, b"nam")),
    (392, Node::Entry(2, 5, 4, b"x")),
    (432, CUT),
];

const NONE: [LeftOut; 0] = [];

const ROWS: [Row; 13] = [
    Row {
        nodes: &[],
        stay: &[],
        left: &NONE,
    },
    Row {
        nodes: &APART,
        stay: &[0, 1, 2, 3, 4, 5, 6, 7, 8],
        left: &NONE,
    },
    Row {
        nodes: &[(0, AB), (72, CD)],
        stay: &[1],
        left: &[LeftOut { addr: 0, by: 72 }],
    },
    Row {
        nodes: &[(12, CD), (84, AB)],
        stay: &[1],
        left: &[LeftOut { addr: 12, by: 84 }],
    },
    Row {
        nodes: &[(4, AB), (5000, OWNED)],
        stay: &[1],
        left: &[LeftOut { addr: 4, by: 5000 }],
    },
    Row {
        nodes: &[(0, NAME), (44, REMOVED)],
        stay: &[1],
        left: &[LeftOut { addr: 0, by: 44 }],
    },
    Row {
        nodes: &[(8, REMOVED), (52, NAME)],
        stay: &[1],
        left: &[LeftOut { addr: 8, by: 52 }],
    },
    Row {
        nodes: &[(0, AB), (72, CD), (144, OWNED)],
        stay: &[2],
        left: &[LeftOut { addr: 0, by: 144 }, LeftOut { addr: 72, by: 144 }],
    },
    Row {
        nodes: &[(0, NAME), (44, OTHER_NUMBER), (88, NAME)],
        stay: &[2],
        left: &[LeftOut { addr: 0, by: 44 }, LeftOut { addr: 44, by: 88 }],
    },
    Row {
        nodes: &[(0, AB), (72, NAME), (116, AB), (188, NAME)],
        stay: &[0, 1, 2, 3],
        left: &NONE,
    },
    Row {
        nodes: &[(0, CUT), (44, WHOLE)],
        stay: &[0, 1],
        left: &NONE,
    },
    Row {
        nodes: &[(0, WHOLE_OTHER), (44, AB), (116, CUT), (160, CD)],
        stay: &[2, 3],
        left: &[LeftOut { addr: 0, by: 116 }, LeftOut { addr: 44, by: 160 }],
    },
    Row {
        nodes: &[(0, AB), (72, AB), (144, CD), (4_294_967_292, CD)],
        stay: &[2, 3],
        left: &[
            LeftOut {
                addr: 0,
                by: 4_294_967_292,
            },
            LeftOut {
                addr: 72,
                by: 4_294_967_292,
            },
        ],
    },
];

fn is_parted(rt: &impl Abort, alloc: Global, case: usize, row: &Row) -> Result<(), Fail> {
    let nodes = placed(rt, alloc, row.nodes)?;
    let parted = without_clashing(alloc, &nodes)?;
    let mut found = Vec::new(alloc);
    for node in &parted.stay {
        put(&mut found, node)?;
    }
    let wanted = written(alloc, row.nodes, row.stay)?;
    equal_at(rt, found.as_slice(), wanted.as_slice(), case);
    equal_at(rt, parted.left.as_slice(), row.left, case);
    Ok(())
}

#[test]
fn nodes_are_parted(rt: HostRuntime) -> Result<(), Fail> {
    for (case, row) in ROWS.iter().enumerate() {
        is_parted(&rt, rt.alloc(), case, row)?;
    }
    Ok(())
}
