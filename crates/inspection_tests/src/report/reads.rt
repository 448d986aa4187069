//! Images in memory: what `check`, `cat` and `ls` write of them, and what they answer.

use crate::checks::{equal, expect};
use crate::report::images::{
    CIRCLE, CIRCLE_BELOW, CLASH, COMPRESSED, DAMAGED_INODE_2, DEEP, DEEP_BELOW, DEEP_LISTED,
    FILE_AS_ROOT, GEOMETRY, LARGE, ONE_BLOCK, OTHER_ORDER, Raw, TREE, image_of, raw_image,
};
use byteorder::{BigEndian, LittleEndian};
use flashbase::{FromWriter, Sink};
use jline::put_escaped;
use jmount::{FindFault, MountFault, mount};
use jreport::{
    Found, ImageFault, ProgramFault, content, found_in, image_check, image_file, image_tree,
    others_if_none, put_named_notes, put_none_notes, put_note, refuse_findings, refuse_no_nodes,
};
use jscan::{GREATEST_IMAGE, Geometry};
use std::alloc::Global;
use std::process::Abort;
use std::test::Fail;
use test_support::{ATTRIBUTE, FILE, NO_LENGTH, Node, SYMLINK};

/// What `cat` writes of a path in a mounted image, or its fault.
fn read(alloc: Global, image: &[u8], path: &[u8]) -> Result<Vec<u8>, ProgramFault<'static>> {
    let mounted = mount::<LittleEndian>(alloc, image, LARGE)?;
    let mut sink = FromWriter::new(Vec::new(alloc));
    content(&mounted, path, &mut sink)?;
    Ok(sink.into_writer())
}

/// Whether a path has this content.
fn is_read(
    alloc: Global,
    image: &[u8],
    path: &[u8],
    want: Result<&[u8], ProgramFault<'static>>,
) -> bool {
    match (read(alloc, image, path), want) {
        (Ok(bytes), Ok(want)) => bytes.as_slice() == want,
        (Err(fault), Err(want)) => fault == want,
        _ => false,
    }
}

/// Paths that name no regular file, and where the search ends.
fn not_read() -> &'static [(&'static [u8], FindFault)] {
    &[
        (b"/b", FindFault::NotFound),
        (b"a", FindFault::BadPath),
        (b"/a/b", FindFault::NotDirectory),
    ]
}

#[test]
fn contents(rt: HostRuntime) -> Result<(), Fail> {
    let long = vec![in rt.alloc(); b'x'; 9000]?;
    let nodes = [
        Node::Inode(2, FILE, &long),
        Node::Inode(3, SYMLINK, b"a"),
        Node::Entry(1, 2, b"a"),
        Node::Entry(1, 3, b"s"),
    ];
    let image = image_of(rt.alloc(), &nodes)?;
    expect(&rt, is_read(rt.alloc(), &image, b"/a", Ok(&long)));
    for &(path, fault) in not_read() {
        let fault = ProgramFault::Path(fault);
        expect(&rt, is_read(rt.alloc(), &image, path, Err(fault)));
    }
    let fault = ProgramFault::NotRegular;
    expect(&rt, is_read(rt.alloc(), &image, b"/", Err(fault)));
    expect(&rt, is_read(rt.alloc(), &image, b"/s", Err(fault)));
    Ok(())
}

#[test]
fn names_that_are_long(rt: HostRuntime) -> Result<(), Fail> {
    let name = vec![in rt.alloc(); b' '; 1000]?;
    let mut sink = FromWriter::new(Vec::new(rt.alloc()));
    expect(&rt, put_escaped(&mut sink, &name).is_ok());
    let text = sink.into_writer();
    equal(&rt, text.len(), 4000);
    expect(&rt, text.starts_with(b"\\x20\\x20"));
    Ok(())
}

/// What is asked of an image.
#[derive(Clone, Copy)]
pub(crate) enum Call {
    Check,
    Content(&'static [u8]),
    Listing,
    /// The part of the tree that a path names.
    Part(&'static [u8]),
}

/// A call of each kind, the second of the file in `TREE`.
pub(crate) fn calls() -> &'static [Call] {
    &[Call::Check, Call::Content(b"/d/f"), Call::Listing]
}

/// The answer of a call: how much it found.
pub(crate) fn ask<T: Sink>(
    alloc: Global,
    call: Call,
    image: &[u8],
    geometry: Geometry,
    sink: &mut T,
) -> Result<u64, ProgramFault<'static>> {
    match call {
        Call::Check => {
            let found = image_check::<LittleEndian, T>(alloc, image, geometry, false, sink)?;
            Ok(u64::from(found))
        }
        Call::Content(path) => image_file::<LittleEndian, T>(alloc, image, geometry, path, sink),
        Call::Listing => image_tree::<LittleEndian, T>(alloc, image, geometry, None, sink),
        Call::Part(path) => image_tree::<LittleEndian, T>(alloc, image, geometry, Some(path), sink),
    }
}

/// The answer of a call, and what it puts.
pub(crate) fn answer_and_text(
    alloc: Global,
    call: Call,
    image: &[u8],
    geometry: Geometry,
) -> (Result<u64, ProgramFault<'static>>, Vec<u8>) {
    let mut sink = FromWriter::new(Vec::new(alloc));
    let answer = ask(alloc, call, image, geometry, &mut sink);
    (answer, sink.into_writer())
}

pub(crate) const TREE_CHECKED: &[u8] = b"block 0\n\
00000000 inode 68 ino 1 version 1 mode 40755 size 0 offset 0 data 0 none\n\
00000044 inode 68 ino 2 version 1 mode 41700 size 0 offset 0 data 0 none\n\
00000088 inode 72 ino 3 version 1 mode 100644 size 2 offset 0 data 2 none\n\
000000d0 inode 72 ino 4 version 1 mode 120777 size 4 offset 0 data 4 none\n\
00000118 entry 44 pino 1 version 1 ino 2 type 8 name d\n\
00000144 entry 44 pino 2 version 1 ino 3 type 8 name f\n\
00000170 entry 44 pino 1 version 1 ino 4 type 8 name s\n\
0000019c entry 44 pino 1 version 1 ino 9 type 8 name x\n\
000001c8 erased 3640\n\
total blocks 1 entries 4 inodes 4 findings 0\n\
mount ok\n\
dangling pino 1 ino 9 name x\n";

pub(crate) const TREE_LISTED: &[u8] = b"d 0755 7 8 0 1234567890 1 /\n\
d 1700 0 0 0 0 2 /d\n\
- 0644 0 0 2 0 3 /d/f\n\
l 0777 0 0 4 0 4 /s -> \\x2fd\\x2ff\n";

pub(crate) const PART_LISTED: &[u8] = b"d 1700 0 0 0 0 2 /d\n- 0644 0 0 2 0 3 /d/f\n";

/// What a call answers: how much it found, or why not all is put.
#[derive(Clone, Copy)]
enum Answer {
    Found(u64),
    NoPath(FindFault),
    NotRegular,
    Clash,
    NoRoot,
}

fn answer_of(answer: Answer) -> Result<u64, ProgramFault<'static>> {
    Err(match answer {
        Answer::Found(found) => return Ok(found),
        Answer::NoPath(fault) => ProgramFault::Path(fault),
        Answer::NotRegular => ProgramFault::NotRegular,
        Answer::Clash => ProgramFault::Clash {
            addr: 0x44,
            other: 0,
        },
        Answer::NoRoot => ProgramFault::Mount(MountFault::RootKind),
    })
}

/// An image, a call, its answer, and all that it puts.
type Row = (
    &'static [Node<'static>],
    &'static Call,
    Answer,
    &'static [u8],
);

/// What is put whole.
fn worked() -> &'static [Row] {
    &[
        (TREE, &Call::Check, Answer::Found(1), TREE_CHECKED),
        (TREE, &Call::Content(b"/d/f"), Answer::Found(0), b"hi"),
        (
            TREE,
            &Call::Content(b"/x"),
            Answer::NoPath(FindFault::NotFound),
            b"",
        ),
        (TREE, &Call::Content(b"/s"), Answer::NotRegular, b""),
        (TREE, &Call::Listing, Answer::Found(0), TREE_LISTED),
        (TREE, &Call::Part(b"/"), Answer::Found(0), TREE_LISTED),
        (TREE, &Call::Part(b"/d"), Answer::Found(0), PART_LISTED),
        (
            TREE,
            &Call::Part(b"/d/f"),
            Answer::Found(0),
            b"- 0644 0 0 2 0 3 /d/f\n",
        ),
        (
            TREE,
            &Call::Part(b"/d/f/g"),
            Answer::NoPath(FindFault::NotDirectory),
            b"",
        ),
        (
            CIRCLE,
            &Call::Part(b"/d/x/d"),
            Answer::Found(0),
            CIRCLE_BELOW,
        ),
        (DEEP, &Call::Listing, Answer::Found(0), DEEP_LISTED),
        (DEEP, &Call::Part(b"/a/b"), Answer::Found(0), DEEP_BELOW),
        (
            TREE,
            &Call::Part(b"/x"),
            Answer::NoPath(FindFault::NotFound),
            b"",
        ),
        (
            TREE,
            &Call::Part(b"d"),
            Answer::NoPath(FindFault::BadPath),
            b"",
        ),
        (CLASH, &Call::Content(b"/d/f"), Answer::Clash, b""),
        (CLASH, &Call::Listing, Answer::Clash, b""),
        (CLASH, &Call::Part(b"/d"), Answer::Clash, b""),
        (FILE_AS_ROOT, &Call::Content(b"/d/f"), Answer::NoRoot, b""),
        (FILE_AS_ROOT, &Call::Listing, Answer::NoRoot, b""),
    ]
}

/// Stops the test unless a call has this answer, and puts this.
fn is_answered(
    rt: &impl Abort,
    alloc: Global,
    call: Call,
    image: &[u8],
    want: Result<u64, ProgramFault<'static>>,
    text: &[u8],
) {
    let (answer, put) = answer_and_text(alloc, call, image, GEOMETRY);
    equal(rt, answer, want);
    equal(rt, put.as_slice(), text);
}

#[test]
fn worked_calls(rt: HostRuntime) -> Result<(), Fail> {
    for &(nodes, call, answer, text) in worked() {
        let image = image_of(rt.alloc(), nodes)?;
        let want = answer_of(answer);
        is_answered(&rt, rt.alloc(), *call, &image, want, text);
    }
    Ok(())
}

/// What is found in an image, where it is no larger than any that is read.
fn findings_of(image: &[u8]) -> Option<Found> {
    if image.len() > GREATEST_IMAGE {
        return None;
    }
    Some(found_in::<LittleEndian>(image, GEOMETRY))
}

/// The nodes of two blocks that do not mount, how many findings are noted, and how many are
/// attributes.
type Findings = (&'static [&'static [u8]], &'static [&'static [u8]], u64, u64);

fn found_unmounted() -> &'static [Findings] {
    &[
        (&[COMPRESSED], &[], 0, 0),
        (&[COMPRESSED, &NO_LENGTH, COMPRESSED], &[OTHER_ORDER], 2, 0),
        (
            &[DAMAGED_INODE_2, &ATTRIBUTE, COMPRESSED],
            &[&ATTRIBUTE, OTHER_ORDER, DAMAGED_INODE_2],
            3,
            2,
        ),
    ]
}

#[test]
fn findings_of_compressed_images(rt: HostRuntime) -> Result<(), Fail> {
    for &(nodes, tail, noted, attributes) in found_unmounted() {
        let image = raw_image(
            rt.alloc(),
            Raw {
                nodes,
                tail,
                ..ONE_BLOCK
            },
        )?;
        let found = findings_of(&image).map(|found| (found.noted, found.attributes));
        equal(&rt, found, Some((noted, attributes)));
    }
    Ok(())
}

/// The nodes of an image; how many it has in the other order, where it is refused for having none;
/// and how many findings it is refused for, if it is.
type Judged = (&'static [&'static [u8]], Option<u64>, Option<u64>);

fn judged() -> &'static [Judged] {
    &[
        (&[], None, None),
        (&[COMPRESSED], None, None),
        (&[COMPRESSED, &ATTRIBUTE, &ATTRIBUTE], None, Some(2)),
        (&[DAMAGED_INODE_2, &ATTRIBUTE, &ATTRIBUTE], None, Some(1)),
        (&[OTHER_ORDER], Some(0), Some(1)),
    ]
}

fn no_nodes(others: u64) -> ProgramFault<'static> {
    ProgramFault::Image(ImageFault::NoNodes {
        name: Some("a"),
        others,
    })
}

fn with_findings(findings: u64) -> ProgramFault<'static> {
    ProgramFault::Image(ImageFault::Findings {
        name: "a",
        findings,
    })
}

#[test]
fn images_that_are_refused(rt: HostRuntime) -> Result<(), Fail> {
    for &(nodes, others, findings) in judged() {
        let image = raw_image(rt.alloc(), Raw { nodes, ..ONE_BLOCK })?;
        let refused = refuse_no_nodes::<LittleEndian>(&image, GEOMETRY, Some("a")).err();
        equal(&rt, refused, others.map(no_nodes));
        equal(
            &rt,
            others_if_none::<LittleEndian>(&image, GEOMETRY),
            others,
        );
        let refused = refuse_findings::<LittleEndian>(&image, GEOMETRY, "a").err();
        equal(&rt, refused, findings.map(with_findings));
    }
    let image = raw_image(
        rt.alloc(),
        Raw {
            nodes: &[COMPRESSED],
            ..ONE_BLOCK
        },
    )?;
    let refused = refuse_no_nodes::<BigEndian>(&image, GEOMETRY, Some("a")).err();
    equal(&rt, refused, Some(no_nodes(1)));
    equal(&rt, others_if_none::<BigEndian>(&image, GEOMETRY), Some(1));
    let small = Geometry { block: 4097 };
    equal(
        &rt,
        refuse_no_nodes::<BigEndian>(&image, small, None),
        Ok(()),
    );
    Ok(())
}

fn counted() -> &'static [(u64, &'static [u8])] {
    &[
        (
            1,
            b"jffs2_image: note: 1 finding, see check --scan; a wrong --block or --endian shows \
              as findings too, see info\n",
        ),
        (
            17,
            b"jffs2_image: note: 17 findings, see check --scan; a wrong --block or --endian shows \
              as findings too, see info\n",
        ),
    ]
}

#[test]
fn notes(rt: HostRuntime) {
    for &(findings, wanted) in counted() {
        let mut sink = FromWriter::new(Vec::new(rt.alloc()));
        equal(&rt, put_note(findings, &mut sink), Ok(()));
        equal(&rt, sink.into_writer().as_slice(), wanted);
    }
}

/// Findings, nodes of the other order, and what is noted where no node is found.
fn without_nodes() -> &'static [(u64, u64, &'static [u8])] {
    &[
        (
            0,
            0,
            b"jffs2_image: note: no node is found in either byte order, see info\n",
        ),
        (
            1,
            1,
            b"jffs2_image: note: 1 finding, see check --scan; a wrong --block or --endian shows \
              as findings too, see info\n\
              jffs2_image: note: the other byte order has 1 node, see --endian and info\n",
        ),
        (
            17,
            5,
            b"jffs2_image: note: 17 findings, see check --scan; a wrong --block or --endian shows \
              as findings too, see info\n\
              jffs2_image: note: the other byte order has 5 nodes, see --endian and info\n",
        ),
    ]
}

#[test]
fn notes_where_no_node_is_found(rt: HostRuntime) {
    for &(findings, others, wanted) in without_nodes() {
        let mut sink = FromWriter::new(Vec::new(rt.alloc()));
        equal(&rt, put_none_notes(findings, others, &mut sink), Ok(()));
        equal(&rt, sink.into_writer().as_slice(), wanted);
    }
}

/// Names and numbers of findings, of two images, and what is noted of them.
type Named = (&'static [u8], u64, &'static [u8], u64, &'static [u8]);

fn named() -> &'static [Named] {
    &[
        (b"a", 0, b"b", 0, b""),
        (
            b"a.img",
            1,
            b"b.img",
            0,
            b"jffs2_image: note: a.img: 1 finding, see check --scan; a wrong --block or --endian \
              shows as findings too, see info\n",
        ),
        (
            b"a\n",
            0,
            b"b/c",
            17,
            b"jffs2_image: note: b/c: 17 findings, see check --scan; a wrong --block or --endian \
              shows as findings too, see info\n",
        ),
        (
            b"a\n",
            2,
            b"b",
            1,
            b"jffs2_image: note: a\\x0a: 2 findings, see check --scan; a wrong --block or --endian \
              shows as findings too, see info\n\
              jffs2_image: note: b: 1 finding, see check --scan; a wrong --block or --endian \
              shows as findings too, see info\n",
        ),
    ]
}

#[test]
fn notes_of_named_images(rt: HostRuntime) {
    for &(first, findings, second, others, wanted) in named() {
        let mut sink = FromWriter::new(Vec::new(rt.alloc()));
        let answer = put_named_notes(first, findings, second, others, &mut sink);
        equal(&rt, answer, Ok(()));
        equal(&rt, sink.into_writer().as_slice(), wanted);
    }
}
