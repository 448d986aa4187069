//! `check`, `ls` and `cat` over a host in memory. What is printed is that of
//! `tests/hostile_model.py`.

ghost use Rattle.std.specs.Prelude.{◌≡◌};

use crate::checks::{equal_at, expect_at};
use crate::damage::{GAPPED, SHORT_BYTES};
use crate::host::MemoryHost;
use crate::info::IMAGE;
use crate::plan::{Lacking, Plan, Stream};
use crate::shown::shown;
use crate::through::BROKEN_IMAGE;
use byteorder::{BigEndian, LittleEndian};
use jcommand::{Check, FileContent, Options, Outcome, TreeListing, status};
use jedge::commands::{run_cat, run_check, run_list};
use jnode::{Endian, Order};
use jreport::Reason;
use jscan::Geometry;
use std::alloc::Global;
use std::process::Abort;
use std::test::Fail;
use test_support::{BIG_ENTRY_A, ENTRY_A, INCOMPATIBLE};

/// What is asked of `a.img`.
#[derive(Clone, Copy)]
enum Ask {
    Check {
        shape: bool,
    },
    List {
        decompress: bool,
        path: Option<&'static str>,
    },
    Cat {
        decompress: bool,
        strict: bool,
        path: &'static str,
    },
}

/// What is asked of a host that has this, the block size, all that happens, and the exit status.
struct Row {
    ask: Ask,
    plan: Plan<'static>,
    block: u32,
    wanted: &'static str,
    status: u8,
}

/// A file `/a` of mode 644 with two bytes.
pub(crate) const HI: [u8; 116] = [
    0x85, 0x19, 0x02, 0xe0, 0x46, 0x00, 0x00, 0x00, 0x96, 0x33, 0xfe, 0x32, 0x02, 0x00, 0x00, 0x00,
    0x01, 0x00, 0x00, 0x00, 0xa4, 0x81, 0x00, 0x00, 0x00, 0x00, 0x00, 0x00, 0x02, 0x00, 0x00, 0x00,
    0x00, 0x00, 0x00, 0x00, 0x00, 0x00, 0x00, 0x00, 0x00, 0x00, 0x00, 0x00, 0x00, 0x00, 0x00, 0x00,
    0x02, 0x00, 0x00, 0x00, 0x02, 0x00, 0x00, 0x00, 0x00, 0x00, 0x00, 0x00, 0x53, 0x38, 0x4a, 0x99,
    0xe3, 0x44, 0x1f, 0xe7, 0x68, 0x69, 0xff, 0xff, 0x85, 0x19, 0x01, 0xe0, 0x29, 0x00, 0x00, 0x00,
    0x6d, 0xa6, 0x2f, 0xd7, 0x01, 0x00, 0x00, 0x00, 0x01, 0x00, 0x00, 0x00, 0x02, 0x00, 0x00, 0x00,
    0x00, 0x00, 0x00, 0x00, 0x01, 0x08, 0x00, 0x00, 0x95, 0x02, 0x9b, 0x91, 0xce, 0x51, 0xb5, 0x3a,
    0x61, 0xff, 0xff, 0xff,
];

pub(crate) const FILE: Plan<'static> = Plan {
    bytes: &HI,
    ..IMAGE
};

/// A name whose object is missing.
const DANGLING: Plan<'static> = Plan {
    bytes: &ENTRY_A,
    ..IMAGE
};

pub(crate) const NONE: Plan<'static> = Plan {
    bytes: b"no JFFS2 at all\n",
    ..IMAGE
};

const CHECK: Ask = Ask::Check { shape: false };

const SHAPE: Ask = Ask::Check { shape: true };

const ALL: Ask = Ask::List {
    decompress: false,
    path: None,
};

const CAT: Ask = Ask::Cat {
    decompress: false,
    strict: false,
    path: "/a",
};

const CHECKS: [Row; 8] = [
    Row {
        ask: CHECK,
        plan: FILE,
        block: 4096,
        wanted: "open a.img\n\
read a.img 116\n\
print\n\
block 0\n\
00000000 inode 72 ino 2 version 1 mode 100644 size 2 offset 0 data 2 none\n\
00000048 entry 44 pino 1 version 1 ino 2 type 8 name a\n\
00000074 erased 3980\n\
total blocks 1 entries 1 inodes 1 findings 0\n\
mount ok\n",
        status: 0,
    },
    Row {
        ask: SHAPE,
        plan: DANGLING,
        block: 4096,
        wanted: "open a.img\n\
read a.img 41\n\
print\n\
block 0\n\
00000000 entry 44 pino 1 version 1 ino 2 type 8 name a\n\
0000002c erased 4052\n\
total blocks 1 entries 1 inodes 0 findings 0\n\
mount ok\n\
dangling pino 1 ino 2 name a\n\
shape ok\n",
        status: 3,
    },
    // the report of an image that does not mount
    Row {
        ask: CHECK,
        plan: Plan {
            bytes: &INCOMPATIBLE,
            ..IMAGE
        },
        block: 4096,
        wanted: "open a.img\n\
read a.img 12\n\
print\n\
block 0\n\
00000000 incompatible 12 type e0f7\n\
0000000c erased 4084\n\
total blocks 1 entries 0 inodes 0 findings 1\n\
mount refused M3 Incompatible at 00000000 type e0f7\n",
        status: 3,
    },
    // the block size is judged before the file is read, and behind its name
    Row {
        ask: CHECK,
        plan: Plan {
            cut: Some((0, Reason::IsDirectory)),
            ..FILE
        },
        block: 4097,
        wanted: "open a.img\n\
say\n\
jffs2_image: C1 BlockSize\n\
jffs2_image: note: --block takes a multiple of 4 from 4096 to 4194304\n",
        status: 1,
    },
    Row {
        ask: CHECK,
        plan: Plan {
            closed: Some(Reason::NoPermission),
            ..FILE
        },
        block: 4097,
        wanted: "open a.img failed NoPermission\n\
say\n\
jffs2_image: P1 File a.img\n\
jffs2_image: note: a.img: no permission\n",
        status: 1,
    },
    Row {
        ask: SHAPE,
        plan: Plan {
            cut: Some((7, Reason::IsDirectory)),
            ..FILE
        },
        block: 4096,
        wanted: "open a.img\n\
read a.img 7 failed IsDirectory\n\
say\n\
jffs2_image: L1 Device\n\
jffs2_image: note: a.img: is a directory\n",
        status: 1,
    },
    Row {
        ask: CHECK,
        plan: Plan {
            lacking: Lacking::Output,
            ..FILE
        },
        block: 4096,
        wanted: "open a.img\n\
read a.img 116\n\
say\n\
jffs2_image: P6 OutOfMemory\n\
jffs2_image: note: memory ran out; free some, or raise its limit\n",
        status: 1,
    },
    Row {
        ask: CHECK,
        plan: Plan {
            answers: Stream {
                prints: 8,
                reason: Reason::NoSpace,
                ..Stream::SOUND
            },
            ..FILE
        },
        block: 4096,
        wanted: "open a.img\n\
read a.img 116\n\
print\n\
block 0\n\
print failed NoSpace\n\
say\n\
jffs2_image: P5 Output\n\
jffs2_image: note: standard output took no more; what it got is cut off\n",
        status: 1,
    },
];

const LISTS: [Row; 11] = [
    Row {
        ask: ALL,
        plan: FILE,
        block: 4096,
        wanted: "open a.img\n\
read a.img 116\n\
print\n\
d 0755 0 0 0 0 1 /\n\
- 0644 0 0 2 0 2 /a\n",
        status: 0,
    },
    // through its compression an image has the same tree as decompressed
    Row {
        ask: Ask::List {
            decompress: true,
            path: Some("/a"),
        },
        plan: FILE,
        block: 8192,
        wanted: "open a.img\n\
read a.img 116\n\
print\n\
- 0644 0 0 2 0 2 /a\n",
        status: 0,
    },
    // none is made, so its blocks may be smaller than those of a flash that is written
    Row {
        ask: Ask::List {
            decompress: true,
            path: None,
        },
        plan: FILE,
        block: 4096,
        wanted: "open a.img\n\
read a.img 116\n\
print\n\
d 0755 0 0 0 0 1 /\n\
- 0644 0 0 2 0 2 /a\n",
        status: 0,
    },
    // data that are not shown are not decompressed, so it does not matter that they are broken
    Row {
        ask: Ask::List {
            decompress: true,
            path: None,
        },
        plan: BROKEN_IMAGE,
        block: 4096,
        wanted: "open a.img\n\
read a.img 124\n\
print\n\
d 0755 0 0 0 0 1 /\n\
- 0644 0 0 16 0 2 /a\n",
        status: 0,
    },
    // the word is judged before the file is opened
    Row {
        ask: Ask::List {
            decompress: false,
            path: Some("/\\x1"),
        },
        plan: FILE,
        block: 4097,
        wanted: "say\n\
jffs2_image: P3 Path BadPath\n\
jffs2_image: note: a path begins with /, as ls prints it, and no name in it is empty, . or ..\n",
        status: 1,
    },
    Row {
        ask: Ask::List {
            decompress: false,
            path: Some("/b"),
        },
        plan: FILE,
        block: 4096,
        wanted: "open a.img\n\
read a.img 116\n\
say\n\
jffs2_image: P3 Path NotFound\n\
jffs2_image: note: a name on the path is not there, or leads to no object; ls shows those that do\n",
        status: 1,
    },
    // the notes on an image in which no node is found
    Row {
        ask: ALL,
        plan: NONE,
        block: 4096,
        wanted: "open a.img\n\
read a.img 16\n\
print\n\
d 0755 0 0 0 0 1 /\n\
say\n\
jffs2_image: note: 1 finding, see check --scan; a wrong --block or --endian shows as findings too, see info\n\
jffs2_image: note: no node is found in either byte order, see info\n",
        status: 0,
    },
    Row {
        ask: ALL,
        plan: Plan {
            bytes: &BIG_ENTRY_A,
            ..IMAGE
        },
        block: 4096,
        wanted: "open a.img\n\
read a.img 41\n\
print\n\
d 0755 0 0 0 0 1 /\n\
say\n\
jffs2_image: note: 2 findings, see check --scan; a wrong --block or --endian shows as findings too, see info\n\
jffs2_image: note: the other byte order has 1 node, see --endian and info\n\
jffs2_image: note: this looks like --endian big --block 4194304 (or --auto)\n",
        status: 0,
    },
    // those of the image that was read
    Row {
        ask: Ask::List {
            decompress: true,
            path: None,
        },
        plan: NONE,
        block: 8192,
        wanted: "open a.img\n\
read a.img 16\n\
print\n\
d 0755 0 0 0 0 1 /\n\
say\n\
jffs2_image: note: 1 finding, see check --scan; a wrong --block or --endian shows as findings too, see info\n\
jffs2_image: note: no node is found in either byte order, see info\n",
        status: 0,
    },
    Row {
        ask: ALL,
        plan: Plan {
            bytes: &INCOMPATIBLE,
            lacking: Lacking::Output,
            ..IMAGE
        },
        block: 4096,
        wanted: "open a.img\n\
read a.img 12\n\
say\n\
jffs2_image: M3 Incompatible at 00000000 type e0f7\n\
jffs2_image: note: no reader may skip the node, a later or different JFFS2 wrote it; check --scan shows the others\n",
        status: 1,
    },
    Row {
        ask: ALL,
        plan: Plan {
            answers: Stream {
                limit: 19,
                reason: Reason::Busy,
                ..Stream::SOUND
            },
            ..FILE
        },
        block: 4096,
        wanted: "open a.img\n\
read a.img 116\n\
print\n\
d 0755 0 0 0 0 1 /\n\
print failed Busy\n\
say\n\
jffs2_image: P5 Output\n\
jffs2_image: note: standard output took no more; what it got is cut off\n",
        status: 1,
    },
];

/// The file `/a` of four bytes that no node has, and dirt behind its nodes.
const SHORT: Plan<'static> = Plan {
    bytes: &SHORT_BYTES,
    ..IMAGE
};

const CATS: [Row; 11] = [
    // bytes that no node has
    Row {
        ask: CAT,
        plan: SHORT,
        block: 4096,
        wanted: "open a.img\n\
read a.img 116\n\
print\n\
\0\0\0\0\
say\n\
jffs2_image: note: bytes that no node has, zeros here: 4; see damage\n\
jffs2_image: note: 1 finding, see check --scan; a wrong --block or --endian shows as findings too, see info\n",
        status: 0,
    },
    Row {
        ask: Ask::Cat {
            decompress: true,
            strict: true,
            path: "/a",
        },
        plan: SHORT,
        block: 4096,
        wanted: "open a.img\n\
read a.img 116\n\
print\n\
\0\0\0\0\
say\n\
jffs2_image: note: bytes that no node has, zeros here: 4; see damage\n\
jffs2_image: note: 1 finding, see check --scan; a wrong --block or --endian shows as findings too, see info\n",
        status: 3,
    },
    // without findings they are not looked for
    Row {
        ask: Ask::Cat {
            decompress: false,
            strict: true,
            path: "/a",
        },
        plan: Plan {
            bytes: &GAPPED,
            ..IMAGE
        },
        block: 4096,
        wanted: "open a.img\n\
read a.img 112\n\
print\n\
\0\0\0\0",
        status: 0,
    },
    Row {
        ask: CAT,
        plan: FILE,
        block: 4096,
        wanted: "open a.img\n\
read a.img 116\n\
print\n\
hi",
        status: 0,
    },
    Row {
        ask: Ask::Cat {
            decompress: true,
            strict: false,
            path: "/\\x61",
        },
        plan: FILE,
        block: 8192,
        wanted: "open a.img\n\
read a.img 116\n\
print\n\
hi",
        status: 0,
    },
    Row {
        ask: Ask::Cat {
            decompress: true,
            strict: false,
            path: "/a",
        },
        plan: BROKEN_IMAGE,
        block: 4096,
        wanted: "open a.img\n\
read a.img 124\n\
say\n\
jffs2_image: Z1 Data at 00000000\n\
jffs2_image: note: the data of the node break the rules of their method, or give another length\n",
        status: 1,
    },
    Row {
        ask: Ask::Cat {
            decompress: true,
            strict: false,
            path: "/",
        },
        plan: BROKEN_IMAGE,
        block: 4096,
        wanted: "open a.img\n\
read a.img 124\n\
say\n\
jffs2_image: P4 NotRegular\n\
jffs2_image: note: the path leads to something that is no regular file\n",
        status: 1,
    },
    Row {
        ask: Ask::Cat {
            decompress: false,
            strict: false,
            path: "a\\",
        },
        plan: FILE,
        block: 4096,
        wanted: "say\n\
jffs2_image: P3 Path BadPath\n\
jffs2_image: note: a path begins with /, as ls prints it, and no name in it is empty, . or ..\n",
        status: 1,
    },
    Row {
        ask: Ask::Cat {
            decompress: false,
            strict: false,
            path: "/",
        },
        plan: FILE,
        block: 4096,
        wanted: "open a.img\n\
read a.img 116\n\
say\n\
jffs2_image: P4 NotRegular\n\
jffs2_image: note: the path leads to something that is no regular file\n",
        status: 1,
    },
    // the path is looked for before anything is noted
    Row {
        ask: CAT,
        plan: NONE,
        block: 4096,
        wanted: "open a.img\n\
read a.img 16\n\
say\n\
jffs2_image: P3 Path NotFound\n\
jffs2_image: note: a name on the path is not there, or leads to no object; ls shows those that do\n",
        status: 1,
    },
    Row {
        ask: CAT,
        plan: Plan {
            answers: Stream {
                most: 1,
                prints: 1,
                ..Stream::SOUND
            },
            ..FILE
        },
        block: 4096,
        wanted: "open a.img\n\
read a.img 116\n\
print\n\
hprint failed Other\n\
say\n\
jffs2_image: P5 Output\n\
jffs2_image: note: standard output took no more; what it got is cut off\n",
        status: 1,
    },
];

/// A command of these over a host, in the byte order of its options.
fn runs<E: Order, R: Abort>(host: &mut MemoryHost<'_, R>, ask: Ask, options: Options) -> Outcome
    requires { options.endian ≡ E.order }
{
    let image = "a.img";
    match ask {
        Ask::Check { shape } => run_check::<E, _>(
            host,
            Check {
                options,
                shape,
                image,
            },
        ),
        Ask::List { decompress, path } => run_list::<E, _>(
            host,
            TreeListing {
                options,
                decompress,
                image,
                path,
            },
        ),
        Ask::Cat {
            decompress,
            strict,
            path,
        } => run_cat::<E, _>(
            host,
            FileContent {
                options,
                decompress,
                strict,
                image,
                path,
            },
        ),
    }
}

fn asked(block: u32, endian: Endian) -> Options
    ensures { result.endian ≡ endian }
{
    Options {
        geometry: Geometry { block },
        endian,
    }
}

/// It happens what is wanted.
fn goes(rt: &impl Abort, alloc: Global, row: &Row) -> Result<(), Fail> {
    let mut host = MemoryHost::new(rt, alloc, row.plan);
    let options = asked(row.block, Endian::Little);
    let outcome = runs::<LittleEndian, _>(&mut host, row.ask, options);
    let found = shown(alloc, host.events.as_slice())?;
    expect_at(rt, found.as_str() == row.wanted, found.as_str());
    equal_at(rt, status(outcome), row.status, row.wanted);
    Ok(())
}

#[test]
fn each_call_and_each_byte_of_check(rt: HostRuntime) -> Result<(), Fail> {
    for row in &CHECKS {
        goes(&rt, rt.alloc(), row)?;
    }
    Ok(())
}

#[test]
fn each_call_and_each_byte_of_ls(rt: HostRuntime) -> Result<(), Fail> {
    for row in &LISTS {
        goes(&rt, rt.alloc(), row)?;
    }
    Ok(())
}

#[test]
fn each_call_and_each_byte_of_cat(rt: HostRuntime) -> Result<(), Fail> {
    for row in &CATS {
        goes(&rt, rt.alloc(), row)?;
    }
    Ok(())
}

#[test]
fn in_big_order(rt: HostRuntime) -> Result<(), Fail> {
    let plan = Plan::of("a.img", &BIG_ENTRY_A);
    let mut host = MemoryHost::new(&rt, rt.alloc(), plan);
    let outcome = runs::<BigEndian, _>(&mut host, ALL, asked(4096, Endian::Big));
    let found = shown(rt.alloc(), host.events.as_slice())?;
    let wanted = "open a.img\n\
read a.img 41\n\
print\n\
d 0755 0 0 0 0 1 /\n";
    expect_at(&rt, found.as_str() == wanted, found.as_str());
    equal_at(&rt, status(outcome), 0, wanted);
    Ok(())
}
