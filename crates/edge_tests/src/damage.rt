//! `damage` over a host in memory. What is printed is worked out from the rules.

ghost use Rattle.std.specs.Prelude.{◌≡◌};

use crate::checks::{equal_at, expect_at};
use crate::host::MemoryHost;
use crate::info::IMAGE;
use crate::plan::{Lacking, Plan, Stream};
use crate::shown::shown;
use byteorder::{BigEndian, LittleEndian};
use jcommand::{Examination, Options, status};
use jedge::commands::run_damage;
use jnode::Endian;
use jreport::Reason;
use jscan::Geometry;
use std::alloc::Global;
use std::process::Abort;
use std::test::Fail;
use test_support::{BIG_ENTRY_A, ENTRY_A, INCOMPATIBLE};

/// What a host has, the block size, all that happens, and the exit status.
struct Row {
    plan: Plan<'static>,
    block: u32,
    wanted: &'static str,
    status: u8,
}

/// A name whose object is missing.
const MISSING: Plan<'static> = Plan {
    bytes: &ENTRY_A,
    ..IMAGE
};

/// The same entry with `b` for its name `a`.
pub(crate) const DAMAGED: [u8; 41] = [
    0x85, 0x19, 0x01, 0xe0, 0x29, 0x00, 0x00, 0x00, 0x6d, 0xa6, 0x2f, 0xd7, 0x01, 0x00, 0x00, 0x00,
    0x01, 0x00, 0x00, 0x00, 0x02, 0x00, 0x00, 0x00, 0x00, 0x00, 0x00, 0x00, 0x01, 0x08, 0x00, 0x00,
    0x95, 0x02, 0x9b, 0x91, 0xce, 0x51, 0xb5, 0x3a, 0x62,
];

/// The entry, and an inode node of the file that has its size 4 and none of its bytes.
pub(crate) const GAPPED: [u8; 112] = [
    0x85, 0x19, 0x01, 0xe0, 0x29, 0x00, 0x00, 0x00, 0x6d, 0xa6, 0x2f, 0xd7, 0x01, 0x00, 0x00, 0x00,
    0x01, 0x00, 0x00, 0x00, 0x02, 0x00, 0x00, 0x00, 0x00, 0x00, 0x00, 0x00, 0x01, 0x08, 0x00, 0x00,
    0x95, 0x02, 0x9b, 0x91, 0xce, 0x51, 0xb5, 0x3a, 0x61, 0xff, 0xff, 0xff, 0x85, 0x19, 0x02, 0xe0,
    0x44, 0x00, 0x00, 0x00, 0x1d, 0xfb, 0xf7, 0x98, 0x02, 0x00, 0x00, 0x00, 0x01, 0x00, 0x00, 0x00,
    0xa4, 0x81, 0x00, 0x00, 0x00, 0x00, 0x00, 0x00, 0x04, 0x00, 0x00, 0x00, 0x00, 0x00, 0x00, 0x00,
    0x00, 0x00, 0x00, 0x00, 0x00, 0x00, 0x00, 0x00, 0x00, 0x00, 0x00, 0x00, 0x00, 0x00, 0x00, 0x00,
    0x00, 0x00, 0x00, 0x00, 0x00, 0x00, 0x00, 0x00, 0x00, 0x00, 0x00, 0x00, 0x3e, 0xca, 0x4e, 0x00,
];

/// The same, and dirt behind it.
pub(crate) const SHORT_BYTES: [u8; 116] = [
    0x85, 0x19, 0x01, 0xe0, 0x29, 0x00, 0x00, 0x00, 0x6d, 0xa6, 0x2f, 0xd7, 0x01, 0x00, 0x00, 0x00,
    0x01, 0x00, 0x00, 0x00, 0x02, 0x00, 0x00, 0x00, 0x00, 0x00, 0x00, 0x00, 0x01, 0x08, 0x00, 0x00,
    0x95, 0x02, 0x9b, 0x91, 0xce, 0x51, 0xb5, 0x3a, 0x61, 0xff, 0xff, 0xff, 0x85, 0x19, 0x02, 0xe0,
    0x44, 0x00, 0x00, 0x00, 0x1d, 0xfb, 0xf7, 0x98, 0x02, 0x00, 0x00, 0x00, 0x01, 0x00, 0x00, 0x00,
    0xa4, 0x81, 0x00, 0x00, 0x00, 0x00, 0x00, 0x00, 0x04, 0x00, 0x00, 0x00, 0x00, 0x00, 0x00, 0x00,
    0x00, 0x00, 0x00, 0x00, 0x00, 0x00, 0x00, 0x00, 0x00, 0x00, 0x00, 0x00, 0x00, 0x00, 0x00, 0x00,
    0x00, 0x00, 0x00, 0x00, 0x00, 0x00, 0x00, 0x00, 0x00, 0x00, 0x00, 0x00, 0x3e, 0xca, 0x4e, 0x00,
    0x12, 0x34, 0x56, 0x78,
];

const ROWS: [Row; 14] = [
    Row {
        plan: IMAGE,
        block: 4096,
        wanted: "open a.img\n\
read a.img 124\n\
print\n\
total damaged 0 paths 0 missing 0 gaps 0\n",
        status: 0,
    },
    Row {
        plan: MISSING,
        block: 4096,
        wanted: "open a.img\n\
read a.img 41\n\
print\n\
missing /a ino 2\n\
total damaged 0 paths 0 missing 1 gaps 0\n",
        status: 3,
    },
    Row {
        plan: Plan {
            bytes: &GAPPED,
            ..IMAGE
        },
        block: 4096,
        wanted: "open a.img\n\
read a.img 112\n\
print\n\
gap ino 2 bytes 0 to 4 in /a\n\
total damaged 0 paths 0 missing 0 gaps 1\n",
        status: 3,
    },
    // damage that is told, and the note on the finding
    Row {
        plan: Plan {
            bytes: &DAMAGED,
            ..IMAGE
        },
        block: 4096,
        wanted: "open a.img\n\
read a.img 41\n\
print\n\
00000000 name-crc pino 1 version 1 ino 2 lost in /\n\
total damaged 1 paths 0 missing 0 gaps 0\n\
say\n\
jffs2_image: note: 1 finding, see check --scan; a wrong --block or --endian shows as findings too, see info\n",
        status: 3,
    },
    // short sinks
    Row {
        plan: Plan {
            answers: Stream {
                most: 3,
                ..Stream::SOUND
            },
            ..MISSING
        },
        block: 4096,
        wanted: "open a.img\n\
read a.img 41\n\
print\n\
missing /a ino 2\n\
total damaged 0 paths 0 missing 1 gaps 0\n",
        status: 3,
    },
    Row {
        plan: Plan {
            closed: Some(Reason::NotFound),
            ..IMAGE
        },
        block: 4096,
        wanted: "open a.img failed NotFound\n\
say\n\
jffs2_image: P1 File a.img\n\
jffs2_image: note: a.img: no such file\n",
        status: 1,
    },
    Row {
        plan: Plan {
            cut: Some((41, Reason::Other)),
            ..IMAGE
        },
        block: 4096,
        wanted: "open a.img\n\
read a.img 41 failed Other\n\
say\n\
jffs2_image: L1 Device\n\
jffs2_image: note: a.img: was not read to its end\n",
        status: 1,
    },
    // nothing is printed of an image that is refused
    Row {
        plan: Plan {
            bytes: &BIG_ENTRY_A,
            ..IMAGE
        },
        block: 4096,
        wanted: "open a.img\n\
read a.img 41\n\
say\n\
jffs2_image: I1 NoNodes\n\
jffs2_image: note: the other byte order has 1 node, see --endian and info\n",
        status: 1,
    },
    Row {
        plan: Plan {
            bytes: &INCOMPATIBLE,
            ..IMAGE
        },
        block: 4096,
        wanted: "open a.img\n\
read a.img 12\n\
say\n\
jffs2_image: M3 Incompatible at 00000000 type e0f7\n\
jffs2_image: note: no reader may skip the node, a later or different JFFS2 wrote it; check --scan shows the others\n",
        status: 1,
    },
    Row {
        plan: IMAGE,
        block: 4097,
        wanted: "open a.img\n\
read a.img 124\n\
say\n\
jffs2_image: M1 BlockSize\n\
jffs2_image: note: --block takes a multiple of 4 from 4096 to 4194304\n",
        status: 1,
    },
    // the image is judged before memory for the output is wanted
    Row {
        plan: Plan {
            lacking: Lacking::Output,
            ..IMAGE
        },
        block: 4097,
        wanted: "open a.img\n\
read a.img 124\n\
say\n\
jffs2_image: M1 BlockSize\n\
jffs2_image: note: --block takes a multiple of 4 from 4096 to 4194304\n",
        status: 1,
    },
    Row {
        plan: Plan {
            lacking: Lacking::Output,
            ..IMAGE
        },
        block: 4096,
        wanted: "open a.img\n\
read a.img 124\n\
say\n\
jffs2_image: P6 OutOfMemory\n\
jffs2_image: note: memory ran out; free some, or raise its limit\n",
        status: 1,
    },
    Row {
        plan: Plan {
            answers: Stream {
                limit: 17,
                reason: Reason::NoSpace,
                ..Stream::SOUND
            },
            ..MISSING
        },
        block: 4096,
        wanted: "open a.img\n\
read a.img 41\n\
print\n\
missing /a ino 2\n\
print failed NoSpace\n\
say\n\
jffs2_image: P5 Output\n\
jffs2_image: note: standard output took no more; what it got is cut off\n",
        status: 1,
    },
    // the note does not come out: what was found stays
    Row {
        plan: Plan {
            bytes: &DAMAGED,
            errors: Stream {
                prints: 0,
                reason: Reason::Busy,
                ..Stream::SOUND
            },
            ..IMAGE
        },
        block: 4096,
        wanted: "open a.img\n\
read a.img 41\n\
print\n\
00000000 name-crc pino 1 version 1 ino 2 lost in /\n\
total damaged 1 paths 0 missing 0 gaps 0\n\
say failed Busy\n",
        status: 3,
    },
];

fn asked(block: u32, endian: Endian) -> Examination<&'static str>
    ensures { result.options.endian ≡ endian }
{
    Examination {
        options: Options {
            geometry: Geometry { block },
            endian,
        },
        decompress: false,
        image: "a.img",
    }
}

/// `damage` in little order: it happens what is wanted.
fn goes(rt: &impl Abort, alloc: Global, row: &Row) -> Result<(), Fail> {
    let mut host = MemoryHost::new(rt, alloc, row.plan);
    let outcome = run_damage::<LittleEndian, _>(&mut host, asked(row.block, Endian::Little));
    let found = shown(alloc, host.events.as_slice())?;
    expect_at(rt, found.as_str() == row.wanted, found.as_str());
    equal_at(rt, status(outcome), row.status, row.wanted);
    Ok(())
}

#[test]
fn each_call_and_each_byte(rt: HostRuntime) -> Result<(), Fail> {
    for row in &ROWS {
        goes(&rt, rt.alloc(), row)?;
    }
    Ok(())
}

#[test]
fn in_big_order(rt: HostRuntime) -> Result<(), Fail> {
    let plan = Plan::of("a.img", &BIG_ENTRY_A);
    let mut host = MemoryHost::new(&rt, rt.alloc(), plan);
    let outcome = run_damage::<BigEndian, _>(&mut host, asked(4096, Endian::Big));
    let found = shown(rt.alloc(), host.events.as_slice())?;
    let wanted = "open a.img\n\
read a.img 41\n\
print\n\
missing /a ino 2\n\
total damaged 0 paths 0 missing 1 gaps 0\n";
    expect_at(&rt, found.as_str() == wanted, found.as_str());
    equal_at(&rt, status(outcome), 3, wanted);
    Ok(())
}
