//! `info` over a host in memory. What it prints of each file is that of `tests/info_model.py`. Files
//! longer than the greatest image are not here, but in `tests/program.sh`.

use crate::checks::{equal_at, expect_at};
use crate::host::MemoryHost;
use crate::plan::{Lacking, Plan, Stream};
use crate::shown::shown;
use jcommand::status;
use jedge::commands::run_info;
use jreport::Reason;
use std::alloc::Global;
use std::process::Abort;
use std::test::Fail;
use test_support::MADE;

/// What a host has, all that happens, and the exit status.
struct Row {
    plan: Plan<'static>,
    wanted: &'static str,
    status: u8,
}

/// An image in little order, on a host where nothing fails.
pub(crate) const IMAGE: Plan<'static> = Plan {
    name: "a.img",
    bytes: &MADE,
    closed: None,
    cut: None,
    other: None,
    lacking: Lacking::Nowhere,
    answers: Stream::SOUND,
    errors: Stream::SOUND,
};

const GZIP: Plan<'static> = Plan {
    bytes: b"\x1f\x8b\x08\x00",
    ..IMAGE
};

const ROWS: [Row; 14] = [
    Row {
        plan: IMAGE,
        wanted: "open a.img\n\
read a.img 124\n\
print\n\
bytes 124\n\
order little nodes 3 other 0\n\
block unknown\n\
nodes entries 1 inodes 1 obsolete 0 damaged 0 other 1\n\
data none 1 zero 0 rtime 0 zlib 0 lzo 0 lzma 0 other 0\n\
highest inode 2 version 1\n",
        status: 0,
    },
    // no image, which is found, and the note on it
    Row {
        plan: GZIP,
        wanted: "open a.img\n\
read a.img 4\n\
print\n\
bytes 4\n\
order none\n\
block unknown\n\
nodes entries 0 inodes 0 obsolete 0 damaged 0 other 0\n\
data none 0 zero 0 rtime 0 zlib 0 lzo 0 lzma 0 other 0\n\
highest inode 0 version 0\n\
say\n\
jffs2_image: note: the file begins as gzip does\n",
        status: 3,
    },
    // short sinks
    Row {
        plan: Plan {
            answers: Stream {
                most: 1,
                ..Stream::SOUND
            },
            errors: Stream {
                most: 1,
                ..Stream::SOUND
            },
            ..GZIP
        },
        wanted: "open a.img\n\
read a.img 4\n\
print\n\
bytes 4\n\
order none\n\
block unknown\n\
nodes entries 0 inodes 0 obsolete 0 damaged 0 other 0\n\
data none 0 zero 0 rtime 0 zlib 0 lzo 0 lzma 0 other 0\n\
highest inode 0 version 0\n\
say\n\
jffs2_image: note: the file begins as gzip does\n",
        status: 3,
    },
    Row {
        plan: Plan {
            closed: Some(Reason::NoPermission),
            ..IMAGE
        },
        wanted: "open a.img failed NoPermission\n\
say\n\
jffs2_image: P1 File a.img\n\
jffs2_image: note: a.img: no permission\n",
        status: 1,
    },
    // of which the host tells nothing
    Row {
        plan: Plan {
            closed: Some(Reason::Other),
            ..IMAGE
        },
        wanted: "open a.img failed Other\n\
say\n\
jffs2_image: P1 File a.img\n",
        status: 1,
    },
    Row {
        plan: Plan {
            cut: Some((100, Reason::IsDirectory)),
            ..IMAGE
        },
        wanted: "open a.img\n\
read a.img 100 failed IsDirectory\n\
say\n\
jffs2_image: L1 Device\n\
jffs2_image: note: a.img: is a directory\n",
        status: 1,
    },
    // before the first byte
    Row {
        plan: Plan {
            cut: Some((0, Reason::Other)),
            ..IMAGE
        },
        wanted: "open a.img\n\
read a.img 0 failed Other\n\
say\n\
jffs2_image: L1 Device\n\
jffs2_image: note: a.img: was not read to its end\n",
        status: 1,
    },
    Row {
        plan: Plan {
            lacking: Lacking::Name,
            ..IMAGE
        },
        wanted: "say\n\
jffs2_image: P6 OutOfMemory\n\
jffs2_image: note: memory ran out; free some, or raise its limit\n",
        status: 1,
    },
    Row {
        plan: Plan {
            lacking: Lacking::Bytes,
            ..IMAGE
        },
        wanted: "open a.img\n\
read part a.img 124\n\
say\n\
jffs2_image: L3 OutOfMemory\n\
jffs2_image: note: memory ran out; free some, or raise its limit\n",
        status: 1,
    },
    Row {
        plan: Plan {
            lacking: Lacking::Output,
            ..IMAGE
        },
        wanted: "open a.img\n\
read a.img 124\n\
say\n\
jffs2_image: P6 OutOfMemory\n\
jffs2_image: note: memory ran out; free some, or raise its limit\n",
        status: 1,
    },
    // a sink that takes a beginning
    Row {
        plan: Plan {
            answers: Stream {
                limit: 16,
                reason: Reason::NoSpace,
                ..Stream::SOUND
            },
            ..IMAGE
        },
        wanted: "open a.img\n\
read a.img 124\n\
print\n\
bytes 124\n\
order print failed NoSpace\n\
say\n\
jffs2_image: P5 Output\n\
jffs2_image: note: standard output took no more; what it got is cut off\n",
        status: 1,
    },
    // all is taken, and a beginning is printed; no note is said of what was not told
    Row {
        plan: Plan {
            answers: Stream {
                prints: 8,
                reason: Reason::NoSpace,
                ..Stream::SOUND
            },
            ..GZIP
        },
        wanted: "open a.img\n\
read a.img 4\n\
print\n\
bytes 4\n\
print failed NoSpace\n\
say\n\
jffs2_image: P5 Output\n\
jffs2_image: note: standard output took no more; what it got is cut off\n",
        status: 1,
    },
    // standard error fails: nothing tells of that, and the status stays
    Row {
        plan: Plan {
            closed: Some(Reason::NotFound),
            errors: Stream {
                limit: 13,
                ..Stream::SOUND
            },
            ..IMAGE
        },
        wanted: "open a.img failed NotFound\n\
say\n\
jffs2_image: say failed Other\n",
        status: 1,
    },
    // both streams fail at once
    Row {
        plan: Plan {
            answers: Stream {
                limit: 0,
                ..Stream::SOUND
            },
            errors: Stream {
                prints: 0,
                ..Stream::SOUND
            },
            ..IMAGE
        },
        wanted: "open a.img\n\
read a.img 124\n\
print failed Other\n\
say failed Other\n",
        status: 1,
    },
];

/// `info` of a file, over a host with this plan: it happens what is wanted.
fn goes(
    rt: &impl Abort,
    alloc: Global,
    plan: Plan<'_>,
    name: &str,
    wanted: &str,
) -> Result<u8, Fail> {
    let mut host = MemoryHost::new(rt, alloc, plan);
    let outcome = run_info(&mut host, name);
    let found = shown(alloc, host.events.as_slice())?;
    expect_at(rt, found.as_str() == wanted, found.as_str());
    Ok(status(outcome))
}

#[test]
fn each_call_and_each_byte(rt: HostRuntime) -> Result<(), Fail> {
    for row in &ROWS {
        let found = goes(&rt, rt.alloc(), row.plan, "a.img", row.wanted)?;
        equal_at(&rt, found, row.status, row.wanted);
    }
    Ok(())
}

#[test]
fn another_name_is_not_found(rt: HostRuntime) -> Result<(), Fail> {
    let wanted = "open b.img failed NotFound\n\
say\n\
jffs2_image: P1 File b.img\n\
jffs2_image: note: b.img: no such file\n";
    let found = goes(&rt, rt.alloc(), IMAGE, "b.img", wanted)?;
    equal_at(&rt, found, 1, wanted);
    Ok(())
}
