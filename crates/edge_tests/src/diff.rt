//! `diff` over a host in memory. What is printed is that of `tests/hostile_model.py`.

ghost use Rattle.std.specs.Prelude.{◌≡◌};

use crate::checks::{equal_at, expect_at};
use crate::damage::DAMAGED;
use crate::host::MemoryHost;
use crate::looks::{FILE, HI, NONE};
use crate::plan::{Lacking, Plan, Stream};
use crate::shown::shown;
use byteorder::LittleEndian;
use jcommand::{Comparison, Options, status};
use jedge::commands::run_diff;
use jnode::Endian;
use jreport::Reason;
use jscan::Geometry;
use std::alloc::Global;
use std::process::Abort;
use std::test::Fail;
use test_support::{ENTRY_A, INCOMPATIBLE};

/// What a host has, the block size, whether times are compared, all that happens, and the exit
/// status.
struct Row {
    plan: Plan<'static>,
    block: u32,
    times: bool,
    wanted: &'static str,
    status: u8,
}

/// A file `/a`, and the same image once more.
const SAME: Plan<'static> = Plan {
    other: Some(("b.img", &HI)),
    ..FILE
};

const ROWS: [Row; 12] = [
    Row {
        plan: SAME,
        block: 4096,
        times: false,
        wanted: "open a.img\n\
read a.img 116\n\
open b.img\n\
read b.img 116\n",
        status: 0,
    },
    // a line is found, and the findings are noted
    Row {
        plan: Plan {
            other: Some(("b.img", &DAMAGED)),
            ..FILE
        },
        block: 4096,
        times: false,
        wanted: "open a.img\n\
read a.img 116\n\
open b.img\n\
read b.img 41\n\
print\n\
- - 0644 0 0 2 /a\n\
say\n\
jffs2_image: note: b.img: 1 finding, see check --scan; a wrong --block or --endian shows as findings too, see info\n",
        status: 3,
    },
    Row {
        plan: Plan {
            other: Some(("b.img", &ENTRY_A)),
            ..FILE
        },
        block: 4096,
        times: true,
        wanted: "open a.img\n\
read a.img 116\n\
open b.img\n\
read b.img 41\n\
print\n\
- - 0644 0 0 2 0 /a\n",
        status: 3,
    },
    // where there is no line, the findings are
    Row {
        plan: Plan {
            bytes: &DAMAGED,
            other: Some(("b.img", &DAMAGED)),
            ..FILE
        },
        block: 4096,
        times: false,
        wanted: "open a.img\n\
read a.img 41\n\
open b.img\n\
read b.img 41\n\
say\n\
jffs2_image: note: a.img: 1 finding, see check --scan; a wrong --block or --endian shows as findings too, see info\n\
jffs2_image: note: b.img: 1 finding, see check --scan; a wrong --block or --endian shows as findings too, see info\n",
        status: 3,
    },
    // the first image is refused for its nodes, and the second before the first is mounted
    Row {
        plan: Plan {
            other: Some(("b.img", b"no JFFS2 at all\n")),
            ..NONE
        },
        block: 4096,
        times: false,
        wanted: "open a.img\n\
read a.img 16\n\
open b.img\n\
read b.img 16\n\
say\n\
jffs2_image: I1 NoNodes a.img\n\
jffs2_image: note: no node is found in either byte order, see info\n",
        status: 1,
    },
    Row {
        plan: Plan {
            bytes: &INCOMPATIBLE,
            other: Some(("b.img", b"no JFFS2 at all\n")),
            ..FILE
        },
        block: 4096,
        times: false,
        wanted: "open a.img\n\
read a.img 12\n\
open b.img\n\
read b.img 16\n\
say\n\
jffs2_image: I1 NoNodes b.img\n\
jffs2_image: note: no node is found in either byte order, see info\n",
        status: 1,
    },
    // nothing is printed where the second image does not mount
    Row {
        plan: Plan {
            other: Some(("b.img", &INCOMPATIBLE)),
            lacking: Lacking::Output,
            ..FILE
        },
        block: 4096,
        times: false,
        wanted: "open a.img\n\
read a.img 116\n\
open b.img\n\
read b.img 12\n\
say\n\
jffs2_image: M3 Incompatible at 00000000 type e0f7\n\
jffs2_image: note: no reader may skip the node, a later or different JFFS2 wrote it; check --scan shows the others\n",
        status: 1,
    },
    Row {
        plan: SAME,
        block: 4097,
        times: false,
        wanted: "open a.img\n\
read a.img 116\n\
open b.img\n\
read b.img 116\n\
say\n\
jffs2_image: M1 BlockSize\n\
jffs2_image: note: --block takes a multiple of 4 from 4096 to 4194304\n",
        status: 1,
    },
    // both files are read before an image is judged
    Row {
        plan: NONE,
        block: 4096,
        times: false,
        wanted: "open a.img\n\
read a.img 16\n\
open b.img failed NotFound\n\
say\n\
jffs2_image: P1 File b.img\n\
jffs2_image: note: b.img: no such file\n",
        status: 1,
    },
    Row {
        plan: Plan {
            name: "c.img",
            ..SAME
        },
        block: 4096,
        times: false,
        wanted: "open a.img failed NotFound\n\
say\n\
jffs2_image: P1 File a.img\n\
jffs2_image: note: a.img: no such file\n",
        status: 1,
    },
    Row {
        plan: Plan {
            cut: Some((7, Reason::Other)),
            ..SAME
        },
        block: 4096,
        times: false,
        wanted: "open a.img\n\
read a.img 7 failed Other\n\
say\n\
jffs2_image: L1 Device\n\
jffs2_image: note: a.img: was not read to its end\n",
        status: 1,
    },
    Row {
        plan: Plan {
            other: Some(("b.img", &DAMAGED)),
            answers: Stream {
                limit: 2,
                reason: Reason::NoSpace,
                ..Stream::SOUND
            },
            ..FILE
        },
        block: 4096,
        times: false,
        wanted: "open a.img\n\
read a.img 116\n\
open b.img\n\
read b.img 41\n\
print\n\
- print failed NoSpace\n\
say\n\
jffs2_image: P5 Output\n\
jffs2_image: note: standard output took no more; what it got is cut off\n",
        status: 1,
    },
];

fn asked(block: u32, times: bool) -> Comparison<&'static str>
    ensures { result.options.endian ≡ Endian.Little }
{
    Comparison {
        options: Options {
            geometry: Geometry { block },
            endian: Endian::Little,
        },
        decompress: false,
        times,
        first: "a.img",
        second: "b.img",
    }
}

/// `diff` in little order: it happens what is wanted.
fn goes(rt: &impl Abort, alloc: Global, row: &Row) -> Result<(), Fail> {
    let mut host = MemoryHost::new(rt, alloc, row.plan);
    let outcome = run_diff::<LittleEndian, _>(&mut host, asked(row.block, row.times));
    let found = shown(alloc, host.events.as_slice())?;
    expect_at(rt, found.as_str() == row.wanted, found.as_str());
    equal_at(rt, status(outcome), row.status, row.wanted);
    Ok(())
}

#[test]
fn each_call_and_each_byte(rt: HostRuntime) -> Result<(), Fail> {
    for row in &ROWS {
        goes(&rt, rt.alloc(), row)?;
    }
    Ok(())
}
