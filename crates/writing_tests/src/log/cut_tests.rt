//! What mounts after writing stopped, at each byte: the plain file system after the steps whose
//! nodes are whole.

use crate::checks::expect_at;
use crate::log::sessions::{Outcome, run_in_turn, run_paged};
use crate::log::stopped::Log;
use byteorder::{BigEndian, LittleEndian};
use jlog::Flash;
use jmount::mount;
use jnode::{Damage, Order};
use jscan::{Finding, FindingKind, Geometry, Page};
use jsteps::{Op, Text};
use std::alloc::Global;
use std::process::Abort;
use std::test::Fail;
use test_operations::{BY, By, Change, Plain, op_of, ops_of};

const GEOMETRY: Geometry = Geometry { block: 8192 };

/// A block of 8,192 bytes, by pages of 4,096.
const ONE: Flash = Flash {
    geometry: GEOMETRY,
    blocks: 1,
    page: Page::P4096,
};

/// Two of them.
const TWO: Flash = Flash {
    geometry: GEOMETRY,
    blocks: 2,
    page: Page::P4096,
};

/// A block of 65,536 bytes, by pages of 8,192.
const LARGE: Flash = Flash {
    geometry: Geometry { block: 65_536 },
    blocks: 1,
    page: Page::P8192,
};

/// The same by pages of 16,384.
const LARGEST: Flash = Flash {
    geometry: Geometry { block: 65_536 },
    blocks: 1,
    page: Page::P16384,
};

/// Operations onto an image, and what they are to leave.
#[derive(Clone, Copy)]
struct Case {
    about: &'static str,
    flash: Flash,
    /// Whether the image has a file `/a` whose name was cut, and is empty else.
    goes_on: bool,
    /// Whether the operations are put by three calls.
    in_turn: bool,
    /// The operations, asked for at the times 1, 2 and so on.
    lines: &'static [&'static str],
    steps: &'static [Change],
    /// How many bytes put each step's node on the flash.
    whole: &'static [usize],
    /// How many bytes are put in all.
    len: usize,
}

const FILE: u32 = 0o100644;

const DIRECTORY: u32 = 0o040755;

/// The last byte is that of erased flash, and zeros fill the gap before it. A node whose last bytes
/// are those of erased flash is whole before they are written.
fn cut_files() -> &'static [Case] {
    &[
        Case {
            about: "a file that is cut and written past its end",
            flash: ONE,
            goes_on: false,
            in_turn: false,
            lines: &[
                "create /a 644",
                "text /a 0 0123456789",
                "truncate /a 4",
                "erase /a 8 1",
            ],
            steps: &[
                Change::Make(FILE, 0, 1),
                Change::Name(b"a", 2),
                Change::Put(0, 0, b"0123456789", 2),
                Change::Cut(0, 4, 3),
                Change::Zero(0, 8, 4),
                Change::Put(0, 8, b"\xFF", 4),
            ],
            whole: &[80, 121, 202, 272, 340, 408],
            len: 412,
        },
        Case {
            about: "a file that ends in erased bytes",
            flash: ONE,
            goes_on: false,
            in_turn: false,
            lines: &["create /a 644", "erase /a 0 3"],
            steps: &[
                Change::Make(FILE, 0, 1),
                Change::Name(b"a", 2),
                Change::Put(0, 0, b"\xFF\xFF\xFF", 2),
            ],
            whole: &[80, 121, 192],
            len: 196,
        },
    ]
}

/// Both names are there once the new one is whole. A node of the root stands between two of its
/// names.
fn directories() -> &'static [Case] {
    &[
        Case {
            about: "a directory that is renamed",
            flash: ONE,
            goes_on: false,
            in_turn: false,
            lines: &["mkdir /d 755", "rename /d /e"],
            steps: &[
                Change::Make(DIRECTORY, 0, 1),
                Change::Name(b"d", 2),
                Change::Name(b"e", 2),
                Change::Clear(b"d"),
            ],
            whole: &[80, 121, 165, 209],
            len: 212,
        },
        Case {
            about: "a root with names",
            flash: ONE,
            goes_on: false,
            in_turn: false,
            lines: &["mkdir /d 755", "attr / 711", "mkdir /e 755"],
            steps: &[
                Change::Make(DIRECTORY, 0, 1),
                Change::Name(b"d", 2),
                Change::Root(0o711, 2),
                Change::Make(DIRECTORY, 0, 3),
                Change::Name(b"e", 3),
            ],
            whole: &[80, 121, 192, 260, 301],
            len: 304,
        },
    ]
}

/// Its name stands for the whole old file up to the node that sets it, and for the whole new one
/// from there on.
fn replaced() -> &'static [Case] {
    &[Case {
        about: "a file that is replaced",
        flash: ONE,
        goes_on: false,
        in_turn: false,
        lines: &[
            "create /a 644",
            "text /a 0 0123456789",
            "create /b 644",
            "text /b 0 12",
            "replace /b /a",
        ],
        steps: &[
            Change::Make(FILE, 0, 1),
            Change::Name(b"a", 2),
            Change::Put(0, 0, b"0123456789", 2),
            Change::Make(FILE, 0, 3),
            Change::Name(b"b", 3),
            Change::Put(1, 0, b"12", 4),
            Change::Name(b"a", 3),
            Change::Clear(b"b"),
        ],
        whole: &[80, 121, 202, 272, 313, 386, 429, 473],
        len: 476,
    }]
}

/// No name stands for a part of the bytes.
fn whole_files() -> &'static [Case] {
    &[Case {
        about: "files with bytes that are there whole or not at all",
        flash: ONE,
        goes_on: false,
        in_turn: false,
        lines: &[
            "create /a 644",
            "file /b 644 4100",
            "replace /b /a",
            "file /e 644 0",
        ],
        steps: &[
            Change::Make(FILE, 0, 1),
            Change::Name(b"a", 2),
            Change::Make(FILE, 4096, 2),
            Change::Fill(1, 4096, 4, 2),
            Change::Name(b"b", 3),
            Change::Name(b"a", 3),
            Change::Clear(b"b"),
            Change::Make(FILE, 0, 4),
            Change::Name(b"e", 4),
        ],
        whole: &[80, 121, 4288, 4360, 4401, 4445, 4489, 4560, 4601],
        len: 4604,
    }]
}

/// The root's first inode node, and one of a file, which keeps its bytes.
fn attributes() -> &'static [Case] {
    &[
        Case {
            about: "a root that gets attributes",
            flash: ONE,
            goes_on: false,
            in_turn: false,
            lines: &["attr / 700"],
            steps: &[Change::Root(0o700, 1)],
            whole: &[80],
            len: 80,
        },
        Case {
            about: "a file that gets attributes",
            flash: ONE,
            goes_on: false,
            in_turn: false,
            lines: &["create /a 644", "text /a 0 0123456789", "attr /a 700"],
            steps: &[
                Change::Make(FILE, 0, 1),
                Change::Name(b"a", 2),
                Change::Put(0, 0, b"0123456789", 2),
                Change::Attributes(0, 0o700, 3),
            ],
            whole: &[80, 121, 202, 272],
            len: 272,
        },
    ]
}

/// Writing goes on in the next block. Where a later call stops, what the earlier ones put stands.
fn going_on() -> &'static [Case] {
    &[
        Case {
            about: "a base that was cut",
            flash: TWO,
            goes_on: true,
            in_turn: false,
            lines: &["create /b 644"],
            steps: &[Change::Make(FILE, 0, 1), Change::Name(b"b", 3)],
            whole: &[80, 121],
            len: 124,
        },
        Case {
            about: "a session of three calls",
            flash: TWO,
            goes_on: true,
            in_turn: true,
            lines: &[
                "create /b 644",
                "text /b 0 0123456789",
                "truncate /b 4",
                "erase /b 8 1",
                "mkdir /d 755",
            ],
            steps: &[
                Change::Make(FILE, 0, 1),
                Change::Name(b"b", 3),
                Change::Put(1, 0, b"0123456789", 2),
                Change::Cut(1, 4, 3),
                Change::Zero(1, 8, 4),
                Change::Put(1, 8, b"\xFF", 4),
                Change::Make(DIRECTORY, 0, 5),
                Change::Name(b"d", 4),
            ],
            whole: &[80, 121, 202, 272, 340, 408, 480, 521],
            len: 524,
        },
    ]
}

/// Two nodes of data, each in its block: some 100,000 mounts, which take a second as LLVM builds them
/// and many minutes by `rt try`. By pages of 16,384, the second write lies in two pages.
fn in_parts() -> &'static [Case] {
    &[
        Case {
            about: "a file over two blocks",
            flash: TWO,
            goes_on: false,
            in_turn: false,
            lines: &["create /a 644", "write /a 0 8192"],
            steps: &[
                Change::Make(FILE, 0, 1),
                Change::Name(b"a", 2),
                Change::Fill(0, 0, 4096, 2),
                Change::Fill(0, 4096, 4096, 2),
            ],
            whole: &[80, 121, 4288, 12368],
            len: 12368,
        },
        Case {
            about: "a file by pages of 16384",
            flash: LARGEST,
            goes_on: false,
            in_turn: false,
            lines: &[
                "create /a 644",
                "write /a 0 16384",
                "text /a 16380 12345678",
            ],
            steps: &[
                Change::Make(FILE, 0, 1),
                Change::Name(b"a", 2),
                Change::Fill(0, 0, 16_384, 2),
                Change::Put(0, 16_380, b"1234", 3),
                Change::Put(0, 16_384, b"5678", 3),
            ],
            whole: &[80, 121, 16_576, 16_648, 16_720],
            len: 16_720,
        },
    ]
}

/// The first piece is two nodes, since its length would spell the magic; the second write lies in
/// two pages. A new file has the same pieces.
fn by_pages() -> &'static [Case] {
    &[Case {
        about: "a file by pages of 8192",
        flash: LARGE,
        goes_on: false,
        in_turn: false,
        lines: &[
            "create /a 644",
            "write /a 0 6465",
            "write /a 8000 500",
            "file /b 644 6465",
        ],
        steps: &[
            Change::Make(FILE, 0, 1),
            Change::Name(b"a", 2),
            Change::Fill(0, 0, 4096, 2),
            Change::Fill(0, 4096, 2369, 2),
            Change::Zero(0, 8000, 3),
            Change::Fill(0, 8000, 192, 3),
            Change::Fill(0, 8192, 308, 3),
            Change::Make(FILE, 4096, 4),
            Change::Fill(1, 4096, 2369, 4),
            Change::Name(b"b", 3),
        ],
        whole: &[
            80, 121, 4288, 6725, 6796, 7056, 7432, 11_596, 14_033, 14_077,
        ],
        len: 14_080,
    }]
}

/// An object of each kind that has no bytes to write. A device's node has its number, of two bytes
/// or four, which no reader gets as its content, and a symlink's its target.
fn kinds() -> &'static [Case] {
    &[
        Case {
            about: "devices and a symlink",
            flash: ONE,
            goes_on: false,
            in_turn: false,
            lines: &["char /a 620 4:65", "block /b 660 259:7", "symlink /e ../t"],
            steps: &[
                Change::Device(0o020620, 4, 65, 1),
                Change::Name(b"a", 2),
                Change::Device(0o060660, 259, 7, 2),
                Change::Name(b"b", 3),
                Change::Link(b"../t", 3),
                Change::Name(b"e", 4),
            ],
            whole: &[82, 125, 200, 241, 316, 357],
            len: 360,
        },
        Case {
            about: "a FIFO and a socket",
            flash: ONE,
            goes_on: false,
            in_turn: false,
            lines: &["fifo /b 622", "socket /d 755"],
            steps: &[
                Change::Make(0o010622, 0, 1),
                Change::Name(b"b", 2),
                Change::Make(0o140755, 0, 2),
                Change::Name(b"d", 3),
            ],
            whole: &[80, 121, 192, 233],
            len: 236,
        },
    ]
}

/// Names that come and go. An object stays that has no name.
fn names() -> &'static [Case] {
    &[Case {
        about: "names of files that are linked, removed and replaced",
        flash: ONE,
        goes_on: false,
        in_turn: false,
        lines: &[
            "create /a 644",
            "link /a /b",
            "remove /a",
            "file /d 600 20",
            "replace /d /b",
            "remove /b",
        ],
        steps: &[
            Change::Make(FILE, 0, 1),
            Change::Name(b"a", 2),
            Change::Name(b"b", 2),
            Change::Clear(b"a"),
            Change::Make(0o100600, 20, 4),
            Change::Name(b"d", 3),
            Change::Name(b"b", 3),
            Change::Clear(b"d"),
            Change::Clear(b"b"),
        ],
        whole: &[80, 121, 165, 209, 300, 341, 385, 429, 473],
        len: 476,
    }]
}

/// A file that is longer than a page of 4,096 bytes, and takes the name of another. By larger pages
/// it is one node.
fn by_each_page() -> &'static [Case] {
    const IN_TWO: Case = Case {
        about: "a file of two pages that replaces another",
        flash: ONE,
        goes_on: false,
        in_turn: false,
        lines: &["file /a 644 3", "file /b 600 5001", "replace /b /a"],
        steps: &[
            Change::Make(FILE, 3, 1),
            Change::Name(b"a", 2),
            Change::Make(0o100600, 4096, 2),
            Change::Fill(1, 4096, 905, 2),
            Change::Name(b"b", 3),
            Change::Name(b"a", 3),
            Change::Clear(b"b"),
        ],
        whole: &[83, 125, 4292, 5265, 5309, 5353, 5397],
        len: 5400,
    };
    const IN_ONE: Case = Case {
        about: "a file of one page that replaces another",
        flash: LARGE,
        steps: &[
            Change::Make(FILE, 3, 1),
            Change::Name(b"a", 2),
            Change::Make(0o100600, 5001, 2),
            Change::Name(b"b", 3),
            Change::Name(b"a", 3),
            Change::Clear(b"b"),
        ],
        whole: &[83, 125, 5197, 5241, 5285, 5329],
        len: 5332,
        ..IN_TWO
    };
    &[
        IN_TWO,
        IN_ONE,
        Case {
            flash: LARGEST,
            ..IN_ONE
        },
    ]
}

/// The operations of lines, asked for at the times 1, 2 and so on.
fn ops_in_time(alloc: Global, lines: &[&'static str]) -> Result<Vec<Op<'static>>, Fail> {
    let mut ops = Vec::new(alloc);
    let mut time = 0u32;
    for line in lines {
        time = time.wrapping_add(1);
        ops.push(op_of(line, By { time, ..BY }).ok_or("no operation")?)?;
    }
    Ok(ops)
}

/// What a file puts that has no bytes.
fn run_file<E: Order>(alloc: Global) -> Result<Outcome, Fail> {
    let ops = ops_of(alloc, &["create /a 644"], BY)?;
    run_paged::<E>(alloc, &[], ONE, &ops)
}

/// The image that a case goes on from: nothing, or that of a file, without the last bytes of its
/// name's node.
fn base_of<E: Order>(alloc: Global, case: &Case) -> Result<Vec<u8>, Fail> {
    if !case.goes_on {
        return Ok(Vec::new(alloc));
    }
    let mut base = run_file::<E>(alloc)?.output;
    base.truncate(100);
    Ok(base)
}

/// Where writing begins.
fn start_of(case: &Case) -> usize {
    if case.goes_on { 8192 } else { 0 }
}

fn log_of(alloc: Global, case: &Case, base: &[u8], run: Outcome) -> Result<Log, Fail> {
    if run.report.accepted != case.lines.len() {
        return Err(Fail::from("an operation was refused"));
    }
    let from = start_of(case);
    let mut bytes = Vec::new(alloc);
    bytes.extend_from_slice(base)?;
    bytes.resize(from, 0xFF)?;
    bytes.extend_from_slice(&run.output)?;
    let block = case.flash.geometry.block as usize;
    Ok(Log {
        bytes,
        from,
        block,
        flash: (case.flash.blocks as usize).saturating_mul(block),
        places: run.report.places,
    })
}

/// Takes so many of the steps.
fn take_steps(alloc: Global, state: &mut Plain, case: &Case, count: usize) -> Result<(), Fail> {
    if case.goes_on {
        state.take(alloc, &Change::Make(FILE, 0, 0))?;
    }
    for change in case.steps.iter().take(count) {
        state.take(alloc, change)?;
    }
    Ok(())
}

/// Adds the plain file systems after none of the steps, after one, and so on.
fn push_states(alloc: Global, states: &mut Vec<Plain>, case: &Case) -> Result<(), Fail> {
    for count in 0..case.steps.len() + 1 {
        let mut state = Plain::new(alloc);
        take_steps(alloc, &mut state, case, count)?;
        states.push(state)?;
    }
    Ok(())
}

/// Which pairs of lengths are tried of the markers of blocks that were not written past them: all
/// inside the first marker and after every 61st byte, and one in turn after the others. 13 pairs
/// have the same length of the second.
fn marker_lens(blocks: u32, k: usize) -> (usize, usize) {
    if k <= 12 || k % 61 == 0 {
        (0, if blocks == 1 { 13 } else { 169 })
    } else {
        (k, k.saturating_add(1))
    }
}

/// Whether an image mounts as a plain file system.
fn shows<E: Order>(alloc: Global, image: &[u8], geometry: Geometry, state: &Plain) -> bool {
    let mut room = [0u8; 20_000];
    match mount::<E>(alloc, image, geometry) {
        Ok(mounted) => state.is_shown(&mounted, &mut room),
        Err(_) => false,
    }
}

/// Whether what is left after so many bytes mounts as the steps whose nodes are whole say, with
/// each pair of lengths of the markers.
fn is_right<E: Order>(
    alloc: Global,
    case: &Case,
    log: &Log,
    states: &[Plain],
    k: usize,
    image: &mut Vec<u8>,
) -> bool {
    let count = case.whole.iter().filter(|whole| **whole <= k).count();
    let Some(state) = states.get(count) else {
        return false;
    };
    let end = log.from.saturating_add(k);
    let (first, last) = marker_lens(case.flash.blocks, k);
    for pair in first..last {
        let left = log.leave::<E>(image, end, (pair % 13, pair / 13 % 13));
        if left.is_none()
            || log.count_whole(image) != count
            || !shows::<E>(alloc, image, case.flash.geometry, state)
        {
            return false;
        }
    }
    true
}

/// The first number of bytes after which an image mounts otherwise.
fn first_wrong<E: Order>(alloc: Global, case: &Case, log: &Log, states: &[Plain]) -> Option<usize> {
    let mut image = Vec::new(alloc);
    let count = log.bytes.len().saturating_sub(log.from);
    (0..count + 1).find(|k| !is_right::<E>(alloc, case, log, states, *k, &mut image))
}

/// Whether each image that is left of a log mounts as it is to.
fn mounts_as_told<E: Order>(alloc: Global, case: &Case, log: &Log) -> Result<bool, Fail> {
    let mut states = Vec::new(alloc);
    push_states(alloc, &mut states, case)?;
    Ok(first_wrong::<E>(alloc, case, log, &states).is_none())
}

/// What a case puts onto its base.
fn run_case<E: Order>(alloc: Global, case: &Case, base: &[u8]) -> Result<Outcome, Fail> {
    let ops = ops_in_time(alloc, case.lines)?;
    if case.in_turn {
        run_in_turn::<E>(alloc, base, case.flash, &ops)
    } else {
        run_paged::<E>(alloc, base, case.flash, &ops)
    }
}

/// Whether each image that is left mounts as it is to, in an order.
fn survives<E: Order>(alloc: Global, case: &Case) -> Result<bool, Fail> {
    let base = base_of::<E>(alloc, case)?;
    let run = run_case::<E>(alloc, case, &base)?;
    let is_long = run.output.len() == case.len;
    let log = log_of(alloc, case, &base, run)?;
    Ok(is_long && mounts_as_told::<E>(alloc, case, &log)?)
}

/// The same by pages of 4,096, 8,192 and 16,384, where no node is longer than a page.
fn all_survive_by_each_page(rt: &impl Abort, alloc: Global, cases: &[Case]) -> Result<(), Fail> {
    for flash in [ONE, LARGE, LARGEST] {
        for case in cases {
            all_survive(rt, alloc, &[Case { flash, ..*case }])?;
        }
    }
    Ok(())
}

fn all_survive(rt: &impl Abort, alloc: Global, cases: &[Case]) -> Result<(), Fail> {
    for case in cases {
        let little = survives::<LittleEndian>(alloc, case)?;
        let big = survives::<BigEndian>(alloc, case)?;
        expect_at(rt, little && big, case.about);
    }
    Ok(())
}

#[test]
fn what_is_left_after_each_byte(rt: HostRuntime) -> Result<(), Fail> {
    for cases in [
        cut_files(),
        directories(),
        replaced(),
        whole_files(),
        attributes(),
        going_on(),
        in_parts(),
        by_pages(),
        by_each_page(),
    ] {
        all_survive(&rt, rt.alloc(), cases)?;
    }
    Ok(())
}

#[test]
fn what_is_left_of_each_kind(rt: HostRuntime) -> Result<(), Fail> {
    for cases in [kinds(), names()] {
        all_survive_by_each_page(&rt, rt.alloc(), cases)?;
    }
    Ok(())
}

/// What a file puts whose bytes have the checksum of as many erased ones.
fn run_weak(alloc: Global) -> Result<Outcome, Fail> {
    let ops = [
        Op::Create {
            time: 0,
            path: Text::lent(b"/a"),
            mode: 0o644,
            uid: 0,
            gid: 0,
        },
        Op::Write {
            time: 0,
            path: Text::lent(b"/a"),
            offset: 0,
            bytes: Text::lent(b"\xBE\xF9\x8E\x24\xFE"),
        },
    ];
    run_paged::<LittleEndian>(alloc, &[], ONE, &ops)
}

const DAMAGED: Finding = Finding {
    addr: 124,
    kind: FindingKind::Damaged(Damage::DataCrc),
};

/// Whether an image mounts with these bytes of the file, and with its node damaged or nothing.
fn has_bytes(alloc: Global, image: &[u8], bytes: &[u8], is_damaged: bool) -> Result<bool, Fail> {
    let mounted = mount::<LittleEndian>(alloc, image, GEOMETRY)?;
    let findings: &[Finding] = if is_damaged { &[DAMAGED] } else { &[] };
    let mut room = [0u8; 8];
    let count = mounted.read_at(2, 0, &mut room);
    Ok(room.get(..count) == Some(bytes) && mounted.findings() == findings)
}

/// How many bytes are left, and with which bytes the file mounts, damaged or not.
fn weak_cuts() -> &'static [(usize, &'static [u8], bool)] {
    &[
        (192, b"\xFF\xFF\xFF\xFF\xFF", false),
        (193, b"", true),
        (196, b"", true),
        (197, b"\xBE\xF9\x8E\x24\xFE", false),
    ]
}

/// Why nodes must have no weak cut: five erased bytes have the checksum of these five, so they
/// mount as the data.
#[test]
fn a_weak_cut(rt: HostRuntime) -> Result<(), Fail> {
    let output = run_weak(rt.alloc())?.output;
    for &(k, bytes, is_damaged) in weak_cuts() {
        let image = output.get(..k).unwrap_or(&[]);
        expect_at(&rt, has_bytes(rt.alloc(), image, bytes, is_damaged)?, k);
    }
    Ok(())
}
