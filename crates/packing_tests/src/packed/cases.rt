//! Operations onto an image, and their steps on a plain file system.

use jlog::Flash;
use jscan::{Geometry, Page};
use test_operations::Change;

/// Two blocks of 8,192 bytes, by pages of 4,096.
pub const SMALL: Flash = Flash {
    geometry: Geometry { block: 8192 },
    blocks: 2,
    page: Page::P4096,
};

/// A block of 65,536 bytes, by pages of 8,192.
const LARGE: Flash = Flash {
    geometry: Geometry { block: 65_536 },
    blocks: 1,
    page: Page::P8192,
};

/// The same by pages of 16,384.
const LARGEST: Flash = Flash {
    geometry: Geometry { block: 65_536 },
    blocks: 1,
    page: Page::P16384,
};

/// Operations that are asked for at the times 1, 2 and so on, and their steps.
#[derive(Clone, Copy)]
pub struct Case<'a> {
    pub about: &'static str,
    pub flash: Flash,
    /// Operations that were put before, by a session of their own, and their steps.
    pub base: &'static [&'static str],
    pub before: &'static [Change],
    pub lines: &'static [&'static str],
    pub steps: &'a [Change],
    /// How many bytes the output has at most. Where a node is packed they take more as they are.
    pub most: usize,
    pub is_packed: bool,
}

pub const FILE: u32 = 0o100644;

pub const OTHER: u32 = 0o100600;

pub const EMPTY: Case<'static> = Case {
    about: "",
    flash: SMALL,
    base: &[],
    before: &[],
    lines: &[],
    steps: &[],
    most: 0,
    is_packed: true,
};

/// Files of one page and of several.
pub fn files() -> &'static [Case<'static>] {
    &[
        Case {
            about: "a file of two pages",
            lines: &["file /a 644 5001"],
            steps: &[
                Change::Make(FILE, 4096, 1),
                Change::Fill(0, 4096, 905, 1),
                Change::Name(b"a", 2),
            ],
            most: 400,
            ..EMPTY
        },
        Case {
            about: "a file by pages of 8192",
            flash: LARGE,
            lines: &["create /a 644", "write /a 8000 500"],
            steps: &[
                Change::Make(FILE, 0, 1),
                Change::Name(b"a", 2),
                Change::Zero(0, 8000, 2),
                Change::Fill(0, 8000, 192, 2),
                Change::Fill(0, 8192, 308, 2),
            ],
            most: 500,
            ..EMPTY
        },
        Case {
            about: "a file by pages of 16384",
            flash: LARGEST,
            lines: &[
                "create /a 644",
                "write /a 0 16384",
                "text /a 16380 12345678",
            ],
            steps: &[
                Change::Make(FILE, 0, 1),
                Change::Name(b"a", 2),
                Change::Fill(0, 0, 16_384, 2),
                Change::Put(0, 16_380, b"1234", 3),
                Change::Put(0, 16_384, b"5678", 3),
            ],
            most: 600,
            ..EMPTY
        },
    ]
}

/// Bytes over bytes, and a file that is cut and grows.
pub fn changes() -> &'static [Case<'static>] {
    &[
        Case {
            about: "writes over writes",
            lines: &[
                "create /a 644",
                "write /a 0 300",
                "text /a 100 abcabcabcabcabcabcabcabcabcabcabcabcabcabcabcabcabcabcabcabc",
                "write /a 50 200",
            ],
            steps: &[
                Change::Make(FILE, 0, 1),
                Change::Name(b"a", 2),
                Change::Fill(0, 0, 300, 2),
                Change::Put(
                    0,
                    100,
                    b"abcabcabcabcabcabcabcabcabcabcabcabcabcabcabcabcabcabcabcabc",
                    3,
                ),
                Change::Fill(0, 50, 200, 4),
            ],
            most: 460,
            ..EMPTY
        },
        Case {
            about: "a file that is cut and grows",
            lines: &[
                "create /a 644",
                "write /a 0 3000",
                "truncate /a 1000",
                "write /a 2000 500",
            ],
            steps: &[
                Change::Make(FILE, 0, 1),
                Change::Name(b"a", 2),
                Change::Fill(0, 0, 3000, 2),
                Change::Cut(0, 1000, 3),
                Change::Zero(0, 2000, 4),
                Change::Fill(0, 2000, 500, 4),
            ],
            most: 500,
            ..EMPTY
        },
    ]
}

/// A file that takes the place of another, by two operations and by one.
pub fn replaced() -> &'static [Case<'static>] {
    &[
        Case {
            about: "a file that replaces another",
            lines: &["file /a 644 300", "file /b 600 5001", "replace /b /a"],
            steps: &[
                Change::Make(FILE, 300, 1),
                Change::Name(b"a", 2),
                Change::Make(OTHER, 4096, 2),
                Change::Fill(1, 4096, 905, 2),
                Change::Name(b"b", 3),
                Change::Name(b"a", 3),
                Change::Clear(b"b"),
            ],
            most: 700,
            ..EMPTY
        },
        Case {
            about: "a file that is put twice, and removed if it is there",
            lines: &[
                "put /a 644 300",
                "put /a 600 400",
                "remove-if /a",
                "remove-if /a",
            ],
            steps: &[
                Change::Make(FILE, 300, 1),
                Change::Name(b"a", 2),
                Change::Make(OTHER, 400, 2),
                Change::Name(b"a", 3),
                Change::Clear(b"a"),
            ],
            most: 400,
            ..EMPTY
        },
    ]
}

/// What is never packed: objects without bytes, a symlink's target, attributes, and bytes that do
/// not get shorter.
pub fn plain() -> &'static [Case<'static>] {
    &[
        Case {
            about: "a device, a symlink and attributes",
            lines: &[
                "char /a 620 4:65",
                "symlink /e ........................................",
                "file /b 644 300",
                "attr /b 700",
            ],
            steps: &[
                Change::Device(0o020620, 4, 65, 1),
                Change::Name(b"a", 2),
                Change::Link(b"........................................", 2),
                Change::Name(b"e", 3),
                Change::Make(FILE, 300, 3),
                Change::Name(b"b", 4),
                Change::Attributes(2, 0o700, 4),
            ],
            most: 560,
            ..EMPTY
        },
        Case {
            about: "bytes that do not get shorter",
            lines: &["create /a 644", "text /a 0 0123456789"],
            steps: &[
                Change::Make(FILE, 0, 1),
                Change::Name(b"a", 2),
                Change::Put(0, 0, b"0123456789", 2),
            ],
            most: 204,
            is_packed: false,
            ..EMPTY
        },
    ]
}

/// A base whose files are compressed: one is written over, one is cut, one is put anew.
pub fn bases() -> &'static [Case<'static>] {
    &[Case {
        about: "a compressed base",
        base: &["file /a 644 5001", "file /b 600 300"],
        before: &[
            Change::Make(FILE, 4096, 1),
            Change::Fill(0, 4096, 905, 1),
            Change::Name(b"a", 2),
            Change::Make(OTHER, 300, 2),
            Change::Name(b"b", 3),
        ],
        lines: &[
            "text /a 4000 abcdefgh",
            "truncate /b 100",
            "put /b 644 2000",
        ],
        steps: &[
            Change::Put(0, 4000, b"abcdefgh", 1),
            Change::Cut(1, 100, 2),
            Change::Make(FILE, 2000, 3),
            Change::Name(b"b", 4),
        ],
        most: 400,
        ..EMPTY
    }]
}
