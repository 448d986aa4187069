//! Operations onto compressed bases, and their steps on a plain file system.

use crate::packed::cases::{Case, EMPTY, FILE, OTHER, SMALL};
use jlog::Flash;
use jscan::{Geometry, Page};
use test_operations::Change;

/// A block of 16,384 bytes, by pages of 8,192.
const LARGE: Flash = Flash {
    geometry: Geometry { block: 16_384 },
    blocks: 1,
    page: Page::P8192,
};

/// A block of 32,768 bytes, by pages of 16,384.
const LARGEST: Flash = Flash {
    geometry: Geometry { block: 32_768 },
    blocks: 1,
    page: Page::P16384,
};

/// A file of two pages.
const PAGES: &[&str] = &["file /a 644 5001"];

const AFTER_PAGES: &[Change] = &[
    Change::Make(FILE, 4096, 1),
    Change::Fill(0, 4096, 905, 1),
    Change::Name(b"a", 2),
];

/// Names that change, and bytes.
pub fn names() -> &'static [Case<'static>] {
    &[
        Case {
            about: "a compressed file replaces another, and goes",
            base: &["file /a 644 300", "file /b 600 5001"],
            before: &[
                Change::Make(FILE, 300, 1),
                Change::Name(b"a", 2),
                Change::Make(OTHER, 4096, 2),
                Change::Fill(1, 4096, 905, 2),
                Change::Name(b"b", 3),
            ],
            lines: &["replace /b /a", "write /a 4000 200", "remove /a"],
            steps: &[
                Change::Name(b"a", 3),
                Change::Clear(b"b"),
                Change::Fill(1, 4000, 96, 2),
                Change::Fill(1, 4096, 104, 2),
                Change::Clear(b"a"),
            ],
            most: 360,
            ..EMPTY
        },
        Case {
            about: "a compressed file is removed if it is there, and put anew",
            base: PAGES,
            before: AFTER_PAGES,
            lines: &[
                "attr /a 700",
                "remove-if /a",
                "remove-if /a",
                "put /a 600 5001",
            ],
            steps: &[
                Change::Attributes(0, 0o700, 1),
                Change::Clear(b"a"),
                Change::Make(OTHER, 4096, 4),
                Change::Fill(1, 4096, 905, 4),
                Change::Name(b"a", 3),
            ],
            most: 400,
            ..EMPTY
        },
    ]
}

/// Bytes that change, by each page.
pub fn bytes() -> &'static [Case<'static>] {
    &[
        Case {
            about: "a compressed file is cut to nothing, and grows",
            flash: SMALL,
            base: PAGES,
            before: AFTER_PAGES,
            lines: &[
                "truncate /a 0",
                "write /a 2000 500",
                "truncate /a 2200",
                "text /a 2190 abcdefghijklmnopqrstuvwxyz",
            ],
            steps: &[
                Change::Cut(0, 0, 1),
                Change::Zero(0, 2000, 2),
                Change::Fill(0, 2000, 500, 2),
                Change::Cut(0, 2200, 3),
                Change::Put(0, 2190, b"abcdefghijklmnopqrstuvwxyz", 4),
            ],
            most: 500,
            ..EMPTY
        },
        Case {
            about: "compressed pages of 8192",
            flash: LARGE,
            base: &["file /a 644 12000"],
            before: &[
                Change::Make(FILE, 8192, 1),
                Change::Fill(0, 8192, 3808, 1),
                Change::Name(b"a", 2),
            ],
            lines: &["write /a 8000 500", "truncate /a 100", "put /b 600 9000"],
            steps: &[
                Change::Fill(0, 8000, 192, 1),
                Change::Fill(0, 8192, 308, 1),
                Change::Cut(0, 100, 2),
                Change::Make(OTHER, 8192, 3),
                Change::Fill(1, 8192, 808, 3),
                Change::Name(b"b", 3),
            ],
            most: 560,
            ..EMPTY
        },
        Case {
            about: "compressed pages of 16384",
            flash: LARGEST,
            base: &["file /a 644 16384", "file /b 600 300"],
            before: &[
                Change::Make(FILE, 16_384, 1),
                Change::Name(b"a", 2),
                Change::Make(OTHER, 300, 2),
                Change::Name(b"b", 3),
            ],
            lines: &[
                "text /a 16380 12345678",
                "replace /b /a",
                "write /a 0 16384",
            ],
            steps: &[
                Change::Put(0, 16_380, b"1234", 1),
                Change::Put(0, 16_384, b"5678", 1),
                Change::Name(b"a", 3),
                Change::Clear(b"b"),
                Change::Fill(1, 0, 16_384, 3),
            ],
            most: 440,
            ..EMPTY
        },
    ]
}

/// Nodes in their own forms that do not fit into one block: the last two go to the next of the row.
pub fn in_two_blocks() -> &'static [Case<'static>] {
    &[Case {
        about: "a log in two blank blocks",
        base: &["file /b 600 300"],
        before: &[Change::Make(OTHER, 300, 1), Change::Name(b"b", 2)],
        lines: &[
            "create /a 644",
            "write /a 0 4096",
            "write /a 4096 4096",
            "truncate /a 100",
        ],
        steps: &[
            Change::Make(FILE, 0, 1),
            Change::Name(b"a", 3),
            Change::Fill(1, 0, 4096, 2),
            Change::Fill(1, 4096, 4096, 3),
            Change::Cut(1, 100, 4),
        ],
        most: 1000,
        ..EMPTY
    }]
}
