//! Operations onto a base with the files `/a` and `/b`, and their steps on a plain file system.

use crate::grounds::{BEFORE, FILE, FLASH, OTHER};
use jlog::Flash;
use jscan::{Geometry, Page};
use jsteps::Op;
use std::alloc::{AllocError, Global};
use std::test::Fail;
use test_operations::{By, Change, Plain, ops_of};

/// When operations onto a base are asked for.
const SECOND: By = By {
    time: 2,
    uid: 0,
    gid: 0,
};

/// Blocks of 16,384 bytes, by pages of 8,192.
const LARGE: Flash = Flash {
    geometry: Geometry { block: 16_384 },
    page: Page::P8192,
    ..FLASH
};

/// Blocks of 32,768 bytes, by pages of 16,384.
const LARGEST: Flash = Flash {
    geometry: Geometry { block: 32_768 },
    page: Page::P16384,
    ..FLASH
};

/// Operations and their steps.
#[derive(Clone, Copy)]
pub struct Case {
    pub about: &'static str,
    pub flash: Flash,
    pub lines: &'static [&'static str],
    pub steps: &'static [Change],
}

/// Files that are made, and put in the place of others.
const FILES: Case = Case {
    about: "files that are made and put",
    flash: FLASH,
    lines: &["file /d 644 200", "put /a 600 150", "put /e 644 10"],
    steps: &[
        Change::Make(FILE, 200, 2),
        Change::Name(b"d", 4),
        Change::Make(OTHER, 150, 2),
        Change::Name(b"a", 5),
        Change::Make(FILE, 10, 2),
        Change::Name(b"e", 6),
    ],
};

/// Names that come, change and go.
const NAMES: Case = Case {
    about: "names that come, change and go",
    flash: FLASH,
    lines: &[
        "link /b /d",
        "rename /d /e",
        "replace /a /b",
        "remove-if /e",
        "remove-if /e",
        "remove /b",
    ],
    steps: &[
        Change::Name(b"d", 3),
        Change::Name(b"e", 3),
        Change::Clear(b"d"),
        Change::Name(b"b", 2),
        Change::Clear(b"a"),
        Change::Clear(b"e"),
        Change::Clear(b"b"),
    ],
};

/// Bytes over bytes, and a file that is cut and grows.
const BYTES: Case = Case {
    about: "writes over writes, and a file that is cut and grows",
    flash: FLASH,
    lines: &[
        "write /a 100 150",
        "text /a 120 abcabcabcabcabcabcabcabcabcabcabcabcabc",
        "truncate /b 40",
        "write /b 60 30",
        "erase /b 50 16",
    ],
    steps: &[
        Change::Fill(0, 100, 150, 2),
        Change::Put(0, 120, b"abcabcabcabcabcabcabcabcabcabcabcabcabc", 2),
        Change::Cut(1, 40, 2),
        Change::Zero(1, 60, 2),
        Change::Fill(1, 60, 30, 2),
        Change::Put(1, 50, &[0xFF; 16], 2),
    ],
};

/// Attributes, and what is never packed.
const OTHERS: Case = Case {
    about: "attributes, a device, a symlink and bytes that do not get shorter",
    flash: FLASH,
    lines: &[
        "attr /a 700",
        "char /d 620 4:65",
        "symlink /e a",
        "attr / 711",
        "text /b 7 0123456789",
    ],
    steps: &[
        Change::Attributes(0, 0o700, 2),
        Change::Device(0o020620, 4, 65, 2),
        Change::Name(b"d", 4),
        Change::Link(b"a", 2),
        Change::Name(b"e", 5),
        Change::Root(0o711, 2),
        Change::Put(1, 7, b"0123456789", 2),
    ],
};

/// Short ones, whose nodes fit into one opening.
pub const SMALL: &[Case] = &[FILES, NAMES, BYTES, OTHERS];

/// Files of several pages, that are packed.
pub const PAGES: &[Case] = &[
    Case {
        about: "pages of 4096",
        flash: FLASH,
        lines: &["write /a 250 4000", "file /d 644 5001"],
        steps: &[
            Change::Fill(0, 250, 3846, 2),
            Change::Fill(0, 4096, 154, 2),
            Change::Make(FILE, 4096, 2),
            Change::Fill(2, 4096, 905, 2),
            Change::Name(b"d", 4),
        ],
    },
    Case {
        about: "pages of 8192",
        flash: LARGE,
        lines: &["write /a 250 9000", "truncate /a 8200"],
        steps: &[
            Change::Fill(0, 250, 7942, 2),
            Change::Fill(0, 8192, 1058, 2),
            Change::Cut(0, 8200, 2),
        ],
    },
    Case {
        about: "pages of 16384",
        flash: LARGEST,
        lines: &["write /b 300 16384", "text /b 16380 12345678"],
        steps: &[
            Change::Fill(1, 300, 16_084, 2),
            Change::Fill(1, 16_384, 300, 2),
            Change::Put(1, 16_380, b"1234", 2),
            Change::Put(1, 16_384, b"5678", 2),
        ],
    },
];

/// Nodes in their own forms, each of which goes to another opening, and one that goes behind the
/// last of them.
pub const LONG: &[Case] = &[Case {
    about: "nodes that cross no block",
    flash: FLASH,
    lines: &["write /a 0 8192", "truncate /a 10"],
    steps: &[
        Change::Fill(0, 0, 4096, 2),
        Change::Fill(0, 4096, 4096, 2),
        Change::Cut(0, 10, 2),
    ],
}];

impl Case {
    pub fn ops(&self, alloc: Global) -> Result<Vec<Op<'static>>, Fail> {
        ops_by(alloc, self.lines)
    }

    /// The plain file systems on a base after none of the steps, after one, and so on.
    pub fn states(&self, alloc: Global) -> Result<Vec<Plain>, AllocError> {
        let mut states = Vec::new(alloc);
        for count in 0..self.steps.len() + 1 {
            let steps = self.steps.get(..count).unwrap_or(&[]);
            states.push(plain_after(alloc, steps)?)?;
        }
        Ok(states)
    }
}

/// The operations of lines onto a base.
pub fn ops_by(alloc: Global, lines: &[&'static str]) -> Result<Vec<Op<'static>>, Fail> {
    let ops = ops_of(alloc, lines, SECOND)?;
    if ops.len() == lines.len() {
        Ok(ops)
    } else {
        Err(Fail::from("no operation"))
    }
}

/// The plain file system of a base, after some steps.
fn plain_after(alloc: Global, steps: &[Change]) -> Result<Plain, AllocError> {
    let mut state = Plain::new(alloc);
    for change in BEFORE {
        state.take(alloc, change)?;
    }
    for change in steps {
        state.take(alloc, change)?;
    }
    Ok(state)
}
