//! Images with openings: two begun blocks among blank ones, and blocks that are never gone on in.

ghost use Rattle.jview.specs.Through.{IsMountThroughOf};

use jlog::Flash;
use jmount::Mounted;
use jnode::Order;
use jpacked::{NodeForms, PackingSession};
use jscan::{Geometry, Page};
use jsteps::Op;
use jthrough::mount_through;
use std::alloc::{AllocError, Global};
use test_operations::{By, Change, ops_of};
use test_support::Taker;

pub const FILE: u32 = 0o100644;

pub const OTHER: u32 = 0o100600;

/// Five blocks of 8,192 bytes, by pages of 4,096.
pub const FLASH: Flash = Flash {
    geometry: Geometry { block: 8192 },
    blocks: 5,
    page: Page::P4096,
};

/// Bytes of a marker.
const MARKER: usize = 12;

/// When the bases are made.
const FIRST: By = By {
    time: 1,
    uid: 0,
    gid: 0,
};

/// What is written to the one begun block, and to the other.
const LINES: [&str; 2] = ["file /a 644 300", "file /b 600 500"];

/// The steps of both.
pub const BEFORE: &[Change] = &[
    Change::Make(FILE, 300, 1),
    Change::Name(b"a", 2),
    Change::Make(OTHER, 500, 1),
    Change::Name(b"b", 3),
];

/// What keeps a block from being gone on in, behind a marker.
#[derive(Clone, Copy, Debug, PartialEq, Eq)]
pub enum Spoil {
    /// Zeros, that are no node.
    Dirt,
    /// The beginning of an entry.
    Torn,
    /// An entry with another name than its checksum is of.
    Damaged,
}

/// Which two blocks of a flash of so many are begun, and which are spoiled. All others are blank.
#[derive(Clone, Copy, Debug)]
pub struct Ground {
    pub begun: (u32, u32),
    pub spoiled: &'static [(u32, Spoil)],
    pub blocks: u32,
}

/// Blank blocks before, between and behind the begun ones.
pub const AROUND: Ground = Ground {
    begun: (1, 3),
    spoiled: &[],
    blocks: 5,
};

/// A blank block in the middle and one at the end, and three blocks that are never gone on in.
pub const SPOILED: Ground = Ground {
    begun: (0, 4),
    spoiled: &[(1, Spoil::Torn), (3, Spoil::Damaged), (5, Spoil::Dirt)],
    blocks: 7,
};

/// How the two begun blocks begin, and where in the first one its last node begins.
#[derive(Drop)]
pub struct Fronts {
    pub first: Vec<u8>,
    pub second: Vec<u8>,
    entry: usize,
}

/// What a session puts for two operations, and where that of the second begins.
fn output_of<E: Order>(
    alloc: Global,
    mut session: PackingSession<E, Taker>,
    ops: &[Op<'_>],
) -> (Vec<u8>, usize, usize) {
    let (first, second) = ops.split_at(ops.len().min(1));
    let report = session.run(alloc, first);
    let entry = match report.places.last() {
        Some(place) => place.addr as usize,
        None => 0,
    };
    let end = session.cursor() as usize;
    let _ = session.run(alloc, second);
    (session.finish().bytes, end, entry)
}

fn output_on<E: Order>(
    alloc: Global,
    mounted: &Mounted<'_>,
    forms: NodeForms,
    ops: &[Op<'_>],
) -> Option<(Vec<u8>, usize, usize)>
    requires { IsMountThroughOf E.order 8192 mounted.now }
{
    let sink = Taker::new(alloc);
    match PackingSession::<E, Taker>::resume(alloc, mounted, FLASH, forms, sink) {
        Ok(session) => Some(output_of::<E>(alloc, session, ops)),
        Err(_) => None,
    }
}

/// The base written onto an empty flash.
fn base_in<E: Order>(alloc: Global, forms: NodeForms) -> Option<(Vec<u8>, usize, usize)> {
    let ops = ops_of(alloc, &LINES, FIRST).ok()?;
    let mut contents = Vec::new(alloc);
    let mounted = mount_through::<E>(alloc, &[], FLASH.geometry, &mut contents).ok()?;
    output_on::<E>(alloc, &mounted, forms, &ops)
}

/// A marker, and other bytes behind it.
fn marked(alloc: Global, marker: &[u8], behind: &[u8]) -> Result<Vec<u8>, AllocError> {
    let mut front = Vec::new(alloc);
    front.extend_from_slice(marker)?;
    front.extend_from_slice(behind)?;
    Ok(front)
}

/// How the begun blocks of a base in these forms begin; none where a growth is refused.
pub fn fronts_of<E: Order>(alloc: Global, forms: NodeForms) -> Option<Fronts> {
    let (output, end, entry) = base_in::<E>(alloc, forms)?;
    let (front, behind) = output.split_at_checked(end)?;
    let (marker, nodes) = front.split_at_checked(MARKER)?;
    Some(Fronts {
        first: marked(alloc, marker, nodes).ok()?,
        second: marked(alloc, marker, behind).ok()?,
        entry,
    })
}

impl Fronts {
    /// How a spoiled block begins.
    fn spoiled(&self, alloc: Global, spoil: Spoil) -> Result<Vec<u8>, AllocError> {
        let marker = self.first.get(..MARKER).unwrap_or(&[]);
        let entry = self.first.get(self.entry..).unwrap_or(&[]);
        match spoil {
            Spoil::Dirt => marked(alloc, marker, &[0; 4]),
            Spoil::Torn => marked(alloc, marker, entry.get(..20).unwrap_or(entry)),
            Spoil::Damaged => {
                let mut front = marked(alloc, marker, entry.get(..40).unwrap_or(entry))?;
                front.extend_from_slice(b"c")?;
                Ok(front)
            }
        }
    }
}

impl Ground {
    /// This flash with as many blocks as the ground has.
    pub fn flash(&self, flash: Flash) -> Flash {
        Flash {
            blocks: self.blocks,
            ..flash
        }
    }

    /// How a block begins.
    fn front(&self, alloc: Global, fronts: &Fronts, block: u32) -> Result<Vec<u8>, AllocError> {
        if block == self.begun.0 {
            return fronts.first.clone();
        }
        if block == self.begun.1 {
            return fronts.second.clone();
        }
        for (number, spoil) in self.spoiled {
            if *number == block {
                return fronts.spoiled(alloc, *spoil);
            }
        }
        Ok(Vec::new(alloc))
    }

    /// The image in blocks of this size, up to its last byte.
    pub fn image(&self, alloc: Global, fronts: &Fronts, size: u32) -> Result<Vec<u8>, AllocError> {
        let mut image = Vec::new(alloc);
        for block in 0..self.blocks {
            let front = self.front(alloc, fronts, block)?;
            if !front.is_empty() {
                image.resize((block as usize).wrapping_mul(size as usize), 0xFF)?;
                image.extend_from_slice(&front)?;
            }
        }
        Ok(image)
    }

    /// Where a block may be gone on in, if it may.
    pub fn opening(&self, fronts: &Fronts, block: u32) -> Option<u32> {
        if block == self.begun.0 {
            return u32::try_from(fronts.first.len()).ok();
        }
        if block == self.begun.1 {
            return u32::try_from(fronts.second.len()).ok();
        }
        if self.spoiled.iter().any(|(number, _)| *number == block) {
            None
        } else {
            Some(0)
        }
    }
}
