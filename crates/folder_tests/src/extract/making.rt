//! What is made of images, as a record. What may fail while a mounted image lives is a call of its
//! own: each `?` proves anew that all that lives is dropped.

use crate::extract::images::{LARGE, image_of};
use crate::extract::recorder::Recorder;
use byteorder::LittleEndian;
use flashbase::FromWriter;
use jextract::{Totals, extract, extract_part, part_at};
use jmount::{Mounted, mount};
use std::alloc::Global;
use std::test::Fail;
use test_support::Node;

type Notes = FromWriter<Vec<u8>>;

/// What is made of an image.
#[derive(Drop)]
pub(crate) struct Made {
    pub(crate) lines: String,
    /// How many objects are left out, and how many lose bits.
    pub(crate) counted: (u64, u64),
    pub(crate) notes: Vec<u8>,
}

fn recorded(totals: Totals, folder: Recorder, notes: Notes) -> Made {
    Made {
        lines: folder.lines,
        counted: (totals.left_out, totals.lost_bits),
        notes: notes.into_writer(),
    }
}

/// What is made of a mounted image; nothing where that fails.
fn made_of(alloc: Global, mounted: &Mounted<'_>, owners: bool) -> Option<Made> {
    let mut folder = Recorder::new(alloc, u64::MAX, u64::MAX);
    let mut notes = Notes::new(Vec::new(alloc));
    match extract(alloc, mounted, owners, &mut folder, &mut notes) {
        Ok(totals) => Some(recorded(totals, folder, notes)),
        Err(_) => None,
    }
}

/// What is made of the part at a path; nothing where that fails.
fn made_of_part(alloc: Global, mounted: &Mounted<'_>, path: &[u8], owners: bool) -> Option<Made> {
    let part = part_at(alloc, mounted, path).ok()?;
    let mut folder = Recorder::new(alloc, u64::MAX, u64::MAX);
    let mut notes = Notes::new(Vec::new(alloc));
    match extract_part(alloc, mounted, &part, owners, &mut folder, &mut notes) {
        Ok(totals) => Some(recorded(totals, folder, notes)),
        Err(_) => None,
    }
}

fn made_in(alloc: Global, image: &[u8], path: Option<&[u8]>, owners: bool) -> Option<Made> {
    let mounted = mount::<LittleEndian>(alloc, image, LARGE).ok()?;
    match path {
        Some(path) => made_of_part(alloc, &mounted, path, owners),
        None => made_of(alloc, &mounted, owners),
    }
}

/// What is made of an image of these nodes, or of the part of it at a path.
pub(crate) fn extracted(
    alloc: Global,
    nodes: &[Node<'_>],
    path: Option<&[u8]>,
    owners: bool,
) -> Result<Made, Fail> {
    let image = image_of(alloc, nodes)?;
    Ok(made_in(alloc, &image, path, owners).ok_or("not made")?)
}
