//! Writes files into an image in memory, cuts it as a power failure would, and mounts what is left.
//! Then the same with an image whose data are compressed as they are written, which is mounted as it
//! is.
//!
//! For each length it prints the names of the file system that is left, and the sizes of their
//! files. The end of an image that is missing counts as erased flash.
#![tactic(auto)]

use anyhow::{Context, Result};
use jffs2::{
    Flash, FromWriter, Geometry, HostFiles, LittleEndian, Mounted, NodeForms, PackingSession, Page,
    Session, listing, mount, mount_through, operations,
};
use std::alloc::Global;

const GEOMETRY: Geometry = Geometry { block: 8192 };

/// One such block.
const FLASH: Flash = Flash {
    geometry: GEOMETRY,
    blocks: 1,
    page: Page::P4096,
};

/// Two files, each an empty one that is written then.
const LISTING: &[u8] =
    b"create 0644 /one\nwrite /one 0 66697273740a\ncreate 0644 /two\nwrite /two 0 7365636f6e640a\n";

/// A file of 40 bytes that are equal, so that they can be compressed.
const EVEN: &[u8] = b"create 0644 /even\nwrite /even 0 \
    61616161616161616161616161616161616161616161616161616161616161616161616161616161\n";

/// The bytes of an image of one block with the files of a listing.
fn build(alloc: Global, text: &[u8]) -> Result<Vec<u8>> {
    let parts = HostFiles::new(alloc);
    let ops = operations::<LittleEndian>(alloc, listing(alloc, text)?, &parts)?;
    let empty = mount::<LittleEndian>(alloc, &[], GEOMETRY)?;
    let sink = FromWriter::new(Vec::new(alloc));
    let mut session = Session::<LittleEndian, _>::resume(alloc, &empty, GEOMETRY, 1, sink)?;
    for op in &ops {
        session.apply(alloc, op)?;
    }
    Ok(session.finish().into_writer())
}

/// The same, with data compressed where that is shorter.
fn build_packed(alloc: Global, text: &[u8]) -> Result<Vec<u8>> {
    let parts = HostFiles::new(alloc);
    let ops = operations::<LittleEndian>(alloc, listing(alloc, text)?, &parts)?;
    let mut contents = Vec::new(alloc);
    let empty = mount_through::<LittleEndian>(alloc, &[], GEOMETRY, &mut contents)?;
    let sink = FromWriter::new(Vec::new(alloc));
    let mut session = match PackingSession::<LittleEndian, _>::resume(
        alloc,
        &empty,
        FLASH,
        NodeForms::Packed,
        sink,
    ) {
        Ok(session) => session,
        Err((fault, _)) => return Err(fault.into()),
    };
    for op in &ops {
        session.apply(alloc, op)?;
    }
    Ok(session.finish().into_writer())
}

/// Prints the names of an image, each with the size of its file.
fn print_names(rt: &impl Print, mounted: &Mounted<'_>) -> Result<()> {
    for (_, name, ino) in mounted.names() {
        let name = str::from_utf8(name).context("a name that is no text")?;
        if let Some(object) = mounted.object(ino) {
            println!(rt; "  {name} {}", object.size)?;
        }
    }
    Ok(())
}

/// Prints what is left of an image after the first bytes of it.
fn print_cut(rt: &impl Print, alloc: Global, image: &[u8], length: usize) -> Result<()> {
    println!(rt; "{length} bytes")?;
    let left = image.get(..length).context("a longer image")?;
    print_names(rt, &mount::<LittleEndian>(alloc, left, GEOMETRY)?)
}

/// The same of an image with compressed data.
fn print_packed(rt: &impl Print, alloc: Global, image: &[u8], length: usize) -> Result<()> {
    println!(rt; "{length} bytes, compressed")?;
    let left = image.get(..length).context("a longer image")?;
    let mut contents = Vec::new(alloc);
    print_names(
        rt,
        &mount_through::<LittleEndian>(alloc, left, GEOMETRY, &mut contents)?,
    )
}

fn main(rt: HostRuntime) -> Result<()> {
    let image = build(rt.alloc(), LISTING)?;
    // All of it; then cuts inside the write of the second file, the write of the first, and its
    // name.
    for length in [image.len(), 330, 150, 100] {
        print_cut(&rt, rt.alloc(), &image, length)?;
    }
    // The same file as it is, and compressed; then a cut inside its compressed bytes.
    let plain = build(rt.alloc(), EVEN)?;
    print_cut(&rt, rt.alloc(), &plain, plain.len())?;
    let even = build_packed(rt.alloc(), EVEN)?;
    for length in [even.len(), even.len().saturating_sub(5)] {
        print_packed(&rt, rt.alloc(), &even, length)?;
    }
    Ok(())
}
