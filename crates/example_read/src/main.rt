//! Prints a file of an image: `example_read IMAGE PATH`.
//!
//! It reads the image into memory, mounts it, looks the path up, and puts the file's bytes to
//! standard output. Blocks are of 8,192 bytes, numbers in little order.
#![tactic(auto)]

use anyhow::{Context, Result, bail};
use jffs2::{
    FromReader, FromWriter, GREATEST_IMAGE, Geometry, Kind, LittleEndian, Sink, load, mount,
};
use std::alloc::Global;
use std::{env, fs};

const GEOMETRY: Geometry = Geometry { block: 8192 };

/// Puts the bytes of the regular file that a path names.
fn print_file<T: Sink>(alloc: Global, image: &[u8], path: &str, sink: &mut T) -> Result<()> {
    let mounted = mount::<LittleEndian>(alloc, image, GEOMETRY)?;
    let ino = mounted.find(path.as_bytes()).context("the path")?;
    match mounted.object(ino) {
        Some(object) if object.kind == Kind::Regular => Ok(mounted.put_bytes(ino, sink)?),
        _ => bail!("the path leads to no regular file"),
    }
}

fn main(rt: HostRuntime) -> Result<()> {
    let words: Vec<String> = env::args(&rt)?.collect(rt.alloc())?;
    let (Some(name), Some(path)) = (words.get(1), words.get(2)) else {
        bail!("usage: example_read IMAGE PATH");
    };
    let mut source = FromReader::new(fs::open(&rt, name.as_str()).context("the image")?);
    let image = load(rt.alloc(), &mut source, GREATEST_IMAGE)?;
    print_file(
        rt.alloc(),
        &image,
        path.as_str(),
        &mut FromWriter::new(rt.stdout()),
    )
}
