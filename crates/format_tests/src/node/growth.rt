//! A growth that is refused appends nothing.

use crate::checks::{expect, expect_at};
use crate::node::nodes::{compressed_of_5, entry_of, new_file, start_of};
use crate::node::vectors::{compressed_5, entry_a, inode_2, little_marker, padding_16};
use byteorder::LittleEndian;
use jnode::{WriteFault, write_compressed, write_entry, write_inode, write_marker, write_padding};

/// What is written.
#[derive(Clone, Copy, Debug)]
enum What {
    Marker,
    Inode,
    Entry,
    Padding,
    Compressed,
}

fn write(out: &mut Vec<u8>, what: What) -> Result<(), WriteFault> {
    match what {
        What::Marker => write_marker::<LittleEndian>(out),
        What::Inode => write_inode::<LittleEndian>(out, &new_file()),
        What::Entry => write_entry::<LittleEndian>(out, &entry_of(1, b"a")),
        What::Padding => write_padding::<LittleEndian>(out, 16),
        What::Compressed => write_compressed::<LittleEndian>(out, &compressed_of_5()),
    }
}

/// Passes with each allocation failing in turn too: memory is then blamed, nothing was appended,
/// and the same write succeeds.
#[test]
fn refused_writes_append_nothing(rt: HostRuntime) {
    let entry = entry_a();
    for (what, want) in [
        (What::Marker, little_marker()),
        (What::Inode, inode_2()),
        (What::Entry, entry.get(..41).unwrap_or(&[])),
        (What::Padding, padding_16()),
        (What::Compressed, start_of(compressed_5(), 73)),
    ] {
        let mut out = Vec::new(rt.alloc());
        let first = write(&mut out, what);
        if first.is_err() {
            expect(&rt, matches!(first, Err(WriteFault::OutOfMemory)));
            expect(&rt, out.is_empty());
            expect(&rt, write(&mut out, what).is_ok());
        }
        expect_at(&rt, out.as_slice() == want, what);
    }
}
