//! What files begin as.

use crate::checks::{equal, expect_at};
use flashbase::FromWriter;
use jinfo::{Container, container_of, put_container_note};
use std::alloc::Global;

/// A file's first bytes, what it begins as, and the note on it.
const FILES: [(&[u8], Option<Container>, &str); 11] = [
    (
        b"\x1f\x8b\x08\x00",
        Some(Container::Gzip),
        "jffs2_image: note: the file begins as gzip does\n",
    ),
    (
        b"\xfd7zXZ\x00\x00\x04",
        Some(Container::Xz),
        "jffs2_image: note: the file begins as xz does\n",
    ),
    (
        b"UBI#\x01",
        Some(Container::Ubi),
        "jffs2_image: note: the file begins as UBI does\n",
    ),
    (
        b"hsqs",
        Some(Container::Squashfs),
        "jffs2_image: note: the file begins as squashfs does\n",
    ),
    (
        b"HDR0\x00",
        Some(Container::Trx),
        "jffs2_image: note: the file begins as a TRX header does\n",
    ),
    (
        b"\x27\x05\x19\x56\x00",
        Some(Container::UImage),
        "jffs2_image: note: the file begins as a uImage header does\n",
    ),
    (b"", None, ""),
    (b"\x1f", None, ""),
    (b"\xfd7zXZ", None, ""),
    (b"#IBU", None, ""),
    (b"\x85\x19\x03\x20", None, ""),
];

/// The note on what a file begins as.
fn note(alloc: Global, container: Option<Container>) -> Option<Vec<u8>> {
    let mut sink = FromWriter::new(Vec::new(alloc));
    put_container_note(container, &mut sink).ok()?;
    Some(sink.into_writer())
}

#[test]
fn files_of_other_kinds_are_known(rt: HostRuntime) {
    for (file, container, text) in FILES {
        equal(&rt, container_of(file), container);
        let is_noted = match note(rt.alloc(), container) {
            Some(bytes) => bytes.as_slice() == text.as_bytes(),
            None => false,
        };
        expect_at(&rt, is_noted, text);
    }
}
