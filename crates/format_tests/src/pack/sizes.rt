//! The kind of block and the length of the streams of contents, beside those of zlib.

use crate::checks::{equal_at, expect_at};
use crate::pack::contents::{Kind, content};
use jpack::{Packer, compress};
use std::test::Fail;

/// The kinds of blocks.
#[derive(Clone, Copy, Debug, PartialEq, Eq)]
enum Block {
    Stored,
    Fixed,
    /// With codes of its own.
    Own,
}

/// The kind of the first block of a stream.
fn block_of(stream: &[u8]) -> Option<Block> {
    match stream.get(2)? / 2 % 4 {
        0 => Some(Block::Stored),
        1 => Some(Block::Fixed),
        2 => Some(Block::Own),
        _ => None,
    }
}

/// Contents, what zlib 1.2.13 makes of them at level 9, which is the kind of the first block and
/// the length, and by how many bytes our streams may be longer.
///
/// They may be so for one content alone. At level 9 zlib tries 4,096 places for a copy. At level 6
/// it tries 128, as `jpack` does, and has 6,231 bytes for that content, which is 111 more.
fn rows() -> &'static [(Kind, usize, Block, usize, usize)] {
    &[
        (Kind::Run, 0, Block::Fixed, 8, 0),
        (Kind::Run, 1, Block::Fixed, 9, 0),
        (Kind::Run, 2, Block::Fixed, 10, 0),
        (Kind::Run, 3, Block::Fixed, 11, 0),
        (Kind::Run, 4, Block::Fixed, 12, 0),
        (Kind::Run, 20, Block::Fixed, 11, 0),
        (Kind::Run, 258, Block::Fixed, 12, 0),
        (Kind::Run, 259, Block::Fixed, 12, 0),
        (Kind::Run, 300, Block::Fixed, 13, 0),
        (Kind::Run, 4_096, Block::Own, 28, 0),
        (Kind::Run, 32_768, Block::Own, 53, 0),
        (Kind::Words, 3, Block::Fixed, 11, 0),
        (Kind::Words, 11, Block::Fixed, 19, 0),
        (Kind::Words, 40, Block::Fixed, 38, 0),
        (Kind::Words, 90, Block::Own, 66, 0),
        (Kind::Words, 300, Block::Own, 122, 0),
        (Kind::Words, 1_000, Block::Own, 297, 0),
        (Kind::Words, 4_096, Block::Own, 936, 0),
        (Kind::Words, 32_768, Block::Own, 6_120, 111),
        (Kind::Letters, 50, Block::Fixed, 30, 0),
        (Kind::Letters, 300, Block::Own, 84, 0),
        (Kind::Letters, 4_096, Block::Own, 736, 0),
        (Kind::Letters, 32_768, Block::Own, 5_331, 0),
        (Kind::Random, 1, Block::Fixed, 9, 0),
        (Kind::Random, 5, Block::Fixed, 13, 0),
        (Kind::Random, 100, Block::Stored, 111, 0),
        (Kind::Random, 4_096, Block::Stored, 4_107, 0),
        (Kind::Random, 32_768, Block::Stored, 32_784, 0),
        (Kind::Far, 400, Block::Fixed, 336, 0),
        (Kind::Far, 3_496, Block::Fixed, 356, 0),
        (Kind::Far, 32_168, Block::Own, 439, 0),
    ]
}

/// The same kinds of blocks as zlib's, and streams that are no longer, but where the table says so.
#[test]
fn streams_as_short_as_those_of_zlib(rt: HostRuntime) -> Result<(), Fail> {
    let alloc = rt.alloc();
    let mut packer = Packer::new(alloc).map_err(|_| "no packer")?;
    for &(kind, count, block, length, more) in rows() {
        let bytes = content(alloc, kind, count)?;
        let answer = compress(alloc, &bytes, &mut packer).map_err(|_| "no memory")?;
        let stream = answer.ok_or("no stream")?;
        equal_at(&rt, block_of(stream), Some(block), (kind, count));
        expect_at(
            &rt,
            stream.len() <= length.saturating_add(more),
            (kind, count, stream.len()),
        );
    }
    Ok(())
}

/// There is an answer for 32 KiB, and none for a byte more.
#[test]
fn no_stream_of_more_than_32_kib(rt: HostRuntime) -> Result<(), Fail> {
    let alloc = rt.alloc();
    let mut packer = Packer::new(alloc).map_err(|_| "no packer")?;
    for (count, is_answered) in [(32_768, true), (32_769, false), (70_000, false), (5, true)] {
        let bytes = content(alloc, Kind::Run, count)?;
        let answer = compress(alloc, &bytes, &mut packer).map_err(|_| "no memory")?;
        equal_at(&rt, answer.is_some(), is_answered, count);
    }
    Ok(())
}
