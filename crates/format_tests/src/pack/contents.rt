//! Contents that are made by rule: tests/peers/packing.py makes the same ones.

use std::alloc::{AllocError, Global};

/// What a content is made of.
#[derive(Clone, Copy, Debug, PartialEq, Eq)]
pub(crate) enum Kind {
    /// One letter.
    Run,
    /// Two letters at random.
    Letters,
    /// Words at random.
    Words,
    /// Zeros, between 300 bytes at random and the same 300 bytes.
    Far,
    /// Bytes at random.
    Random,
}

const WORDS: [&[u8]; 15] = [
    b"the ",
    b"node ",
    b"of ",
    b"a ",
    b"block ",
    b"is ",
    b"read ",
    b"and ",
    b"its ",
    b"data ",
    b"are ",
    b"checked ",
    b"before ",
    b"each ",
    b"page ",
];

/// The number behind a number, and its highest byte.
fn next(number: u32) -> (u32, u8) {
    let number = number.wrapping_mul(1_664_525).wrapping_add(1_013_904_223);
    let [_, _, _, highest] = number.to_le_bytes();
    (number, highest)
}

/// So many bytes, each made of a number at random.
fn made_of(alloc: Global, count: usize, kind: Kind) -> Result<Vec<u8>, AllocError> {
    let mut bytes = Vec::with_capacity(alloc, count)?;
    let mut number = 1;
    for _ in 0..count {
        let (behind, random) = next(number);
        number = behind;
        bytes.push(match kind {
            Kind::Run => b'a',
            Kind::Letters if random < 128 => b'a',
            Kind::Letters => b'b',
            _ => random,
        })?;
    }
    Ok(bytes)
}

/// So many bytes of words.
fn words(alloc: Global, count: usize) -> Result<Vec<u8>, AllocError> {
    let mut bytes = Vec::new(alloc);
    let mut number = 1;
    for _ in 0..count {
        if bytes.len() < count {
            let (behind, random) = next(number);
            number = behind;
            bytes.extend_from_slice(WORDS[usize::from(random) % 15])?;
        }
    }
    bytes.truncate(count);
    Ok(bytes)
}

/// So many bytes of a kind; of `Far` 600 more.
pub(crate) fn content(alloc: Global, kind: Kind, count: usize) -> Result<Vec<u8>, AllocError> {
    match kind {
        Kind::Words => words(alloc, count),
        Kind::Far => {
            let ends = made_of(alloc, 300, Kind::Random)?;
            let mut bytes = ends.clone()?;
            bytes.resize(300usize.saturating_add(count), 0)?;
            bytes.extend_from_slice(&ends)?;
            Ok(bytes)
        }
        _ => made_of(alloc, count, kind),
    }
}
