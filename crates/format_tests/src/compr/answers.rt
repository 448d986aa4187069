//! What a call of `decompress` answers, and what it leaves behind bytes that were there before.

use crate::checks::expect;
use flashbase::crc;
use jcompr::{DataFault, Method, decompress};
use std::alloc::Global;
use std::process::Abort;

/// What stands in front of each content.
const BEFORE: &[u8] = &[0x2A, 0x3F];

/// The checksum of the content that data have, or `None` where they are refused. The content stands
/// behind what was there before, which stays as it was, and is all that is there where data are
/// refused.
pub(crate) fn answer(
    rt: &impl Abort,
    alloc: Global,
    method: Method,
    data: &[u8],
    size: usize,
) -> Result<Option<u32>, DataFault> {
    let mut out = BEFORE.to_vec(alloc)?;
    let done = decompress(alloc, method, data, size, &mut out);
    let (before, content) = out.split_at(2);
    expect(rt, before == BEFORE);
    match done {
        Ok(()) => {
            expect(rt, content.len() == size);
            Ok(Some(crc(content)))
        }
        Err(fault) => {
            expect(rt, content.is_empty());
            match fault {
                DataFault::Wrong => Ok(None),
                DataFault::OutOfMemory => Err(fault),
            }
        }
    }
}
