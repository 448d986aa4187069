//! Reading a source behind bytes that are there.

ghost use Rattle.std.specs.Prelude.{◌≡◌, ◌<◌, IfOk, OnOk, length, vec_len};
ghost use Rattle.flashbase.specs.Device.{CountsLoad};
ghost use Rattle.jbuild.specs.HostFiles.{ReadsBehind, ReadsMore};

use flashbase::{LoadFault, Source};
use std::alloc::{AllocError, Global};

/// How many bytes a source is asked for at once.
const PIECE: usize = 65_536;

fn zeros(alloc: Global) -> Result<Vec<u8>, AllocError>
    ensures { IfOk result (λ zeros. vec_len zeros ≡ 65536) }
{
    vec![in alloc; 0u8; PIECE]
}

/// Makes the piece that sources are read through, unless it is made.
pub(crate) fn ready(alloc: Global, piece: &mut Vec<u8>) -> Result<(), AllocError>
    ensures { OnOk result (0 < vec_len piece.new) }
{
    if piece.is_empty() {
        *piece = zeros(alloc)?;
    }
    Ok(())
}

/// Reads all that the source has left behind these bytes, if it is at most `limit`. At a fault some
/// of it stands there.
fn read_more<S: Source>(
    bytes: &mut Vec<u8>,
    source: &mut S,
    piece: &mut [u8],
    limit: usize,
) -> Result<(), LoadFault>
    requires { 0 < length piece.old }
    ensures reads { ReadsMore (S.rest source.old) limit bytes.old.items bytes.new.items result }
    ensures count { CountsLoad (S.failures source.old) (S.failures source.new) result }
{
    let from = bytes.len();
    loop {
        let n = source.fill(piece)?;
        if n == 0 {
            return Ok(());
        }
        if limit - (bytes.len() - from) < n {
            return Err(LoadFault::TooLarge);
        }
        bytes.extend_from_slice(&piece[..n])?;
    }
}

/// The same. At a fault the bytes are as they were.
pub(crate) fn read_behind<S: Source>(
    bytes: &mut Vec<u8>,
    source: &mut S,
    piece: &mut [u8],
    limit: usize,
) -> Result<(), LoadFault>
    requires { 0 < length piece.old }
    ensures reads { ReadsBehind (S.rest source.old) limit bytes.old.items bytes.new.items result }
    ensures count { CountsLoad (S.failures source.old) (S.failures source.new) result }
{
    let from = bytes.len();
    let read = read_more(bytes, source, piece, limit);
    if read.is_err() {
        bytes.truncate(from);
    }
    read
}
