//! The data of a packed node.

ghost use Rattle.std.specs.Prelude.{◌≡◌, [], IfOk};

use std::alloc::{AllocError, Global};
use std::marker::Model;

/// Packed data of a step's node; none where the node goes out as it is.
#[derive(Drop)]
pub struct Stream {
    bytes: Vec<u8>,
}

impl Model for Stream {
    ghost use Rattle.std.specs.Prelude.{List, ℕ};

    ghost Value = { List ℕ };

    ghost view = { λ stream. stream.bytes.items };
}

impl Stream {
    /// None.
    pub(crate) fn none(alloc: Global) -> Stream
        ensures { result ≡ [] }
    {
        Stream {
            bytes: Vec::new(alloc),
        }
    }

    /// A copy of these.
    pub(crate) fn of(alloc: Global, bytes: &[u8]) -> Result<Stream, AllocError>
        ensures { IfOk result (λ stream. stream ≡ bytes.now) }
    {
        let mut copy = Vec::with_capacity(alloc, bytes.len())?;
        copy.extend_from_slice(bytes)?;
        Ok(Stream { bytes: copy })
    }

    /// The bytes.
    pub fn as_slice(&self) -> &[u8]
        ensures { result.now ≡ self.now }
    {
        &self.bytes
    }
}
