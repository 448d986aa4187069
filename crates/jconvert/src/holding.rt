//! What was decompressed while an image was judged, held up to a limit.

ghost use Rattle.std.specs.Prelude.{◌≡◌, ◌≤◌, ◌<◌, ◌+◌, ◌*◌, ◌++◌, ◌⊎◌, [], min, OnOk, OnErr, IsTrue, IsFalse, length, vec_len, vec_capacity, if◌then◌else◌};
ghost use Rattle.jconvert.specs.Holding.{HasNoRoom};

use std::alloc::AllocError;

/// The contents of the first tiles of an image, one after another.
#[derive(Drop)]
pub struct Held {
    pub bytes: Vec<u8>,
    /// Whether those of all tiles so far are held.
    pub is_whole: bool,
}

/// Makes room for so many bytes more. What there is doubles, up to `most`.
fn make_room(bytes: &mut Vec<u8>, count: usize, most: usize) -> Result<(), AllocError>
    requires { vec_len bytes.old + count ≤ most }
    ensures same { bytes.new.items ≡ bytes.old.items }
    ensures ok { OnOk result (vec_len bytes.new + count ≤ vec_capacity bytes.new) }
    ensures doubles { OnOk result (vec_capacity bytes.old < vec_len bytes.old + count
        → min (2 * vec_len bytes.old) most ≤ vec_capacity bytes.new) }
    ensures full { OnErr result (vec_capacity bytes.old < vec_len bytes.old + count) }
{
    let len = bytes.len();
    if bytes.capacity() - len < count {
        bytes.reserve_exact(count.max(len.min(most - len)))?;
    }
    Ok(())
}

/// Whether bytes were put at the end. They are not only where they pass the limit, or memory for
/// them is wanting.
fn is_taken(bytes: &mut Vec<u8>, content: &[u8], most: usize) -> bool
    requires { vec_len bytes.old ≤ most }
    ensures bytes { bytes.new.items
        ≡ (if result then bytes.old.items ++ content.now else bytes.old.items) }
    ensures few { vec_len bytes.new ≤ most }
    ensures full { IsFalse result → HasNoRoom most (vec_len bytes.old) (vec_capacity bytes.old)
        (length content.now) }
{
    if most - bytes.len() < content.len() {
        return false;
    }
    make_room(bytes, content.len(), most).is_ok() && bytes.extend_from_slice(content).is_ok()
}

impl Held {
    /// Holds the content of the next tile too, if those of all before it are held.
    pub(crate) fn hold(&mut self, content: &[u8], most: usize)
        requires { vec_len self.old.bytes ≤ most }
        ensures bytes { self.new.bytes.items
            ≡ self.old.bytes.items ++ (if self.new.is_whole then content.now else []) }
        ensures whole { IsTrue self.new.is_whole → IsTrue self.old.is_whole }
        ensures few { vec_len self.new.bytes ≤ most }
        ensures full { IsTrue self.old.is_whole → IsFalse self.new.is_whole → HasNoRoom most
            (vec_len self.old.bytes) (vec_capacity self.old.bytes) (length content.now) }
    {
        if self.is_whole {
            self.is_whole = is_taken(&mut self.bytes, content, most);
        }
    }
}
