//! Answers into memory of the caller.

ghost use Rattle.std.specs.Prelude.{◌≡◌, ◌≤◌, ◌++◌, drop, length};
ghost use Rattle.jcalls.specs.Made.{Gives};

use crate::rows::Entry;
use crate::told::{OK, SMALL};

/// Gives bytes to the front of memory that has room for them.
pub(crate) fn give_bytes(bytes: &[u8], out: &mut [u8])
    requires { length bytes.now ≤ length out.old }
    ensures { out.new ≡ bytes.now ++ drop (length bytes.now) out.old }
{
    let (front, _) = out.split_at_mut(bytes.len());
    front.copy_from_slice(bytes);
}

/// Gives rows to the front of memory that has room for them.
pub(crate) fn give_rows(rows: &[Entry], out: &mut [Entry])
    requires { length rows.now ≤ length out.old }
    ensures { out.new ≡ rows.now ++ drop (length rows.now) out.old }
{
    let (front, _) = out.split_at_mut(rows.len());
    front.copy_from_slice(rows);
}

/// Gives bytes to the caller, if there is room for all of them; how many there are is told in any
/// case.
pub(crate) fn give_all(bytes: &[u8], out: &mut [u8], needed: &mut usize) -> u32
    ensures gives { Gives bytes.now out.old out.new needed.new result }
{
    *needed = bytes.len();
    if out.len() < bytes.len() {
        return SMALL;
    }
    give_bytes(bytes, out);
    OK
}
