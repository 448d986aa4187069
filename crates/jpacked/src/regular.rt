//! The data of steps that may be packed.

ghost use Rattle.std.specs.Prelude.{◌≡◌, ◌==◌, IsTrue, IfSome};
ghost use Rattle.jmount.specs.Tree.{type_bits, regular_bits};
ghost use Rattle.jsteps.specs.Nodes.{advanced_all, node_of};
ghost use Rattle.jpacked.specs.Forms.{IsFileAt, IsOfFile};

use flashbase::Part;
use jsteps::{Index, Step};

/// Whether a mode is that of a regular file.
fn is_regular(mode: u32) -> bool
    ensures { result ≡ (type_bits mode == regular_bits) }
{
    mode / 4096 % 16 == 8
}

/// Whether a number is that of a regular file after these steps, of which only the first may make
/// an object.
fn is_file(index: &Index, before: &[Step<'_>], ino: u32) -> bool
    ensures { IsTrue result → IsFileAt (advanced_all index.now before.now) ino }
{
    if u64::from(ino) < index.next() {
        return match index.object(ino) {
            Some(object) => is_regular(object.mode),
            None => false,
        };
    }
    match before.first() {
        Some(Step::MakeObject { mode, .. }) => {
            u64::from(ino) == index.next() && is_regular(*mode)
        }
        _ => false,
    }
}

/// The data of a step's node, if they may be packed: those of a regular file.
pub(crate) fn packable<'s, 'a>(
    index: &Index,
    before: &[Step<'_>],
    step: &'s Step<'a>,
) -> Option<&'s Part<'a>>
    ensures { IfSome result
        (λ part. IsOfFile (node_of (advanced_all index.now before.now) step.now) part.now) }
{
    match step {
        Step::MakeObject { mode, target, .. } => {
            if is_regular(*mode) {
                Some(target)
            } else {
                None
            }
        }
        Step::Put { ino, bytes, .. } => {
            if is_file(index, before, *ino) {
                Some(bytes)
            } else {
                None
            }
        }
        _ => None,
    }
}
