//! What is left of objects.

ghost use Rattle.std.specs.Prelude.{◌≡◌, IfOk};
ghost use Rattle.jpast.specs.Pasts.{ArePastsOf, IsPastOf, NodesAt};
ghost use Rattle.jpast.specs.Spans.{HasSpans};

use crate::digest::content_of;
use crate::past::Past;
use crate::spans::{Spans, known, spans_of};
use jmount::Mounted;
use jnode::NodeRef;
use std::alloc::{AllocError, Global};
use std::collections::BTreeSet;

/// What is left of an object.
fn past_of(mounted: &Mounted<'_>, spans: &Spans, ino: u32) -> Past
    ensures past { (ns : NodesAt) → HasSpans ns spans.now → IsPastOf ns mounted.now.state result }
    ensures number { result.ino ≡ ino }
{
    Past {
        ino,
        span: known(spans, ino),
        content: content_of(mounted, ino),
    }
}

/// What is left of each of these objects, in the order of their numbers, where `nodes` are those of
/// the mounted image: the lowest and the highest version of its inode nodes, and, if it is a
/// regular file or a symlink, the size and the SHA-256 of its bytes. O(n log n) for n nodes, and
/// linear in all these bytes, also in those of holes. Takes memory for the versions of all objects,
/// and none for bytes.
///
/// # Errors
/// Out of memory: nothing is answered then.
pub fn pasts_of(
    alloc: Global,
    mounted: &Mounted<'_>,
    nodes: &[(u32, NodeRef<'_>)],
    numbers: &BTreeSet<u32>,
) -> Result<Vec<Past>, AllocError>
    ensures { IfOk result (λ pasts.
        ArePastsOf nodes.now mounted.now.state numbers.now pasts.items) }
{
    let spans = spans_of(alloc, nodes)?;
    let mut pasts = Vec::new(alloc);
    for ino in numbers {
        pasts.push(past_of(mounted, &spans, *ino))?;
    }
    Ok(pasts)
}
