//! The forms of the nodes of steps, chosen before a byte is put.

ghost use Rattle.std.specs.Prelude.{◌≡◌, ◌≤◌, ◌+◌, ℕ, false, [], ◌∷◌, length, is_some, IfOk};
ghost use Rattle.jscan.specs.Pages.{IsPage};
ghost use Rattle.jnode.specs.Writing.{totlen_most};
ghost use Rattle.jsteps.specs.Nodes.{advanced_all, node_of};
ghost use Rattle.jlog.specs.Running.{node_len, CanWriteAll};
ghost use Rattle.jview.specs.Through.{greatest_contents};
ghost use Rattle.jpacked.specs.Forms.{ArePacked, AreNoneUnless, IsChosen, content_chosen, form_len};

use crate::packing::{Packing, pack};
use crate::regular::packable;
use crate::stream::Stream;
use jlog::node_len;
use jnode::{INODE_LEN, Order};
use jsteps::{Index, Step};
use std::alloc::{AllocError, Global};

/// How many bytes the contents of the compressed nodes of an image have at most.
const GREATEST_CONTENTS: u32 = 1 << 30;

/// How many bytes the form of a step's node with packed data has; with none, the node's own form.
pub fn form_len(step: &Step<'_>, stream: &[u8]) -> usize
    requires step { node_len step.now ≤ totlen_most }
    requires stream { length stream.now ≤ totlen_most }
    ensures { result ≡ form_len step.now stream.now }
{
    if stream.is_empty() {
        node_len(step)
    } else {
        INODE_LEN + stream.len()
    }
}

/// How many bytes of content it has.
fn content_chosen(step: &Step<'_>, stream: &[u8]) -> usize
    requires step { node_len step.now ≤ totlen_most }
    ensures { result ≡ content_chosen step.now stream.now }
{
    if stream.is_empty() {
        0
    } else {
        node_len(step).saturating_sub(INODE_LEN)
    }
}

/// Packed data for the next step, with so much content held: none where they are not worth it, or
/// their content is too much.
fn choose(
    alloc: Global,
    index: &Index,
    before: &[Step<'_>],
    step: &Step<'_>,
    held: u32,
    packing: &mut Packing,
) -> Result<Stream, AllocError>
    requires { held ≤ greatest_contents }
    ensures { IfOk result
        (IsChosen (node_of (advanced_all index.now before.now) step.now) held) }
{
    let Some(part) = packable(index, before, step) else {
        return Ok(Stream::none(alloc));
    };
    if ((GREATEST_CONTENTS - held) as usize) < part.len() {
        return Ok(Stream::none(alloc));
    }
    match pack(alloc, part, packing)? {
        Some(stream) => Stream::of(alloc, stream),
        None => Ok(Stream::none(alloc)),
    }
}

/// What was chosen for steps.
#[derive(Drop)]
pub struct Chosen {
    /// Packed data, or none, of each, in their order.
    pub streams: Vec<Stream>,
    /// How many bytes of content are held with them.
    pub held: u32,
}

/// Packs the data of steps, with so much content held before.
fn choose_all<E: Order>(
    alloc: Global,
    index: &Index,
    steps: &[Step<'_>],
    held: u32,
    packing: &mut Packing,
) -> Result<Chosen, AllocError>
    requires steps { (page : ℕ) × IsPage page × CanWriteAll page E.order index.now steps.now }
    requires held { held ≤ greatest_contents }
    ensures { IfOk result (λ chosen.
        ArePacked E.order index.now steps.now held chosen.streams.items chosen.held) }
{
    let mut streams = Vec::with_capacity(alloc, steps.len())?;
    let mut sum = held;
    let mut i = 0;
    while i < steps.len() {
        let step = &steps[i];
        let stream = choose(alloc, index, &steps[..i], step, sum, packing)?;
        sum += content_chosen(step, stream.as_slice()) as u32;
        streams.push(stream)?;
        i += 1;
    }
    Ok(Chosen { streams, held: sum })
}

/// Chooses no packed data for steps.
fn choose_none<E: Order>(
    alloc: Global,
    _index: &Index,
    steps: &[Step<'_>],
    held: u32,
) -> Result<Chosen, AllocError>
    requires steps { (page : ℕ) × IsPage page × CanWriteAll page E.order _index.now steps.now }
    requires held { held ≤ greatest_contents }
    ensures chosen { IfOk result (λ chosen.
        ArePacked E.order _index.now steps.now held chosen.streams.items chosen.held) }
    ensures plain { IfOk result (λ chosen. AreNoneUnless false chosen.streams.items) }
{
    let mut streams = Vec::with_capacity(alloc, steps.len())?;
    let mut i = 0;
    while i < steps.len() {
        let stream = Stream::none(alloc);
        streams.push(stream)?;
        i += 1;
    }
    Ok(Chosen { streams, held })
}

/// What is chosen for steps, with so many bytes of content held before: by a session that packs,
/// packed data where they are worth it and their content is not too much; by one that does not,
/// none.
///
/// # Errors
/// Out of memory.
pub fn choose_by<E: Order>(
    alloc: Global,
    index: &Index,
    steps: &[Step<'_>],
    held: u32,
    packing: &mut Option<Packing>,
) -> Result<Chosen, AllocError>
    requires steps { (page : ℕ) × IsPage page × CanWriteAll page E.order index.now steps.now }
    requires held { held ≤ greatest_contents }
    ensures chosen { IfOk result (λ chosen.
        ArePacked E.order index.now steps.now held chosen.streams.items chosen.held) }
    ensures plain { IfOk result
        (λ chosen. AreNoneUnless (is_some packing.old) chosen.streams.items) }
    ensures packs { is_some packing.new ≡ is_some packing.old }
{
    match packing {
        Some(packing) => choose_all::<E>(alloc, index, steps, held, packing),
        None => choose_none::<E>(alloc, index, steps, held),
    }
}
