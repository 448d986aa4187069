//! What a block is: how many bytes of each kind it has, and the bar that shows them.

ghost use Rattle.std.specs.Prelude.{◌≡◌, ◌%◌, ◌+◌, ◌-◌, ◌*◌, ◌/◌, ◌^◌, ◌<◌, ◌≤◌, ◌++◌, AllPairs, length, replicate};
ghost use Rattle.jscan.specs.Extents.{extents};
ghost use Rattle.jmap.specs.ByteKinds.{byte_kinds, tally_of};
ghost use Rattle.jmap.specs.MapText.{bar_of, kind_mark};

use crate::kind::{ByteKind, byte_kind};
use crate::tally::Tally;
use flashbase::Part;
use jline::LineBuffer;
use jnode::Order;
use jscan::Extents;

/// How many characters a bar has.
const BAR: usize = 50;

/// Fills a bar up to so many characters with the one of a kind.
fn fill(bar: &mut LineBuffer, upto: usize, kind: ByteKind)
    requires upto { upto ≤ 50 }
    requires room { length bar.old ≤ 50 }
    ensures { bar.new ≡ bar.old ++ replicate (upto - length bar.old) (kind_mark kind) }
{
    let marks = [kind.mark(); BAR];
    let more = upto.saturating_sub(bar.as_slice().len());
    bar.push_text(&marks[..more]);
}

/// How many bytes of each kind a block has whose bytes begin at the address `start`, and its bar.
pub(crate) fn survey<E: Order>(start: u32, block: Part<'_>, kept: &[u32]) -> (Tally, LineBuffer)
    requires ascending { AllPairs (λ a b. a < b) kept.now }
    requires some { 0 < length block }
    requires whole_words { length block % 4 ≡ 0 }
    requires addressed { start + length block < 2 ^ 32 }
    ensures tally { result.0
        ≡ tally_of (byte_kinds kept.entry.now (extents E.order start block.entry)) }
    ensures bar { result.1 ≡ bar_of (length block.entry)
        (byte_kinds kept.entry.now (extents E.order start block.entry)) }
{
    let size = block.len();
    let mut tally = Tally::new();
    let mut bar = LineBuffer::new();
    let mut done = 0;
    for extent in Extents::<E>::of_part(start, block) {
        let kind = byte_kind(kept, &extent);
        tally.add(kind, extent.len);
        done += extent.len as usize;
        fill(&mut bar, BAR * done / size, kind);
    }
    (tally, bar)
}
