//! Whether there is room for forms in a row of openings.

ghost use Rattle.std.specs.Prelude.{◌≡◌, IsTrue};
ghost use Rattle.std.specs.List.{AllByRecursion};
ghost use Rattle.jlog.specs.Places.{is_writable_flash};
ghost use Rattle.jlog.specs.Running.{CanWriteIn};
ghost use Rattle.jsteps.specs.Nodes.{nodes_of};
ghost use Rattle.jrests.specs.Shares.{fit_in};
ghost use Rattle.jpacked.specs.Forms.{AreMadeOf, step_forms};
ghost use Rattle.jopenings.specs.Stretches.{AreStretches};
ghost use Rattle.jupdate.specs.Rows.{IsOpen, ends_of, left_at};

use crate::row::{Cursor, behind, find};
use jlog::Blocks;
use jnode::Order;
use jopenings::Stretch;
use jpacked::{Stream, form_len};
use jsteps::{Index, Step};

/// Whether the forms of steps fit what is left of a row of openings.
pub(crate) fn has_room<E: Order>(
    _index: &Index,
    flash: Blocks,
    stretches: &[Stretch],
    cursor: Cursor,
    steps: &[Step<'_>],
    streams: &[Stream],
) -> bool
    requires flash { IsTrue (is_writable_flash flash.size flash.count) }
    requires stretches { AreStretches flash.size 0 flash.count stretches.now }
    requires openings { AllByRecursion (IsOpen flash.size flash.count)
        (left_at (ends_of stretches.now) cursor) }
    requires steps { CanWriteIn flash.size E.order _index.now steps.now }
    requires made { AreMadeOf E.order (nodes_of _index.now steps.now) streams.now }
    ensures { result ≡ fit_in flash.size (left_at (ends_of stretches.now) cursor)
        (step_forms E.order _index.now steps.now streams.now) }
{
    let mut next = cursor;
    let mut i = 0;
    while i < steps.len() {
        let len = form_len(&steps[i], streams[i].as_slice()) as u32;
        match find(flash, stretches, next, len) {
            Some(spot) => next = behind(spot, len),
            None => return false,
        }
        i += 1;
    }
    true
}
