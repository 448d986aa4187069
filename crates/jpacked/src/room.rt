//! Whether there is room for forms.

ghost use Rattle.std.specs.Prelude.{◌≡◌, ◌≤◌, ◌*◌, ◌%◌, ℕ, IsTrue, length};
ghost use Rattle.jscan.specs.Pages.{IsPage};
ghost use Rattle.jsteps.specs.Planning.{most_steps};
ghost use Rattle.jlog.specs.Places.{is_writable_flash, fit, needed};
ghost use Rattle.jlog.specs.Running.{CanWriteAll, CanWriteIn};
ghost use Rattle.jsteps.specs.Nodes.{nodes_of};
ghost use Rattle.jpacked.specs.Forms.{AreMadeOf, step_forms};

use crate::planning::form_len;
use crate::stream::Stream;
use flashbase::pad4;
use jlog::{Blocks, place_of};
use jnode::Order;
use jsteps::{Index, Step};

/// Whether the forms of steps fit.
pub(crate) fn has_room<E: Order>(
    _index: &Index,
    flash: Blocks,
    cursor: u32,
    steps: &[Step<'_>],
    streams: &[Stream],
) -> bool
    requires flash { IsTrue (is_writable_flash flash.size flash.count) }
    requires within { cursor ≤ flash.count * flash.size }
    requires word { cursor % 4 ≡ 0 }
    requires steps { CanWriteIn flash.size E.order _index.now steps.now }
    requires made { AreMadeOf E.order (nodes_of _index.now steps.now) streams.now }
    ensures { result ≡ fit flash.size flash.count cursor
        (step_forms E.order _index.now steps.now streams.now) }
{
    let mut end = cursor;
    let mut i = 0;
    while i < steps.len() {
        let len = form_len(&steps[i], streams[i].as_slice()) as u32;
        match place_of(flash.size, flash.count, end, len) {
            Some(at) => end = at + pad4(len) as u32,
            None => return false,
        }
        i += 1;
    }
    true
}

/// The bytes that the forms of steps need, each up to a multiple of 4.
pub fn needed<E: Order>(_index: &Index, steps: &[Step<'_>], streams: &[Stream]) -> u64
    requires steps { (page : ℕ) × IsPage page × CanWriteAll page E.order _index.now steps.now }
    requires few { length steps.now ≤ most_steps }
    requires made { AreMadeOf E.order (nodes_of _index.now steps.now) streams.now }
    ensures { result ≡ needed (step_forms E.order _index.now steps.now streams.now) }
{
    let mut sum = 0;
    let mut i = 0;
    while i < steps.len() {
        sum += pad4(form_len(&steps[i], streams[i].as_slice()) as u32);
        i += 1;
    }
    sum
}
