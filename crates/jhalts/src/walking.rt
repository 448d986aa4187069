//! Walking through the openings of a row, along what went out to them.

ghost use Rattle.std.specs.Prelude.{◌≡◌, IfOk, OnOk, drop};
ghost use Rattle.jupdate.specs.Rows.{begins_of};
ghost use Rattle.jhalts.specs.InShares.{row_address};
ghost use Rattle.jhalts.specs.Walk.{AreTheirStandings, IsLeftBehind, IsRowOpen, SomePutIn, from_block, row_of_walk};

use flashbase::pad4;
use jcuts::{Standing, standings_in};
use jlog::{Blocks, Place};
use jnode::Order;
use jopenings::Stretch;
use std::alloc::{AllocError, Global};

/// Where a walk through a row of openings is.
#[derive(Clone, Copy)]
pub(crate) struct Walk {
    pub flash: Blocks,
    /// How many openings were passed.
    pub passed: usize,
    /// Where the next one goes on in its block.
    pub place: u32,
}

/// At the front of an opening; or at the end of the row.
pub(crate) fn at_opening(flash: Blocks, stretches: &[Stretch], passed: usize) -> Walk
    ensures row { row_of_walk stretches.now result ≡ drop passed (begins_of stretches.now) }
    ensures flash { result.flash ≡ flash }
    ensures passed { result.passed ≡ passed }
{
    match stretches.get(passed) {
        Some(stretch) => Walk {
            flash,
            passed,
            place: stretch.place,
        },
        None => Walk {
            flash,
            passed,
            place: 0,
        },
    }
}

/// In the opening of a block; or behind all of them.
fn reach(stretches: &[Stretch], walk: Walk, block: u32) -> Walk
    ensures row { row_of_walk stretches.now result
        ≡ from_block block (row_of_walk stretches.now walk) }
    ensures flash { result.flash ≡ walk.flash }
{
    let mut next = walk;
    while next.passed < stretches.len() {
        let here = stretches[next.passed].block;
        if here == block {
            return next;
        }
        next = at_opening(walk.flash, stretches, next.passed + 1);
    }
    next
}

/// The address where the row goes on.
pub(crate) fn address_of(stretches: &[Stretch], walk: Walk) -> u32
    requires { IsRowOpen walk.flash (row_of_walk stretches.now walk) }
    ensures { result ≡ row_address walk.flash.size (row_of_walk stretches.now walk) }
{
    match stretches.get(walk.passed) {
        Some(stretch) => stretch.block * walk.flash.size + walk.place,
        None => 0,
    }
}

/// From where on forms stand that went out to a row of openings, by their bytes and their places.
/// The walk goes on behind them.
pub(crate) fn standings_of<E: Order>(
    alloc: Global,
    stretches: &[Stretch],
    walk: &mut Walk,
    out: &[u8],
    places: &[Place],
) -> Result<Vec<Standing>, AllocError>
    requires { SomePutIn E.order walk.old.flash (row_of_walk stretches.now walk.old) out.now
        places.now }
    ensures told { IfOk result (λ told. AreTheirStandings E.order walk.old.flash
        (row_of_walk stretches.now walk.old) out.now places.now told.items) }
    ensures row { OnOk result (IsLeftBehind E.order walk.old.flash
        (row_of_walk stretches.now walk.old) out.now places.now
        (row_of_walk stretches.now walk.new)) }
    ensures flash { walk.new.flash ≡ walk.old.flash }
{
    let mut told = Vec::with_capacity(alloc, places.len())?;
    let mut start = 0;
    let mut i = 0;
    while i < places.len() {
        let place = places[i];
        let mut next = reach(stretches, *walk, place.addr / walk.flash.size);
        let from = address_of(stretches, next);
        let one = standings_in::<E>(alloc, &out[start..], from, &places[i..i + 1])?;
        told.push(one[0])?;
        let len = place.addr + pad4(place.totlen) as u32 - from;
        next.place += len;
        *walk = next;
        start += len as usize;
        i += 1;
    }
    Ok(told)
}
