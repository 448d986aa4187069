//! Sessions that put each node in its own form.

ghost use Rattle.jmount.specs.Mounts.{IsMountOf};

use crate::checks::{equal_at, expect};
use crate::packed::cases::{Case, bases, changes, files};
use crate::packed::cut_tests::{base_of, ops_in_time};
use crate::packed::sessions::run_in;
use byteorder::{BigEndian, LittleEndian};
use jlog::{Flash, RunReport, Session, SessionFault};
use jmount::{Mounted, mount};
use jnode::Order;
use jpacked::NodeForms;
use jsteps::Op;
use std::alloc::Global;
use std::test::Fail;
use test_support::Taker;

/// What a session of `jlog` reports and puts onto an empty flash.
fn put_on<E: Order>(
    alloc: Global,
    mounted: &Mounted<'_>,
    flash: Flash,
    ops: &[Op<'_>],
) -> Result<(RunReport, Vec<u8>), SessionFault>
    requires { IsMountOf E.order flash.geometry.block mounted.now }
{
    let Flash {
        geometry,
        blocks,
        page,
    } = flash;
    let sink = Taker::new(alloc);
    let mut session = Session::<E, _>::resume_paged(alloc, mounted, geometry, blocks, page, sink)?;
    let report = session.run(alloc, ops);
    Ok((report, session.finish().bytes))
}

/// Whether a session that does not pack puts what one of `jlog` puts, onto an empty flash.
fn is_as_ever<E: Order>(alloc: Global, case: &Case<'_>) -> Result<bool, Fail> {
    let ops = ops_in_time(alloc, case.lines)?;
    let mounted = mount::<E>(alloc, &[], case.flash.geometry)?;
    let (report, output) = put_on::<E>(alloc, &mounted, case.flash, &ops)?;
    let found = run_in::<E>(alloc, &[], case.flash, NodeForms::Own, &ops)?;
    Ok(
        found.report.accepted == report.accepted
            && found.report.places.as_slice() == report.places.as_slice()
            && found.output.as_slice() == output.as_slice(),
    )
}

#[test]
fn an_empty_flash_is_written_as_ever(rt: HostRuntime) -> Result<(), Fail> {
    for cases in [files(), changes()] {
        for case in cases {
            let little = is_as_ever::<LittleEndian>(rt.alloc(), case)?;
            let big = is_as_ever::<BigEndian>(rt.alloc(), case)?;
            expect(&rt, little && big);
        }
    }
    Ok(())
}

/// The lengths of the nodes that a session puts onto a compressed base: 8 bytes behind the fields of
/// an inode node, none, 2,000, and a name of one byte behind those of an entry.
#[test]
fn nodes_have_their_own_lengths(rt: HostRuntime) -> Result<(), Fail> {
    for case in bases() {
        let base = base_of::<LittleEndian>(rt.alloc(), case)?;
        let ops = ops_in_time(rt.alloc(), case.lines)?;
        let own = run_in::<LittleEndian>(rt.alloc(), &base, case.flash, NodeForms::Own, &ops)?;
        for (place, totlen) in own.report.places.iter().zip([76, 68, 2068, 41]) {
            equal_at(&rt, place.totlen, totlen, totlen);
        }
        let packed = run_in::<LittleEndian>(
            rt.alloc(),
            &base,
            case.flash,
            NodeForms::Packed,
            &ops,
        )?;
        let lens = packed.report.places.get(2).map(|place| place.totlen < 2068);
        equal_at(
            &rt,
            (own.report.places.len(), lens),
            (4, Some(true)),
            case.about,
        );
    }
    Ok(())
}
