//! Which nodes of an image matter, and whether a flash has room for them, before a file is made.
ghost use Rattle.std.specs.Prelude.{◌≡◌, IfOk, OnOk};
ghost use Rattle.jscan.specs.Scans.{IsScannable};
ghost use Rattle.jcollect.specs.Planning.{MayPut};
ghost use Rattle.jcollect.specs.declared.fault.CollectFault.{CollectFault};
ghost use Rattle.jedge.specs.Acts.{seen_as};
ghost use Rattle.jremakes.specs.Compacting.{IsCompactable, collect_refusal, compact_blocks, compact_plan};
ghost use Rattle.jremakes.specs.CompactingApart.{IsCompactableApart, apart_refusal, compact_apart_plan};

use jcollect::{CollectFault, Plan, PlanApart, ThroughFault, plan_apart, plan_through};
use jconvert::ConvertFault;
use jedge::fault::Fault;
use jedge::mounting::view_refusal;
use jedge::subject::conversion_refusal;
use jlog::SessionFault;
use jnode::Order;
use jreport::{Plan as Flash, ProgramFault, Reason, cause_of};
use jscan::{GREATEST_IMAGE, Geometry, Page};
use jthrough::{mount_view, view_image};
use std::alloc::Global;

/// As many blocks as are asked for, or as the greatest flash has.
pub(crate) fn compact_blocks(geometry: Geometry, blocks: Option<u32>) -> u32
    ensures { result ≡ compact_blocks geometry.block blocks }
{
    match blocks {
        Some(blocks) => blocks,
        None => match geometry.block {
            0 => 0,
            size => GREATEST_IMAGE as u32 / size,
        },
    }
}

/// Why no image goes out to a flash of so many blocks: it is not one that is written.
fn flash_refusal(geometry: Geometry, blocks: u32) -> ProgramFault<'static>
    ensures { result ≡ collect_refusal geometry.block blocks CollectFault.Geometry }
{
    let flash = Flash {
        geometry,
        blocks,
        page: Page::P4096,
        length: 0,
    };
    ProgramFault::Session {
        fault: SessionFault::Geometry,
        line: None,
        cause: cause_of(flash, SessionFault::Geometry, Reason::Other, None),
    }
}

/// Why the nodes of one that mounts do not go out to a flash of so many blocks.
fn collect_refusal(geometry: Geometry, blocks: u32, fault: CollectFault) -> ProgramFault<'static>
    ensures { result ≡ collect_refusal geometry.block blocks fault }
{
    match fault {
        CollectFault::Geometry => flash_refusal(geometry, blocks),
        CollectFault::ReadOnly => conversion_refusal(ConvertFault::ReadOnly),
        CollectFault::TooLong { addr } => conversion_refusal(ConvertFault::TooLong { addr }),
        CollectFault::Full { needed, free } => {
            conversion_refusal(ConvertFault::Full { needed, free })
        }
        CollectFault::Sink => conversion_refusal(ConvertFault::Sink),
        CollectFault::OutOfMemory => conversion_refusal(ConvertFault::OutOfMemory),
    }
}

/// Which nodes of an image go out to a flash of so many blocks.
pub(crate) fn plan<E: Order>(
    alloc: Global,
    image: &[u8],
    geometry: Geometry,
    blocks: u32,
) -> Result<Plan, Fault>
    ensures planned { IsCompactable E.order geometry.block blocks image.now
        (seen_as compact_plan result) }
    ensures scannable { OnOk result (IsScannable geometry.block image.now) }
    ensures may { IfOk result
        (λ plan. MayPut E.order geometry.block image.now plan.addresses.items) }
{
    let mut contents = Vec::new(alloc);
    let view = match view_image::<E>(alloc, image, geometry, &mut contents) {
        Ok(view) => view,
        Err(why) => return Err(Fault::Refused(view_refusal(why))),
    };
    let mounted = match mount_view::<E>(alloc, image, geometry, view, &contents) {
        Ok(mounted) => mounted,
        Err(why) => return Err(Fault::Refused(view_refusal(why))),
    };
    match plan_through::<E>(alloc, &mounted, geometry, &contents, blocks) {
        Ok(plan) => Ok(plan),
        Err(fault) => Err(Fault::Refused(collect_refusal(geometry, blocks, fault))),
    }
}

/// Why the nodes that stay of one do not go out to a flash of so many blocks.
fn apart_refusal(geometry: Geometry, blocks: u32, fault: ThroughFault) -> ProgramFault<'static>
    ensures { result ≡ apart_refusal geometry.block blocks fault }
{
    match fault {
        ThroughFault::Unmounted(why) => view_refusal(why),
        ThroughFault::Uncollected(why) => collect_refusal(geometry, blocks, why),
    }
}

/// Which nodes of an image go to a flash of so many blocks, of those that stay where some clash.
pub(crate) fn plan_staying<E: Order>(
    alloc: Global,
    image: &[u8],
    geometry: Geometry,
    blocks: u32,
) -> Result<PlanApart, Fault>
    ensures planned { IsCompactableApart E.order geometry.block blocks image.now
        (seen_as compact_apart_plan result) }
    ensures scannable { OnOk result (IsScannable geometry.block image.now) }
    ensures may { IfOk result
        (λ planned. MayPut E.order geometry.block image.now planned.plan.addresses.items) }
{
    match plan_apart::<E>(alloc, image, geometry, blocks) {
        Ok(planned) => Ok(planned),
        Err(fault) => Err(Fault::Refused(apart_refusal(geometry, blocks, fault))),
    }
}
