//! What a person may want to know of a session that was refused, or stopped, beside its fault.
ghost use Rattle.std.specs.Prelude.{◌≡◌};
ghost use Rattle.jreport.specs.Causes.{cause_of, first_limit};

use crate::reason::Reason;
use jlog::{SessionFault, page_fits};
use jscan::{GREATEST_IMAGE, Geometry, Page};

/// What a flash that is written does not keep.
#[derive(Clone, Copy, Debug, PartialEq, Eq)]
pub enum Limit {
    /// Its blocks are smaller than 8192 bytes.
    SmallBlock,
    /// The size of a block is no multiple of 4.
    BlockMultiple,
    /// Its blocks are larger than 4194304 bytes.
    LargeBlock,
    /// It has no block.
    NoBlock,
    /// It is larger than 268435456 bytes.
    LargeFlash,
    /// The image is longer than it.
    LongImage,
    /// Its blocks do not hold a node of a page's bytes.
    LargePage,
}

/// Why a session was refused, or stopped, as far as it is known.
#[derive(Clone, Copy, Debug, PartialEq, Eq)]
pub enum Cause {
    /// Its fault says it all.
    Unknown,
    /// The host refused to write the file.
    Host(Reason),
    /// A flash that is written does not keep this.
    Limit(Limit),
    /// The operation fits into a flash of so many blocks, and of no fewer.
    Blocks(u32),
}

/// A flash that is to be written, and how many bytes the image on it has.
#[derive(Clone, Copy, Debug, PartialEq, Eq)]
pub struct Plan {
    pub geometry: Geometry,
    pub blocks: u32,
    pub page: Page,
    pub length: usize,
}

/// Why nothing was written: a fault of the session that is of no operation, and its cause.
#[derive(Clone, Copy, Debug, PartialEq, Eq)]
pub struct Refused {
    pub fault: SessionFault,
    pub cause: Cause,
}

/// The first limit that a flash does not keep, if there is one.
fn first_limit(plan: Plan) -> Option<Limit>
    ensures { result ≡ first_limit plan }
{
    let block = plan.geometry.block;
    let bytes = u64::from(plan.blocks) * u64::from(block);
    if block < 8192 {
        Some(Limit::SmallBlock)
    } else if block % 4 != 0 {
        Some(Limit::BlockMultiple)
    } else if 4_194_304 < block {
        Some(Limit::LargeBlock)
    } else if plan.blocks == 0 {
        Some(Limit::NoBlock)
    } else if bytes > GREATEST_IMAGE as u64 {
        Some(Limit::LargeFlash)
    } else if bytes < plan.length as u64 {
        Some(Limit::LongImage)
    } else if !page_fits(plan.geometry, plan.page) {
        Some(Limit::LargePage)
    } else {
        None
    }
}

/// Why a session was refused, or stopped by this fault; `reason` is that of the file that is
/// written, and `blocks` the least number of blocks that hold the operation, where that is known.
pub fn cause_of(plan: Plan, fault: SessionFault, reason: Reason, blocks: Option<u32>) -> Cause
    ensures { result ≡ cause_of plan fault reason blocks }
{
    match fault {
        SessionFault::Sink => Cause::Host(reason),
        SessionFault::Geometry => match first_limit(plan) {
            Some(limit) => Cause::Limit(limit),
            None => Cause::Unknown,
        },
        SessionFault::Full { .. } => match blocks {
            Some(blocks) => Cause::Blocks(blocks),
            None => Cause::Unknown,
        },
        _ => Cause::Unknown,
    }
}
