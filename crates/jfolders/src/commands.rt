//! The commands as the program runs them: each is gone through, and its answer told.
ghost use Rattle.std.specs.Prelude.{◌≡◌, Ok};
ghost use Rattle.jcommand.specs.Parsed.{extraction_view};
ghost use Rattle.jedge.specs.Acts.{DoesFrom};
ghost use Rattle.jedge.specs.Commands.{reported};
ghost use Rattle.jfolders.specs.Commands.{extract_act, listing_act};
ghost use Rattle.jfolders.specs.Reading.{listing_settings};

use crate::extracting::extract;
use crate::host::FolderHost;
use crate::listing::listing;
use jcommand::{Extraction, FolderListing, Outcome};
use jedge::reporting::report;
use jnode::Order;

/// `listing`.
pub fn run_listing<H: FolderHost>(host: &mut H, asked: FolderListing<&str>) -> Outcome
    ensures { DoesFrom (H.history host.old) (H.history host.new)
        (reported (listing_act (listing_settings asked.entry.owner asked.entry.time)
        asked.entry.quiet asked.entry.folder.now)) (Ok result) }
{
    let answer = listing(host, asked);
    report(host, answer)
}

/// `extract`.
pub fn run_extract<E: Order, H: FolderHost>(host: &mut H, asked: Extraction<&str>) -> Outcome
    requires { asked.options.endian ≡ E.order }
    ensures { DoesFrom (H.history host.old) (H.history host.new)
        (reported (extract_act (extraction_view asked.entry)))
        (Ok result) }
{
    let answer = extract::<E, H>(host, asked);
    report(host, answer)
}
