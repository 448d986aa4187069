//! `info`: what an image tells of itself, of which nobody says the byte order or the block size.
ghost use Rattle.std.specs.Prelude.{◌≡◌, ◌≤◌, ◌++◌, IfOk, length};
ghost use Rattle.flashbase.specs.Sinks.{PutsTo, change_of};
ghost use Rattle.jscan.specs.Image.{greatest_image};
ghost use Rattle.jinfo.specs.InfoText.{info_text};
ghost use Rattle.jinfo.specs.Infos.{order_of};
ghost use Rattle.jspare.specs.Showing.{spare_lines};
ghost use Rattle.jregions.specs.RegionText.{region_lines};
ghost use Rattle.jedge.specs.Acts.{DoesFrom, PutsBy, Whole, seen_as};
ghost use Rattle.jedge.specs.Commands.{info_act, informed};
ghost use Rattle.jedge.specs.Told.{found_told};

use crate::fault::Fault;
use crate::found::{Found, Note, finished};
use crate::host::Host;
use crate::parting::find_regions;
use crate::reading::load;
use crate::spare::find_spare;
use flashbase::{DeviceFault, Sink};
use jinfo::{InfoFault, container_of, put_info};
use jnode::Endian;
use jregions::{Regions, put_regions};
use jspare::{PageLayout, put_spare};

/// What an image was found to be.
fn informed(image: &[u8], order: Option<Endian>) -> Found<'static>
    requires { order ≡ order_of image.now }
    ensures { found_told result ≡ informed image.now }
{
    Found {
        counted: u64::from(order.is_none()),
        note: match container_of(image) {
            Some(container) => Some(Note::Container(container)),
            None => None,
        },
    }
}

/// Puts the lines of an image, and answers its byte order.
fn put_image<T: Sink>(image: &[u8], sink: &mut T) -> Result<Option<Endian>, DeviceFault>
    requires { length image.now ≤ greatest_image }
    ensures puts { PutsTo T.Sink sink.old sink.new (info_text image.now) result }
    ensures order { IfOk result (λ order. order ≡ order_of image.now) }
{
    match put_info(image, sink) {
        Ok(order) => Ok(order),
        Err(InfoFault::Output | InfoFault::TooLarge) => Err(DeviceFault),
    }
}

/// Puts what is told behind them: the layout and the regions of a dump.
fn put_dump<T: Sink>(
    spare: Option<PageLayout>,
    regions: &Regions,
    sink: &mut T,
) -> Result<(), DeviceFault>
    ensures { PutsTo T.Sink sink.old sink.new (spare_lines spare ++ region_lines regions.now)
        result }
{
    put_spare(spare, sink)?;
    put_regions(regions, sink)
}

/// Puts all lines.
fn put_all<T: Sink>(
    image: &[u8],
    spare: Option<PageLayout>,
    regions: &Regions,
    sink: &mut T,
) -> Result<Option<Endian>, DeviceFault>
    requires { length image.now ≤ greatest_image }
    ensures puts { PutsTo T.Sink sink.old sink.new
        (info_text image.now ++ (spare_lines spare ++ region_lines regions.now)) result }
    ensures order { IfOk result (λ order. order ≡ order_of image.now) }
{
    let order = put_image(image, sink)?;
    match put_dump(spare, regions, sink) {
        Ok(()) => Ok(order),
        Err(DeviceFault) => Err(DeviceFault),
    }
}

/// Puts all lines of an image, and answers what it was found to be.
fn put_lines<T: Sink>(
    image: &[u8],
    spare: Option<PageLayout>,
    regions: &Regions,
    sink: &mut T,
) -> Result<Found<'static>, Fault>
    requires { length image.now ≤ greatest_image }
    ensures { PutsBy (Whole
        (info_text image.now ++ (spare_lines spare ++ region_lines regions.now))
        (informed image.now)) (change_of T.Sink sink.old sink.new) (seen_as found_told result) }
{
    match put_all(image, spare, regions, sink) {
        Ok(order) => Ok(informed(image, order)),
        Err(DeviceFault) => Err(Fault::Output),
    }
}

/// `info`.
pub fn info<H: Host>(host: &mut H, name: &str) -> Result<Found<'static>, Fault>
    ensures { DoesFrom (H.history host.old) (H.history host.new) (info_act name.now)
        (seen_as found_told result) }
{
    let image = match load(host, name) {
        Ok(image) => image,
        Err(fault) => return Err(fault),
    };
    let spare = match find_spare(host.alloc(), image.as_slice()) {
        Ok(spare) => spare,
        Err(fault) => return Err(fault),
    };
    let regions = match find_regions(host.alloc(), image.as_slice()) {
        Ok(regions) => regions,
        Err(fault) => return Err(fault),
    };
    let mut out = match host.output() {
        Ok(out) => out,
        Err(fault) => return Err(fault),
    };
    let answer = put_lines(image.as_slice(), spare, &regions, &mut out);
    let closed = host.close(out);
    finished(answer, closed)
}
