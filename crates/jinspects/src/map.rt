//! `map`: where the nodes of an image lie.
ghost use Rattle.std.specs.Prelude.{◌≡◌, ◌<◌};
ghost use Rattle.std.specs.List.{AllPairs};
ghost use Rattle.flashbase.specs.Sinks.{change_of};
ghost use Rattle.jscan.specs.Scans.{IsScannable};
ghost use Rattle.jmap.specs.MapText.{PutsMap};
ghost use Rattle.jedge.specs.Acts.{DoesFrom, PutsBy, Whole, prints, seen_as};
ghost use Rattle.jedge.specs.Told.{found_told};
ghost use Rattle.jinspects.specs.Inspecting.{drawn, map_act};

use crate::survey::{Survey, survey_of};
use flashbase::Sink;
use jcommand::Options;
use jedge::fault::Fault;
use jedge::found::{Found, finished};
use jedge::host::Host;
use jedge::reading::load;
use jmap::{MapFault, put_map, put_picture};
use jnode::Order;
use jreport::others_if_none;
use jscan::Geometry;

/// Puts where the nodes of an image lie: as a text, or as a picture.
fn put_nodes<E: Order, T: Sink>(
    image: &[u8],
    geometry: Geometry,
    svg: bool,
    survey: &Survey,
    sink: &mut T,
) -> Result<(), MapFault>
    requires { AllPairs (λ a b. a < b) survey.now.live.items }
    ensures { PutsMap geometry.block image.now
        (drawn svg E.order geometry.block image.now survey.now.live.items survey.now.paths)
        (change_of T.Sink sink.old sink.new) result }
{
    let live = survey.live.as_slice();
    if svg {
        put_picture::<E, T>(image, geometry, live, &survey.paths, sink)
    } else {
        put_map::<E, T>(image, geometry, live, sink)
    }
}

/// Puts the map of an image, and answers what the command comes to.
fn put_survey<E: Order, T: Sink>(
    image: &[u8],
    geometry: Geometry,
    svg: bool,
    survey: &Survey,
    sink: &mut T,
) -> Result<Found<'static>, Fault>
    requires scannable { IsScannable geometry.block image.now }
    requires ordered { AllPairs (λ a b. a < b) survey.now.live.items }
    ensures { PutsBy (Whole (drawn svg E.order geometry.block image.now survey.now.live.items
        survey.now.paths) (found_told survey.now.found)) (change_of T.Sink sink.old sink.new)
        (seen_as found_told result) }
{
    match put_nodes::<E, T>(image, geometry, svg, survey, sink) {
        Ok(()) => Ok(survey.found),
        Err(MapFault::Output | MapFault::BlockSize | MapFault::TooLarge) => Err(Fault::Output),
    }
}

/// Prints it.
fn print_survey<E: Order, H: Host>(
    host: &mut H,
    image: &[u8],
    geometry: Geometry,
    svg: bool,
    survey: &Survey,
) -> Result<Found<'static>, Fault>
    requires scannable { IsScannable geometry.block image.now }
    requires ordered { AllPairs (λ a b. a < b) survey.now.live.items }
    ensures { DoesFrom (H.history host.old) (H.history host.new)
        (prints (Whole (drawn svg E.order geometry.block image.now survey.now.live.items
        survey.now.paths) (found_told survey.now.found))) (seen_as found_told result) }
{
    let mut out = match host.output() {
        Ok(out) => out,
        Err(fault) => return Err(fault),
    };
    let answer = put_survey::<E, _>(image, geometry, svg, survey, &mut out);
    let closed = host.close(out);
    finished(answer, closed)
}

/// `map`.
pub fn map<E: Order, H: Host>(
    host: &mut H,
    options: Options,
    svg: bool,
    image: &str,
) -> Result<Found<'static>, Fault>
    requires { options.endian ≡ E.order }
    ensures { DoesFrom (H.history host.old) (H.history host.new)
        (map_act options svg image.now) (seen_as found_told result) }
{
    let image = match load(host, image) {
        Ok(image) => image,
        Err(fault) => return Err(fault),
    };
    let bytes = image.as_slice();
    let geometry = options.geometry;
    let others = others_if_none::<E>(bytes, geometry);
    match survey_of::<E>(host.alloc(), bytes, options, others, svg) {
        Ok(survey) => print_survey::<E, H>(host, bytes, geometry, svg, &survey),
        Err(fault) => Err(fault),
    }
}
