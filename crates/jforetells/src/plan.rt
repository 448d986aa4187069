//! What is told of a listing.
ghost use Rattle.std.specs.Prelude.{◌≡◌};
ghost use Rattle.jforetells.specs.Foretelling.{flash_foretold};

use jdevice::DevicePlan;
use jlog::Flash;
use jstops::StopsPlan;

/// Which writing is told: that of a log behind an image, or that of `update` in its openings.
#[derive(Clone, Copy)]
pub enum ForetoldPlan {
    Stops(StopsPlan),
    Halts(DevicePlan),
}

/// The flash that would be written.
pub(crate) fn flash_of(on: ForetoldPlan) -> Flash
    ensures { result ≡ flash_foretold on }
{
    match on {
        ForetoldPlan::Stops(on) => on.flash,
        ForetoldPlan::Halts(on) => on.flash,
    }
}
