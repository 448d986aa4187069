//! Laws of a device's image. Each function's contract is a law, and its body is empty.

ghost use Rattle.jdevice.specs.Laws.{DeviceShowsAccepted, DeviceStaysOutside};

/// The image with what a run did has each byte as it was that is not in the openings that were
/// taken.
pub fn device_stays_outside()
    ensures { DeviceStaysOutside }
{}

/// It mounts through its compression as the file system after the operations that were accepted.
pub fn device_shows_accepted()
    ensures { DeviceShowsAccepted }
{}
