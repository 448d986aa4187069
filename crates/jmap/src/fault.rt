//! Why a map ends early.

ghost use Rattle.jmap.specs.declared.fault.MapFault.TheVariants.{Output};
ghost use Rattle.std.specs.Prelude.{◌≡◌};

use flashbase::DeviceFault;
use thiserror::Error;

/// Why a map ends early.
#[derive(Clone, Copy, Debug, PartialEq, Eq, Error)]
pub enum MapFault {
    /// The block size is not read.
    #[error("C1 BlockSize")]
    BlockSize,
    /// The image is longer than `GREATEST_IMAGE`.
    #[error("C2 TooLarge")]
    TooLarge,
    /// The sink failed.
    #[error("P5 Output")]
    Output,
}

impl From<DeviceFault> for MapFault {
    ghost from_gives = { λ _ e. e ≡ Output };

    fn from(_fault: DeviceFault) -> MapFault {
        MapFault::Output
    }
}
