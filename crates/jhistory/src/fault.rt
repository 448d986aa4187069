//! Why a history ends early.

ghost use Rattle.jhistory.specs.declared.fault.HistoryFault.TheVariants.{Output};
ghost use Rattle.std.specs.Prelude.{◌≡◌};

use flashbase::DeviceFault;
use thiserror::Error;

/// Why a history ends early.
#[derive(Clone, Copy, Debug, PartialEq, Eq, Error)]
pub enum HistoryFault {
    /// The block size is not read.
    #[error("C1 BlockSize")]
    BlockSize,
    /// The image is longer than `GREATEST_IMAGE`.
    #[error("C2 TooLarge")]
    TooLarge,
    /// The sink failed.
    #[error("P5 Output")]
    Output,
}

impl From<DeviceFault> for HistoryFault {
    ghost from_gives = { λ _ e. e ≡ Output };

    fn from(_fault: DeviceFault) -> HistoryFault {
        HistoryFault::Output
    }
}
