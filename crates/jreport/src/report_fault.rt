//! Why a report ends early.

ghost use Rattle.jreport.specs.declared.report_fault.ReportFault.TheVariants.{Scan, Output};
ghost use Rattle.jscan.specs.declared.geometry.ScanFault.TheVariants.{OutOfMemory};
ghost use Rattle.std.specs.Prelude.{◌≡◌};

use flashbase::DeviceFault;
use jscan::ScanFault;
use std::alloc::AllocError;
use thiserror::Error;

/// Why a report ends early.
#[derive(Clone, Copy, Debug, PartialEq, Eq, Error)]
pub enum ReportFault {
    /// The image cannot be scanned.
    #[error("{0}")]
    Scan(ScanFault),
    /// The sink failed.
    #[error("P5 Output")]
    Output,
}

impl From<DeviceFault> for ReportFault {
    ghost from_gives = { λ _ e. e ≡ Output };

    fn from(_fault: DeviceFault) -> ReportFault {
        ReportFault::Output
    }
}

impl From<AllocError> for ReportFault {
    ghost from_gives = { λ _ e. e ≡ Scan OutOfMemory };

    fn from(_fault: AllocError) -> ReportFault {
        ReportFault::Scan(ScanFault::OutOfMemory)
    }
}
