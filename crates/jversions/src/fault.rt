//! Why there are no bytes of a revision.

ghost use Rattle.std.specs.Prelude.{◌≡◌};
ghost use Rattle.jversions.specs.declared.fault.RevisionFault.TheVariants.{Output, Refused};

use flashbase::DeviceFault;
use jthrough::ViewFault;
use thiserror::Error;

/// Why there are no bytes of a revision.
#[derive(Clone, Copy, Debug, PartialEq, Eq, Error)]
pub enum RevisionFault {
    /// The image is not read, its nodes of the revision do not mount, or memory ran out.
    #[error("{0}")]
    Refused(ViewFault),
    /// No sound node is of this object and of this version or a lower one.
    #[error("I4 NoInode")]
    NoNode,
    /// The object is neither a regular file nor a symlink, by its node of highest version.
    #[error("I5 NoContent")]
    NoContent,
    /// The sink failed.
    #[error("P5 Output")]
    Output,
}

impl From<ViewFault> for RevisionFault {
    ghost from_gives = { λ why fault. fault ≡ Refused why };

    fn from(why: ViewFault) -> RevisionFault {
        RevisionFault::Refused(why)
    }
}

impl From<DeviceFault> for RevisionFault {
    ghost from_gives = { λ _ fault. fault ≡ Output };

    fn from(_fault: DeviceFault) -> RevisionFault {
        RevisionFault::Output
    }
}
