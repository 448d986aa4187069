//! What is compared.

use jnode::Endian;

/// Whether times of change are compared, and the byte order of both images, in which the numbers of
/// devices lie.
#[derive(Clone, Copy, Debug, PartialEq, Eq)]
pub struct Comparing {
    pub times: bool,
    pub order: Endian,
}
