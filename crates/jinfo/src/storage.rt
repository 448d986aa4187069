//! How the data of an image's inode nodes are stored.

ghost use Rattle.std.specs.Prelude.{◌≡◌};
ghost use Rattle.jinfo.specs.Counting.{DataHaveRoom, data_counted};

use crate::kinds::{
    LZMA, LZO, RTIME, ZLIB, is_packed_by, is_packed_otherwise, is_stored, is_zero, one_if,
};
use jscan::ExtentKind;

/// How many sound inode nodes hold their data in each way.
#[derive(Clone, Copy, Debug, PartialEq, Eq)]
pub struct DataCounts {
    /// As they are.
    pub none: u64,
    /// Zeros, which take no bytes.
    pub zero: u64,
    pub rtime: u64,
    pub zlib: u64,
    pub lzo: u64,
    pub lzma: u64,
    /// Compressed in another way.
    pub other: u64,
}

impl DataCounts {
    /// The counts with one extent more.
    pub(crate) fn with(self, kind: &ExtentKind<'_>) -> DataCounts
        requires room { DataHaveRoom self }
        ensures { result ≡ data_counted self kind.now }
    {
        DataCounts {
            none: self.none + one_if(is_stored(kind)),
            zero: self.zero + one_if(is_zero(kind)),
            rtime: self.rtime + one_if(is_packed_by(RTIME, kind)),
            zlib: self.zlib + one_if(is_packed_by(ZLIB, kind)),
            lzo: self.lzo + one_if(is_packed_by(LZO, kind)),
            lzma: self.lzma + one_if(is_packed_by(LZMA, kind)),
            other: self.other + one_if(is_packed_otherwise(kind)),
        }
    }
}
