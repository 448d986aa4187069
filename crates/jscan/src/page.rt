//! Into which pages a file is cut.

ghost use Rattle.std.specs.Prelude.{◌≡◌};
ghost use Rattle.jscan.specs.Pages.{IsPage, page_size};

/// The page of a file: the bytes of one node lie in one page. Linux takes that of the device's
/// memory (`jffs2_write_inode_range` of `fs/jffs2/write.c`), most often of 4,096 bytes, and
/// `mkfs.jffs2` what `-s` says.
#[derive(Clone, Copy, Debug, PartialEq, Eq)]
pub enum Page {
    P4096,
    P8192,
    P16384,
}

impl Page {
    /// Its size in bytes.
    pub fn size(self) -> u32
        ensures size { result ≡ page_size self }
        ensures is_page { IsPage result }
    {
        match self {
            Page::P4096 => 4096,
            Page::P8192 => 8192,
            Page::P16384 => 16384,
        }
    }
}
