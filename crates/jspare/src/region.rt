//! The part of a file that is the image.

use crate::layout::PageLayout;

/// Which bytes of a file are the image.
#[derive(Clone, Copy, Debug, PartialEq, Eq)]
pub struct Region {
    /// The layout of its pages, if the file is a dump with spare bytes.
    pub layout: Option<PageLayout>,

    /// How many bytes lie before the image, without the spare bytes.
    pub offset: u32,

    /// How many bytes the image has, if that is told; otherwise it goes to the end.
    pub length: Option<u32>,
}
