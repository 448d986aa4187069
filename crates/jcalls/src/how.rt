//! What a caller says of an image.

ghost use Rattle.std.specs.Prelude.{◌≡◌};
ghost use Rattle.jcalls.specs.Asked.{is_through, is_big};

/// What an image does not tell of itself, and how its data are read.
#[repr(C)]
#[derive(Clone, Copy)]
pub struct How {
    /// The bytes of an erase block.
    pub block: u32,
    /// 0 for an image in little-endian order, any other number for one in big-endian order.
    pub big: u32,
    /// 0 where compressed data are refused, any other number where they are read through.
    pub through: u32,
}

impl How {
    /// Whether the image is in big-endian order.
    pub(crate) fn is_big(self) -> bool
        ensures { result ≡ is_big self }
    {
        self.big != 0
    }

    /// Whether compressed data are read through.
    pub(crate) fn is_through(self) -> bool
        ensures { result ≡ is_through self }
    {
        self.through != 0
    }
}
