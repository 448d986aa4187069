//! Pieces of a file.
ghost use Rattle.std.specs.Prelude.{◌≡◌, ℕ, ◌+◌, ◌≤◌, ◌<◌, ◌^◌, length, slice_index, EachIndex};
ghost use Rattle.jfrag.specs.Overlays.{overlaid, outranks};

use flashbase::Part;

/// What a piece puts at the places that it covers: so many zeros, or bytes.
#[derive(Drop)]
pub enum Body<'a> {
    Zero(u32),
    Bytes(Part<'a>),
}

/// One version of a range of a file: the body's first byte is the file's byte `offset`.
#[derive(Drop)]
pub struct Piece<'a> {
    pub version: u32,
    pub offset: u32,
    pub body: Body<'a>,
}

impl<'a> Body<'a> {
    ghost use Rattle.jfrag.specs.Pieces.{body_len, body_byte, is_zeros};

    fn len(&self) -> usize
        ensures { result ≡ body_len self.now }
    {
        match self {
            Body::Zero(count) => *count as usize,
            Body::Bytes(part) => part.len(),
        }
    }

    // A byte past the end is 0.
    fn byte(&self, index: u64) -> u8
        ensures { result ≡ body_byte index self.now }
    {
        match self {
            Body::Zero(_) => 0,
            Body::Bytes(part) => part.get(index as usize).unwrap_or(0),
        }
    }

    fn is_zeros(&self) -> bool
        ensures { result ≡ is_zeros self.now }
    {
        match self {
            Body::Zero(_) => true,
            Body::Bytes(_) => false,
        }
    }

    fn copied(&self) -> Body<'a>
        ensures { result ≡ self.now }
    {
        match self {
            Body::Zero(count) => Body::Zero(*count),
            Body::Bytes(part) => Body::Bytes(part.copied()),
        }
    }
}

impl<'a> Piece<'a> {
    ghost use Rattle.jfrag.specs.Pieces.{end_of, covers, byte_of, is_zeros};

    pub(crate) fn end(&self) -> u32
        requires { end_of self.now < 2 ^ 32 }
        ensures { result ≡ end_of self.now }
    {
        self.offset + self.body.len() as u32
    }

    fn covers(&self, place: u64) -> bool
        ensures { result ≡ covers place self.now }
    {
        let offset = u64::from(self.offset);
        offset <= place && place - offset < self.body.len() as u64
    }

    fn byte_of(&self, place: u64) -> u8
        ensures { result ≡ byte_of place self.now }
    {
        self.body.byte(place.saturating_sub(u64::from(self.offset)))
    }

    /// What is visible at the place after the piece is overlaid on what was visible there.
    pub(crate) fn overlaid_on(&self, there: Option<(u32, u8)>, place: u64) -> Option<(u32, u8)>
        ensures { result ≡ overlaid place self.now there }
    {
        if !self.covers(place) {
            there
        } else if outranks(self.version, there) {
            Some((self.version, self.byte_of(place)))
        } else {
            there
        }
    }

    pub(crate) fn is_zeros(&self) -> bool
        ensures { result ≡ is_zeros self.now.body }
    {
        self.body.is_zeros()
    }

    /// The same piece, of the same bytes.
    pub(crate) fn copied(&self) -> Piece<'a>
        ensures { result ≡ self.now }
    {
        Piece {
            version: self.version,
            offset: self.offset,
            body: self.body.copied(),
        }
    }

    /// Fills the slice with the bytes that the piece has from `place` on.
    pub(crate) fn copy_to(&self, place: u64, out: &mut [u8])
        requires from { self.now.offset ≤ place }
        requires to { place + length out.old ≤ end_of self.now }
        ensures { EachIndex out.new (λ k. slice_index out.new k ≡ byte_of (place + k) self.now) }
    {
        match &self.body {
            Body::Zero(_) => out.fill(0),
            Body::Bytes(part) => {
                let from = (place - u64::from(self.offset)) as usize;
                part.slice(from, out.len()).copy_to(out);
            }
        }
    }
}

// Whether a version is above the one that is visible, or nothing is visible.
fn outranks(version: u32, there: Option<(u32, u8)>) -> bool
    ensures { result ≡ outranks version there }
{
    match there {
        None => true,
        Some((visible, _)) => visible < version,
    }
}
