//! The tiles of a block, in order.

ghost use Rattle.std.specs.Prelude.{◌≡◌, ◌%◌, ◌<◌, ◌≤◌, ◌+◌, ◌^◌, ℕ, length, take};
ghost use Rattle.jnode.specs.Header.{IsGood};
ghost use Rattle.jnode.specs.declared.header.Header.{Header};
ghost use Rattle.jscan.specs.declared.tiles.TileKind.TheVariants.{Node};

use crate::parts::{header_of, whole};
use flashbase::{Part, pad4};
use jnode::{Header, Order};
use std::marker::PhantomData;

/// The length of a node's header: where fewer bytes are left, there is no node.
pub(crate) const HEADER_LEN: usize = 12;

/// The length of a word.
pub(crate) const WORD_LEN: usize = 4;

/// What is at a place of a block.
#[derive(Clone, Copy, Debug, PartialEq, Eq)]
pub enum TileKind {
    /// A node: a good header is there.
    Node(Header),
    /// Four bytes that are no node's.
    Word,
    /// All that is left, fewer than twelve bytes.
    Rest,
}

/// A tile of a block: its place, what it is, and its bytes.
#[derive(Drop)]
pub struct Tile<'a, E: Order> {
    /// Bytes of the block before it.
    pub place: usize,
    pub kind: TileKind,
    pub bytes: &'a [u8],
    order: PhantomData<E>,
    /// No tile is empty.
    pub ghost nonempty: { 0 < length bytes.now },
    /// A tile is made of whole words.
    pub ghost words: { length bytes.now % 4 ≡ 0 },
    /// A node's bytes hold a good header.
    pub ghost good: { (header : Header) → kind ≡ Node header → IsGood E.order bytes.now },
}

/// The tiles of a block from a place on.
#[derive(Drop)]
pub struct Tiles<'a, E: Order> {
    block: &'a [u8],
    place: usize,
    order: PhantomData<E>,
    ghost within: { place ≤ length block.now },
    ghost whole_words: { length block.now % 4 ≡ 0 },
    ghost on_a_word: { place % 4 ≡ 0 },
}

impl<'a, E: Order> Tiles<'a, E> {
    ghost use Rattle.std.specs.Prelude.{◌≡◌, ◌%◌, length};
    ghost use Rattle.jscan.specs.Tiling.{tiling};
    ghost use Rattle.jscan.specs.Tiles.{tiles_left};

    /// The tiles of a block, which is made of whole words.
    pub fn new(block: &'a [u8]) -> Self
        requires { length block.now % 4 ≡ 0 }
        ensures { tiles_left result ≡ tiling E.order block.entry.now }
    {
        Tiles {
            block,
            place: 0,
            order: PhantomData,
        }
    }
}

impl<'a, E: Order> Iterator for Tiles<'a, E> {
    ghost use Rattle.std.specs.Iterator.{YieldsFirstBy, item_count};
    ghost use Rattle.jscan.specs.Tiles.{tile_view, tiles_left};

    type Item = Tile<'a, E>;

    ghost next_gives = { YieldsFirstBy tile_view tiles_left };

    ghost remaining = { item_count tiles_left };

    fn next(&mut self) -> Option<Tile<'a, E>> {
        let place = self.place;
        let rest = &self.block[place..];
        if rest.is_empty() {
            return None;
        }
        let (kind, len) = front_of::<E>(rest);
        self.place = place + len;
        Some(Tile {
            place,
            kind,
            bytes: &rest[..len],
            order: PhantomData,
        })
    }
}

ghost use Rattle.jscan.specs.Tiling.{tile_at};

/// The tile at the front of what a block has left, and its length.
pub(crate) fn front<E: Order>(rest: &Part<'_>) -> (TileKind, usize)
    requires nonempty { 0 < length rest.now }
    requires whole_words { length rest.now % 4 ≡ 0 }
    ensures tile { (place : ℕ) → tile_at E.order place rest.now
        ≡ record { place = place; kind = result.0; bytes = take result.1 rest.now } }
    ensures nonempty { 0 < result.1 }
    ensures within { result.1 ≤ length rest.now }
    ensures whole_words { result.1 % 4 ≡ 0 }
    ensures good { (header : Header) → result.0 ≡ Node header → IsGood E.order rest.now }
    ensures good_tile { (header : Header) → result.0 ≡ Node header
        → IsGood E.order (take result.1 rest.now) }
{
    match header_of::<E>(rest) {
        Some(header) => (TileKind::Node(header), pad4(header.totlen) as usize),
        None if rest.len() < HEADER_LEN => (TileKind::Rest, rest.len()),
        None => (TileKind::Word, WORD_LEN),
    }
}

/// The same where no byte of the rest is missing.
fn front_of<E: Order>(rest: &[u8]) -> (TileKind, usize)
    requires nonempty { 0 < length rest.now }
    requires whole_words { length rest.now % 4 ≡ 0 }
    ensures tile { (place : ℕ) → tile_at E.order place rest.now
        ≡ record { place = place; kind = result.0; bytes = take result.1 rest.now } }
    ensures nonempty { 0 < result.1 }
    ensures within { result.1 ≤ length rest.now }
    ensures whole_words { result.1 % 4 ≡ 0 }
    ensures good { (header : Header) → result.0 ≡ Node header → IsGood E.order rest.now }
    ensures good_tile { (header : Header) → result.0 ≡ Node header
        → IsGood E.order (take result.1 rest.now) }
{
    front::<E>(&whole(rest))
}
