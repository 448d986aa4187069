//! The extents of a block, in order.

ghost use Rattle.std.specs.Prelude.{◌≡◌, ◌%◌, ◌<◌, ◌≤◌, ◌+◌, ◌^◌, ℕ, drop, length, take, IfSome, IfNone, IsTrue};
ghost use Rattle.jnode.specs.Header.{magic_of};
ghost use Rattle.jscan.specs.Extents.{class_of, is_one_run, extent_kind_of};
ghost use Rattle.jscan.specs.Runs.{BeginsRun, IsExtent, EndsRun, IsDirtMagic};
ghost use Rattle.jscan.specs.declared.extent.ExtentKind.TheVariants.{Dirt, Erased};

use crate::extent::{Extent, ExtentKind};
use crate::parts::{erased_run_of, is_erased, magic_of, whole};
use crate::tiles::{HEADER_LEN, TileKind, WORD_LEN, front};
use flashbase::Part;
use jnode::{Order, read_part};
use std::marker::PhantomData;

/// The magic number of a node, and that of one of the other byte order, read in this one.
const MAGIC: u16 = 0x1985;

const OTHER_MAGIC: u16 = 0x8519;

/// The first bytes of an erased word, read as a magic number.
const ERASED_MAGIC: u16 = 0xFFFF;

/// The extents of a block from a place on.
#[derive(Drop)]
pub struct Extents<'a, E: Order> {
    start: u32,
    /// Bytes of the block before the rest.
    place: usize,
    rest: Part<'a>,
    order: PhantomData<E>,
    ghost addressed: { start + (place + length rest) < 2 ^ 32 },
    ghost whole_words: { length rest % 4 ≡ 0 },
}

impl<'a, E: Order> Extents<'a, E> {
    ghost use Rattle.std.specs.Prelude.{◌≡◌, ◌%◌, ◌<◌, ◌+◌, ◌^◌, length};
    ghost use Rattle.jscan.specs.Extents.{extents};
    ghost use Rattle.jscan.specs.ExtentsLeft.{extents_left};

    /// The extents of a block of whole words, which begins at the address `start` of its image.
    pub fn new(start: u32, block: &'a [u8]) -> Self
        requires whole_words { length block.now % 4 ≡ 0 }
        requires addressed { start + length block.now < 2 ^ 32 }
        ensures { extents_left result ≡ extents E.order start block.entry.now }
    {
        Extents::of_part(start, whole(block))
    }

    /// The same of a block of which the image may lack the end.
    pub fn of_part(start: u32, block: Part<'a>) -> Self
        requires whole_words { length block % 4 ≡ 0 }
        requires addressed { start + length block < 2 ^ 32 }
        ensures { extents_left result ≡ extents E.order start block.entry }
    {
        Extents {
            start,
            place: 0,
            rest: block,
            order: PhantomData,
        }
    }
}

impl<'a, E: Order> Iterator for Extents<'a, E> {
    ghost use Rattle.std.specs.Iterator.{YieldsFirst, item_count};
    ghost use Rattle.jscan.specs.ExtentsLeft.{extents_left};

    type Item = Extent<'a>;

    ghost next_gives = { YieldsFirst extents_left };

    ghost remaining = { item_count extents_left };

    fn next(&mut self) -> Option<Extent<'a>> {
        if self.rest.is_empty() {
            return None;
        }
        let (kind, len) = first_extent::<E>(&self.rest);
        let addr = self.start + self.place as u32;
        self.rest = self.rest.slice(len, self.rest.len() - len);
        self.place += len;
        Some(Extent {
            addr,
            len: len as u32,
            kind,
        })
    }
}

/// The first extent of what a block has left, and its length.
fn first_extent<'a, E: Order>(rest: &Part<'a>) -> (ExtentKind<'a>, usize)
    requires nonempty { 0 < length rest.now }
    requires whole_words { length rest.now % 4 ≡ 0 }
    ensures extent { IsExtent E.order rest.now result.1 result.0 }
    ensures nonempty { 0 < result.1 }
    ensures within { result.1 ≤ length rest.now }
    ensures whole_words { result.1 % 4 ≡ 0 }
{
    let (kind, len) = front::<E>(rest);
    match kind {
        TileKind::Node(_) => (ExtentKind::Tiled(read_part::<E>(rest)), len),
        TileKind::Word | TileKind::Rest => first_run::<E>(rest, len),
    }
}

/// The first extent of what a block has left, where the tile at its front, of `len` bytes, is no
/// node.
fn first_run<'a, E: Order>(rest: &Part<'_>, len: usize) -> (ExtentKind<'a>, usize)
    requires whole_words { length rest.now % 4 ≡ 0 }
    requires words { len % 4 ≡ 0 }
    requires nonempty { 0 < len }
    requires within { len ≤ length rest.now }
    requires begins { BeginsRun E.order rest.now len (class_of E.order (take len rest.now)) }
    ensures extent { IsExtent E.order rest.now result.1 result.0 }
    ensures nonempty { 0 < result.1 }
    ensures within { result.1 ≤ length rest.now }
    ensures whole_words { result.1 % 4 ≡ 0 }
{
    let kind = class_of::<E>(&rest.slice(0, len));
    let begun = match kind {
        ExtentKind::Erased => erased_words::<E>(rest, len),
        ExtentKind::Dirt => dirt_words::<E>(rest, len),
        _ => len,
    };
    let end = run_end::<E>(rest, begun, &kind);
    (kind, end)
}

/// How far a run goes that has begun with the first `begun` bytes.
fn run_end<E: Order>(rest: &Part<'_>, begun: usize, kind: &ExtentKind<'_>) -> usize
    requires whole_words { length rest.now % 4 ≡ 0 }
    requires words { begun % 4 ≡ 0 }
    requires within { begun ≤ length rest.now }
    requires begins { BeginsRun E.order rest.now begun kind.now }
    ensures extent { IsExtent E.order rest.now result kind.now }
    ensures least { begun ≤ result }
    ensures within { result ≤ length rest.now }
    ensures whole_words { result % 4 ≡ 0 }
{
    let mut end = begun;
    while let Some(len) = next_of_run::<E>(&rest.slice(end, rest.len() - end), kind) {
        end = dirt_on::<E>(rest, end + len, kind);
    }
    end
}

/// If a run of dirt goes on after the first `begun` bytes, how far it does at least.
fn dirt_on<E: Order>(rest: &Part<'_>, begun: usize, kind: &ExtentKind<'_>) -> usize
    requires whole_words { length rest.now % 4 ≡ 0 }
    requires words { begun % 4 ≡ 0 }
    requires within { begun ≤ length rest.now }
    requires begins { BeginsRun E.order rest.now begun kind.now }
    ensures begins { BeginsRun E.order rest.now result kind.now }
    ensures least { begun ≤ result }
    ensures within { result ≤ length rest.now }
    ensures words { result % 4 ≡ 0 }
{
    match kind {
        ExtentKind::Dirt => dirt_words::<E>(rest, begun),
        _ => begun,
    }
}

/// The length of the tile at the front, where a run of this kind goes on with it.
fn next_of_run<E: Order>(rest: &Part<'_>, extent_kind: &ExtentKind<'_>) -> Option<usize>
    requires whole_words { length rest.now % 4 ≡ 0 }
    ensures goes_on { IfSome result (λ len. BeginsRun E.order rest.now len extent_kind.now) }
    ensures nonempty { IfSome result (λ len. 0 < len) }
    ensures within { IfSome result (λ len. len ≤ length rest.now) }
    ensures words { IfSome result (λ len. len % 4 ≡ 0) }
    ensures one_kind { IfSome result (λ len. IsTrue (is_one_run extent_kind.now extent_kind.now)) }
    ensures ends { IfNone result (EndsRun E.order rest.now extent_kind.now) }
{
    if rest.is_empty() {
        return None;
    }
    let (kind, len) = front::<E>(rest);
    if goes_on::<E>(extent_kind, kind, &rest.slice(0, len)) {
        Some(len)
    } else {
        None
    }
}

/// Whether a tile goes on with a run of this kind.
fn goes_on<E: Order>(extent_kind: &ExtentKind<'_>, kind: TileKind, bytes: &Part<'_>) -> bool
    requires { 4 ≤ length bytes.now }
    ensures { result ≡ is_one_run extent_kind.now (extent_kind_of E.order kind bytes.now) }
{
    match kind {
        TileKind::Node(_) => false,
        TileKind::Word | TileKind::Rest => is_one_run(extent_kind, &class_of::<E>(bytes)),
    }
}

/// Where an erased run has begun with the first `begun` bytes, all bytes of it that are words. The
/// last ones of a block may be the rest's, which is judged whole.
fn erased_words<E: Order>(rest: &Part<'_>, begun: usize) -> usize
    requires whole_words { length rest.now % 4 ≡ 0 }
    requires words { begun % 4 ≡ 0 }
    requires within { begun ≤ length rest.now }
    requires begins { BeginsRun E.order rest.now begun Erased }
    ensures begins { BeginsRun E.order rest.now result Erased }
    ensures least { begun ≤ result }
    ensures within { result ≤ length rest.now }
    ensures words { result % 4 ≡ 0 }
{
    let words = erased_run_of(rest) / WORD_LEN * WORD_LEN;
    let most = rest.len().saturating_sub(HEADER_LEN - WORD_LEN);
    words.min(most).max(begun)
}

/// Whether a word with this magic number is dirt, whatever follows it.
fn is_dirt(magic: u16) -> bool
    ensures { IsTrue result → IsDirtMagic magic }
{
    magic != MAGIC && magic != OTHER_MAGIC && magic != ERASED_MAGIC
}

/// The magic number at a place.
fn magic_at<E: Order>(bytes: &[u8], place: usize) -> u16
    requires { place + 2 ≤ length bytes.now }
    ensures { result ≡ magic_of E.order (drop place bytes.now) }
{
    E::read_u16(&bytes[place..])
}

/// If a run of dirt has begun with the first `begun` bytes, how far it goes at least, by the magic
/// numbers of words alone. The last ones of a block may be the rest's, which is judged whole.
fn dirt_words<E: Order>(rest: &Part<'_>, begun: usize) -> usize
    requires whole_words { length rest.now % 4 ≡ 0 }
    requires words { begun % 4 ≡ 0 }
    requires within { begun ≤ length rest.now }
    requires begins { BeginsRun E.order rest.now begun Dirt }
    ensures begins { BeginsRun E.order rest.now result Dirt }
    ensures least { begun ≤ result }
    ensures within { result ≤ length rest.now }
    ensures words { result % 4 ≡ 0 }
{
    let present = rest.present();
    let most = (rest.len().saturating_sub(HEADER_LEN - WORD_LEN)).min(
        present.len().saturating_sub(1),
    );
    let mut end = begun;
    while end < most {
        if !is_dirt(magic_at::<E>(present, end)) {
            return end;
        }
        end += WORD_LEN;
    }
    end
}

fn is_one_run(a: &ExtentKind<'_>, b: &ExtentKind<'_>) -> bool
    ensures { result ≡ is_one_run a.now b.now }
{
    matches!(
        (a, b),
        (ExtentKind::Erased, ExtentKind::Erased)
            | (ExtentKind::OtherOrder, ExtentKind::OtherOrder)
            | (ExtentKind::Dirt, ExtentKind::Dirt)
    )
}

/// What kind of extent the bytes of a word or a rest are.
#[tactic(auto, unfolding(crate::specs::Extents::class_of))]
fn class_of<'a, E: Order>(bytes: &Part<'_>) -> ExtentKind<'a>
    requires { 4 ≤ length bytes.now }
    ensures { result ≡ class_of E.order bytes.now }
{
    if is_erased(bytes) {
        ExtentKind::Erased
    } else if magic_of::<E>(bytes) == OTHER_MAGIC {
        ExtentKind::OtherOrder
    } else {
        ExtentKind::Dirt
    }
}
