//! What an image has, without a mount. None of these calls takes memory.

ghost use Rattle.std.specs.Prelude.{◌≡◌, ◌≢◌, ◌<◌, ◌↔◌, ◌⊎◌, IfOk, IfErr, length};
ghost use Rattle.flashbase.specs.Crc.{crc_of};
ghost use Rattle.jscan.specs.Image.{greatest_image, block_count};
ghost use Rattle.jinfo.specs.Infos.{info_of};
ghost use Rattle.jcalls.specs.Asked.{asked_order};
ghost use Rattle.jcalls.specs.Counting as counting;
ghost use Rattle.jcalls.specs.Counting.{CountsBy, CountRefused};
ghost use Rattle.jcalls.specs.InfoRows as rows;
ghost use Rattle.jcalls.specs.Shown.{IsDueFault};
ghost use Rattle.jcalls.specs.Told.{told_by};

use crate::how::How;
use crate::rows::{Counted, InfoRow};
use crate::told::{Fault, OK, TOO_LARGE, Told, scan_told, tell};
use byteorder::{BigEndian, LittleEndian};
use jinfo::{Info, SizeRange};
use jnode::{Endian, Order};
use jscan::{Counts, GREATEST_IMAGE, Geometry, ImageExtents};

/// The checksum that nodes bear, of bytes.
pub fn crc(bytes: &[u8]) -> u32
    ensures { result ≡ crc_of bytes.now }
{
    flashbase::crc(bytes)
}

/// Counts what an image contains, in one byte order.
fn count_in<E: Order>(image: &[u8], block: u32) -> Result<Counts, Told>
    ensures ok { IfOk result (CountsBy E.order block image.now) }
    ensures err { IfErr result (IsDueFault (CountRefused block image.now)) }
{
    let extents = match ImageExtents::<E>::new(image, Geometry { block }) {
        Ok(extents) => extents,
        Err(why) => return Err(scan_told(why)),
    };
    let mut counts = Counts {
        blocks: (image.len() as u64).div_ceil(u64::from(block)),
        entries: 0,
        inodes: 0,
        findings: 0,
    };
    for extent in extents {
        counts.add(&extent.kind);
    }
    Ok(counts)
}

fn count(image: &[u8], how: How) -> Result<Counts, Told>
    ensures ok { IfOk result (CountsBy (asked_order how) how.block image.now) }
    ensures err { IfErr result (IsDueFault (CountRefused how.block image.now)) }
{
    if how.is_big() {
        count_in::<BigEndian>(image, how.block)
    } else {
        count_in::<LittleEndian>(image, how.block)
    }
}

fn counted_row(counts: Counts) -> Counted
    ensures { result ≡ counting.counted_row counts }
{
    Counted {
        blocks: counts.blocks,
        entries: counts.entries,
        inodes: counts.inodes,
        findings: counts.findings,
    }
}

/// Counts what an image contains: its blocks, its sound entry and inode nodes, and its findings.
///
/// # Errors
/// 1: the block size is not read. 2: the image is too long. `counted` is then as it was.
pub fn check(image: &[u8], how: How, counted: &mut Counted, fault: &mut Fault) -> u32
    ensures done { result ≡ 0
        → counting.CountsAsked (asked_order how) how.block image.now counted.new }
    ensures refused { result ≢ 0 → CountRefused how.block image.now (told_by result fault.new) }
    ensures kept { result ≢ 0 → counted.new ≡ counted.old }
    ensures quiet { result ≡ 0 → fault.new ≡ fault.old }
{
    match count(image, how) {
        Ok(counts) => {
            *counted = counted_row(counts);
            OK
        }
        Err(told) => tell(told, fault),
    }
}

fn order_number(order: Option<Endian>) -> u32
    ensures { result ≡ rows.order_number order }
{
    match order {
        None => 0,
        Some(Endian::Little) => 1,
        Some(Endian::Big) => 2,
    }
}

fn sizes_or_none(sizes: Option<SizeRange>) -> SizeRange
    ensures { result ≡ rows.sizes_or_none sizes }
{
    match sizes {
        Some(sizes) => sizes,
        None => SizeRange {
            least: 0,
            greatest: 0,
        },
    }
}

fn info_row(info: &Info) -> InfoRow
    ensures { result ≡ rows.info_row info.now }
{
    let sizes = sizes_or_none(info.census.sizes);
    InfoRow {
        bytes: info.bytes,
        order: order_number(info.order),
        least_block: sizes.least,
        greatest_block: sizes.greatest,
        highest_inode: info.census.highest.ino,
        highest_version: info.census.highest.version,
        spare: 0,
        markers: info.census.markers,
        nodes: info.census.nodes.all,
        other_order: info.other,
        entries: info.census.nodes.entries,
        inodes: info.census.nodes.inodes,
        obsolete: info.census.nodes.obsolete,
        damaged: info.census.nodes.damaged,
        other: info.census.nodes.other,
        data_none: info.census.storage.none,
        data_zero: info.census.storage.zero,
        data_rtime: info.census.storage.rtime,
        data_zlib: info.census.storage.zlib,
        data_lzo: info.census.storage.lzo,
        data_lzma: info.census.storage.lzma,
        data_other: info.census.storage.other,
    }
}

/// What an image tells of itself where nobody says its byte order or its block size.
///
/// # Errors
/// 2: the image is too long. `told` is then as it was.
pub fn info(image: &[u8], told: &mut InfoRow) -> u32
    ensures done { result ≡ 0 → told.new ≡ rows.info_row (info_of image.now) }
    ensures too_large { result ≡ 2 ↔ greatest_image < length image.now }
    ensures no_other { (result ≡ 0) ⊎ (result ≡ 2) }
    ensures kept { result ≢ 0 → told.new ≡ told.old }
{
    if GREATEST_IMAGE < image.len() {
        return TOO_LARGE;
    }
    *told = info_row(&jinfo::info_of(image));
    OK
}
