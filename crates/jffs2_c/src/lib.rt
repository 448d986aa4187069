//! Calls for C, over bytes of the caller: an image in, the answer into memory of the caller. Each
//! is one of `jcalls`, with its clauses; bindings/c/jffs2.h declares them.
#![tactic(auto)]

ghost use Rattle.std.specs.Prelude.{◌≡◌, ◌≢◌, ◌<◌, ◌↔◌, ◌⊎◌, false, true, Ok, length};
ghost use Rattle.flashbase.specs.Crc.{crc_of};
ghost use Rattle.jscan.specs.Image.{greatest_image};
ghost use Rattle.jinfo.specs.Infos.{info_of};
ghost use Rattle.jmount.specs.Find as walk;
ghost use Rattle.jmount.specs.Tree.{State};
ghost use Rattle.jcalls.specs.Appending.{AppendRefused, GivesAppended, NeedsForAppended};
ghost use Rattle.jcalls.specs.Asked.{asked_order, is_asked};
ghost use Rattle.jcalls.specs.Compacting.{CompactRefused, IsCompacted};
ghost use Rattle.jcalls.specs.Counting.{CountsAsked, CountRefused};
ghost use Rattle.jcalls.specs.Cutting.{AreCutsAsked, CutsRefused};
ghost use Rattle.jcalls.specs.Filling.{GivesRows, NeedsForRows};
ghost use Rattle.jcalls.specs.FindingRows.{finding_rows};
ghost use Rattle.jcalls.specs.InfoRows.{info_row};
ghost use Rattle.jcalls.specs.Keeping.{IsObjectOf, LacksObject, StaysAs};
ghost use Rattle.jcalls.specs.Looking.{LeadsNowhere, Stats, StatRefused, ReadsAt, GivesTree, NeedsForTree};
ghost use Rattle.jcalls.specs.Made.{IsDecompressed, IsCompressed, DecompressRefused, CompressRefused, GivesMade, NeedsForMade};
ghost use Rattle.jcalls.specs.Many.{GivesMany, NeedsForMany};
ghost use Rattle.jcalls.specs.NodeRows.{node_rows};
ghost use Rattle.jcalls.specs.Shown.{RefusesBy, Shows, ShowsBy, ShowsNone};
ghost use Rattle.jcalls.specs.Texts.{IsListing, IsReport, ReportRefused};
ghost use Rattle.jcalls.specs.Told.{told_by};
ghost use Rattle.jcalls.specs.Updating.{GivesUpdated, NeedsForUpdated, UpdateRefused};
ghost use Rattle.jcalls.specs.Works.{listed_with};

use jcalls::{
    Counted, DeviceWork, Entry, Fault, FileRow, Files, FindingRow, Handle, How, InfoRow, Needed,
    NodeRow, Place, Request, Stat, Target, Work, Written,
};
use std::alloc::Global;

/// The checksum that nodes bear, of bytes. It takes no memory.
#[unsafe(no_mangle)]
pub extern "C" fn jffs2_crc(bytes: &[u8]) -> u32
    ensures { result ≡ crc_of bytes.now }
{
    jcalls::crc(bytes)
}

/// What an image tells of itself. It takes no memory.
#[unsafe(no_mangle)]
pub extern "C" fn jffs2_info(image: &[u8], info: &mut InfoRow) -> u32
    ensures done { result ≡ 0 → info.new ≡ info_row (info_of image.now) }
    ensures too_large { result ≡ 2 ↔ greatest_image < length image.now }
    ensures no_other { (result ≡ 0) ⊎ (result ≡ 2) }
    ensures kept { result ≢ 0 → info.new ≡ info.old }
{
    jcalls::info(image, info)
}

/// Counts what an image contains. It takes no memory.
#[unsafe(no_mangle)]
pub extern "C" fn jffs2_check(
    image: &[u8],
    how: &How,
    counted: &mut Counted,
    fault: &mut Fault,
) -> u32
    ensures done { result ≡ 0
        → CountsAsked (asked_order how.now) how.now.block image.now counted.new }
    ensures refused { result ≢ 0
        → CountRefused how.now.block image.now (told_by result fault.new) }
    ensures kept { result ≢ 0 → counted.new ≡ counted.old }
    ensures quiet { result ≡ 0 → fault.new ≡ fault.old }
{
    jcalls::check(image, *how, counted, fault)
}

/// The findings of an image, as rows. It takes no memory.
#[unsafe(no_mangle)]
pub extern "C" fn jffs2_findings(
    image: &[u8],
    how: &How,
    rows: &mut [FindingRow],
    needed: &mut usize,
    fault: &mut Fault,
) -> u32
    ensures done { result ≡ 0
        → GivesRows (finding_rows (asked_order how.now) how.now.block image.now)
        rows.old rows.new needed.new }
    ensures small { result ≡ 9
        → NeedsForRows (finding_rows (asked_order how.now) how.now.block image.now)
        rows.old needed.new }
    ensures refused { result ≢ 0 → result ≢ 9
        → CountRefused how.now.block image.now (told_by result fault.new) }
    ensures kept { result ≢ 0 → rows.new ≡ rows.old }
    ensures needed_kept { result ≢ 0 → result ≢ 9 → needed.new ≡ needed.old }
    ensures quiet { (result ≡ 0) ⊎ (result ≡ 9) → fault.new ≡ fault.old }
{
    jcalls::findings(image, *how, rows, needed, fault)
}

/// The nodes of an image, as rows. It takes no memory.
#[unsafe(no_mangle)]
pub extern "C" fn jffs2_nodes(
    image: &[u8],
    how: &How,
    rows: &mut [NodeRow],
    needed: &mut usize,
    fault: &mut Fault,
) -> u32
    ensures done { result ≡ 0
        → GivesRows (node_rows (asked_order how.now) how.now.block image.now)
        rows.old rows.new needed.new }
    ensures small { result ≡ 9
        → NeedsForRows (node_rows (asked_order how.now) how.now.block image.now)
        rows.old needed.new }
    ensures refused { result ≢ 0 → result ≢ 9
        → CountRefused how.now.block image.now (told_by result fault.new) }
    ensures kept { result ≢ 0 → rows.new ≡ rows.old }
    ensures needed_kept { result ≢ 0 → result ≢ 9 → needed.new ≡ needed.old }
    ensures quiet { (result ≡ 0) ⊎ (result ≡ 9) → fault.new ≡ fault.old }
{
    jcalls::nodes(image, *how, rows, needed, fault)
}

/// What a path leads to.
#[unsafe(no_mangle)]
pub extern "C" fn jffs2_stat(
    alloc: Global,
    image: &[u8],
    how: &How,
    path: &[u8],
    stat: &mut Stat,
    fault: &mut Fault,
) -> u32
    ensures done { result ≡ 0 → Stats how.now image.now path.now stat.new }
    ensures refused { result ≢ 0
        → StatRefused how.now image.now path.now (told_by result fault.new) }
    ensures kept { result ≢ 0 → stat.new ≡ stat.old }
    ensures quiet { result ≡ 0 → fault.new ≡ fault.old }
{
    jcalls::stat(alloc, image, *how, path, stat, fault)
}

/// The bytes of an object from an offset on, as many as there is room for.
#[unsafe(no_mangle)]
pub extern "C" fn jffs2_read(
    alloc: Global,
    image: &[u8],
    how: &How,
    number: u32,
    offset: u64,
    out: &mut [u8],
    got: &mut usize,
    fault: &mut Fault,
) -> u32
    ensures done { result ≡ 0 → (s : State) × Shows how.now image.now s
        × ReadsAt s number offset out.old out.new got.new }
    ensures refused { result ≢ 0 → ShowsNone how.now image.now (told_by result fault.new) }
    ensures kept { result ≢ 0 → out.new ≡ out.old }
    ensures got_kept { result ≢ 0 → got.new ≡ got.old }
    ensures quiet { result ≡ 0 → fault.new ≡ fault.old }
{
    jcalls::read(
        alloc,
        image,
        *how,
        Place { number, offset },
        out,
        got,
        fault,
    )
}

/// The bytes of many objects, by one mount.
#[unsafe(no_mangle)]
pub extern "C" fn jffs2_read_many(
    alloc: Global,
    image: &[u8],
    how: &How,
    requests: &mut [Request],
    out: &mut [u8],
    needed: &mut usize,
    fault: &mut Fault,
) -> u32
    ensures done { result ≡ 0 → (s : State) × Shows how.now image.now s
        × GivesMany s requests.old requests.new out.old out.new needed.new }
    ensures small { result ≡ 9 → (s : State) × Shows how.now image.now s
        × NeedsForMany s requests.old out.old needed.new }
    ensures refused { result ≢ 0 → result ≢ 9
        → ShowsNone how.now image.now (told_by result fault.new) }
    ensures rows_kept { result ≢ 0 → requests.new ≡ requests.old }
    ensures kept { result ≢ 0 → out.new ≡ out.old }
    ensures needed_kept { result ≢ 0 → result ≢ 9 → needed.new ≡ needed.old }
    ensures quiet { (result ≡ 0) ⊎ (result ≡ 9) → fault.new ≡ fault.old }
{
    jcalls::read_many(alloc, image, *how, requests, out, needed, fault)
}

/// All names, as rows and as bytes.
#[unsafe(no_mangle)]
pub extern "C" fn jffs2_tree(
    alloc: Global,
    image: &[u8],
    how: &How,
    rows: &mut [Entry],
    names: &mut [u8],
    needed: &mut Needed,
    fault: &mut Fault,
) -> u32
    ensures done { result ≡ 0 → (s : State) × Shows how.now image.now s
        × GivesTree s rows.old rows.new names.old names.new needed.new }
    ensures small { result ≡ 9 → (s : State) × Shows how.now image.now s
        × NeedsForTree s rows.old names.old needed.new }
    ensures refused { result ≢ 0 → result ≢ 9
        → ShowsNone how.now image.now (told_by result fault.new) }
    ensures rows_kept { result ≢ 0 → rows.new ≡ rows.old }
    ensures names_kept { result ≢ 0 → names.new ≡ names.old }
    ensures needed_kept { result ≢ 0 → result ≢ 9 → needed.new ≡ needed.old }
    ensures quiet { (result ≡ 0) ⊎ (result ≡ 9) → fault.new ≡ fault.old }
{
    jcalls::tree(alloc, image, *how, rows, names, needed, fault)
}

/// The lines that `ls` prints of the object that a path names, and of what lies below it.
#[unsafe(no_mangle)]
pub extern "C" fn jffs2_tree_text(
    alloc: Global,
    image: &[u8],
    how: &How,
    path: &[u8],
    out: &mut [u8],
    needed: &mut usize,
    fault: &mut Fault,
) -> u32
    ensures done { result ≡ 0 → (s : State) × Shows how.now image.now s
        × GivesMade (IsListing s path.now) out.old out.new needed.new }
    ensures small { result ≡ 9 → (s : State) × Shows how.now image.now s
        × NeedsForMade (IsListing s path.now) out.old needed.new }
    ensures refused { result ≢ 0 → result ≢ 9
        → StatRefused how.now image.now path.now (told_by result fault.new) }
    ensures kept { result ≢ 0 → out.new ≡ out.old }
    ensures needed_kept { result ≢ 0 → result ≢ 9 → needed.new ≡ needed.old }
    ensures quiet { (result ≡ 0) ⊎ (result ≡ 9) → fault.new ≡ fault.old }
{
    jcalls::tree_text(alloc, image, *how, path, out, needed, fault)
}

/// What `check` prints of an image.
#[unsafe(no_mangle)]
pub extern "C" fn jffs2_check_text(
    alloc: Global,
    image: &[u8],
    how: &How,
    shape: u32,
    out: &mut [u8],
    needed: &mut usize,
    fault: &mut Fault,
) -> u32
    ensures done { result ≡ 0
        → GivesMade (IsReport (asked_order how.now) how.now.block (is_asked shape) image.now)
        out.old out.new needed.new }
    ensures small { result ≡ 9
        → NeedsForMade (IsReport (asked_order how.now) how.now.block (is_asked shape) image.now)
        out.old needed.new }
    ensures refused { result ≢ 0 → result ≢ 9
        → ReportRefused how.now.block image.now (told_by result fault.new) }
    ensures kept { result ≢ 0 → out.new ≡ out.old }
    ensures needed_kept { result ≢ 0 → result ≢ 9 → needed.new ≡ needed.old }
    ensures quiet { (result ≡ 0) ⊎ (result ≡ 9) → fault.new ≡ fault.old }
{
    jcalls::check_text(alloc, image, *how, shape, out, needed, fault)
}

/// The image of the same nodes, whose data are not compressed.
#[unsafe(no_mangle)]
pub extern "C" fn jffs2_decompress(
    alloc: Global,
    image: &[u8],
    how: &How,
    out: &mut [u8],
    needed: &mut usize,
    fault: &mut Fault,
) -> u32
    ensures done { result ≡ 0
        → GivesMade (IsDecompressed (asked_order how.now) how.now.block image.now)
        out.old out.new needed.new }
    ensures small { result ≡ 9
        → NeedsForMade (IsDecompressed (asked_order how.now) how.now.block image.now)
        out.old needed.new }
    ensures refused { result ≢ 0 → result ≢ 9
        → DecompressRefused (asked_order how.now) how.now.block image.now
        (told_by result fault.new) }
    ensures kept { result ≢ 0 → out.new ≡ out.old }
    ensures needed_kept { result ≢ 0 → result ≢ 9 → needed.new ≡ needed.old }
    ensures quiet { (result ≡ 0) ⊎ (result ≡ 9) → fault.new ≡ fault.old }
{
    jcalls::decompress(alloc, image, *how, out, needed, fault)
}

/// An image of the same nodes, compressed where that is shorter.
#[unsafe(no_mangle)]
pub extern "C" fn jffs2_compress(
    alloc: Global,
    image: &[u8],
    how: &How,
    out: &mut [u8],
    needed: &mut usize,
    fault: &mut Fault,
) -> u32
    ensures done { result ≡ 0
        → GivesMade (IsCompressed (asked_order how.now) how.now.block image.now)
        out.old out.new needed.new }
    ensures small { result ≡ 9
        → NeedsForMade (IsCompressed (asked_order how.now) how.now.block image.now)
        out.old needed.new }
    ensures refused { result ≢ 0 → result ≢ 9
        → CompressRefused (asked_order how.now) how.now.block image.now
        (told_by result fault.new) }
    ensures kept { result ≢ 0 → out.new ≡ out.old }
    ensures needed_kept { result ≢ 0 → result ≢ 9 → needed.new ≡ needed.old }
    ensures quiet { (result ≡ 0) ⊎ (result ≡ 9) → fault.new ≡ fault.old }
{
    jcalls::compress(alloc, image, *how, out, needed, fault)
}

/// An image of the nodes alone that matter, on an erased flash of so many blocks.
#[unsafe(no_mangle)]
pub extern "C" fn jffs2_compact(
    alloc: Global,
    image: &[u8],
    how: &How,
    blocks: u32,
    out: &mut [u8],
    needed: &mut usize,
    fault: &mut Fault,
) -> u32
    ensures done { result ≡ 0
        → GivesMade (IsCompacted (asked_order how.now) how.now.block blocks image.now)
        out.old out.new needed.new }
    ensures small { result ≡ 9
        → NeedsForMade (IsCompacted (asked_order how.now) how.now.block blocks image.now)
        out.old needed.new }
    ensures refused { result ≢ 0 → result ≢ 9
        → CompactRefused (asked_order how.now) how.now.block blocks image.now
        (told_by result fault.new) }
    ensures kept { result ≢ 0 → out.new ≡ out.old }
    ensures needed_kept { result ≢ 0 → result ≢ 9 → needed.new ≡ needed.old }
    ensures quiet { (result ≡ 0) ⊎ (result ≡ 9) → fault.new ≡ fault.old }
{
    jcalls::compact(alloc, image, *how, blocks, out, needed, fault)
}

/// What `cuts` prints of the operations of a listing on an image.
#[unsafe(no_mangle)]
pub extern "C" fn jffs2_cuts(
    alloc: Global,
    image: &[u8],
    how: &How,
    target: &Target,
    listing: &[u8],
    files: &[u8],
    rows: &[FileRow],
    out: &mut [u8],
    needed: &mut usize,
    fault: &mut Fault,
) -> u32
    ensures done { result ≡ 0 → GivesMade (AreCutsAsked how.now image.now target.now
        (listed_with listing.now files.now rows.now)) out.old out.new needed.new }
    ensures small { result ≡ 9 → NeedsForMade (AreCutsAsked how.now image.now target.now
        (listed_with listing.now files.now rows.now)) out.old needed.new }
    ensures refused { result ≢ 0 → result ≢ 9 → CutsRefused how.now image.now target.now
        (listed_with listing.now files.now rows.now) (told_by result fault.new) }
    ensures kept { result ≢ 0 → out.new ≡ out.old }
    ensures needed_kept { result ≢ 0 → result ≢ 9 → needed.new ≡ needed.old }
    ensures quiet { (result ≡ 0) ⊎ (result ≡ 9) → fault.new ≡ fault.old }
{
    let work = Work {
        target: *target,
        listing,
        files: Files { bytes: files, rows },
    };
    jcalls::cuts(alloc, image, *how, work, out, needed, fault)
}

/// An image with what the operations of a listing write behind its nodes.
#[unsafe(no_mangle)]
pub extern "C" fn jffs2_append(
    alloc: Global,
    image: &[u8],
    how: &How,
    target: &Target,
    listing: &[u8],
    files: &[u8],
    rows: &[FileRow],
    out: &mut [u8],
    written: &mut Written,
    fault: &mut Fault,
) -> u32
    ensures done { result ≡ 0 → GivesAppended how.now image.now target.now
        (listed_with listing.now files.now rows.now) out.old out.new written.new }
    ensures small { result ≡ 9 → NeedsForAppended how.now image.now target.now
        (listed_with listing.now files.now rows.now) out.old written.new }
    ensures refused { result ≢ 0 → result ≢ 9 → AppendRefused how.now image.now target.now
        (listed_with listing.now files.now rows.now) (told_by result fault.new) }
    ensures kept { result ≢ 0 → out.new ≡ out.old }
    ensures written_kept { result ≢ 0 → result ≢ 9 → written.new ≡ written.old }
    ensures quiet { (result ≡ 0) ⊎ (result ≡ 9) → fault.new ≡ fault.old }
{
    let work = Work {
        target: *target,
        listing,
        files: Files { bytes: files, rows },
    };
    jcalls::append(alloc, image, *how, work, out, written, fault)
}

/// An image with what the operations of a listing write in its openings.
#[unsafe(no_mangle)]
pub extern "C" fn jffs2_update(
    alloc: Global,
    image: &[u8],
    how: &How,
    target: &Target,
    pack: u32,
    listing: &[u8],
    files: &[u8],
    rows: &[FileRow],
    out: &mut [u8],
    written: &mut Written,
    fault: &mut Fault,
) -> u32
    ensures done { result ≡ 0 → GivesUpdated how.now image.now target.now pack
        (listed_with listing.now files.now rows.now) out.old out.new written.new }
    ensures small { result ≡ 9 → NeedsForUpdated how.now image.now target.now pack
        (listed_with listing.now files.now rows.now) out.old written.new }
    ensures refused { result ≢ 0 → result ≢ 9 → UpdateRefused how.now image.now target.now
        (listed_with listing.now files.now rows.now) (told_by result fault.new) }
    ensures kept { result ≢ 0 → out.new ≡ out.old }
    ensures written_kept { result ≢ 0 → result ≢ 9 → written.new ≡ written.old }
    ensures quiet { (result ≡ 0) ⊎ (result ≡ 9) → fault.new ≡ fault.old }
{
    let work = Work {
        target: *target,
        listing,
        files: Files { bytes: files, rows },
    };
    jcalls::update(
        alloc,
        image,
        *how,
        DeviceWork { work, pack },
        out,
        written,
        fault,
    )
}

/// Mounts an image and keeps the mount in a handle until it is closed. The image has to stay as it
/// is until then.
#[unsafe(no_mangle)]
pub extern "C" fn jffs2_open(
    alloc: Global,
    image: &'static [u8],
    how: &How,
    handle: &mut Handle,
    fault: &mut Fault,
) -> u32
    ensures opened { result ≡ 0 → handle.new.is_open ≡ true }
    ensures done { result ≡ 0 → ShowsBy false (asked_order how.now) how.now.block image.now
        handle.new.value.state }
    ensures refused { result ≢ 0 → RefusesBy false (asked_order how.now) how.now.block image.now
        (told_by result fault.new) }
    ensures kept { result ≢ 0 → handle.new ≡ handle.old }
    ensures quiet { result ≡ 0 → fault.new ≡ fault.old }
{
    jcalls::open(alloc, image, *how, handle, fault)
}

/// Drops the mount of a handle, if it has one.
#[unsafe(no_mangle)]
pub extern "C" fn jffs2_close(alloc: Global, handle: &mut Handle) -> u32
    ensures closed { handle.new.is_open ≡ false }
    ensures done { result ≡ 0 }
{
    jcalls::close(alloc, handle)
}

/// The number that a path leads to in a mount that is kept.
#[unsafe(no_mangle)]
pub extern "C" fn jffs2_find(
    alloc: Global,
    handle: &mut Handle,
    path: &[u8],
    number: &mut u32,
    fault: &mut Fault,
) -> u32
    ensures open { result ≡ 0 → handle.old.is_open ≡ true }
    ensures done { result ≡ 0 → walk.find handle.old.value.state path.now ≡ Ok number.new }
    ensures closed { handle.old.is_open ≡ false → result ≡ 34 }
    ensures refused { result ≢ 0 → handle.old.is_open ≡ true
        → LeadsNowhere handle.old.value.state path.now (told_by result fault.new) }
    ensures stays { StaysAs handle.old handle.new }
    ensures kept { result ≢ 0 → number.new ≡ number.old }
    ensures quiet { result ≡ 0 → fault.new ≡ fault.old }
{
    jcalls::find(alloc, handle, path, number, fault)
}

/// The object of a number.
#[unsafe(no_mangle)]
pub extern "C" fn jffs2_object(
    alloc: Global,
    handle: &mut Handle,
    number: u32,
    row: &mut Stat,
) -> u32
    ensures open { result ≡ 0 → handle.old.is_open ≡ true }
    ensures done { result ≡ 0 → IsObjectOf handle.old.value.state number row.new }
    ensures closed { handle.old.is_open ≡ false → result ≡ 34 }
    ensures refused { result ≢ 0 → handle.old.is_open ≡ true
        → (result ≡ 11) × LacksObject handle.old.value.state number }
    ensures stays { StaysAs handle.old handle.new }
    ensures kept { result ≢ 0 → row.new ≡ row.old }
{
    jcalls::object(alloc, handle, number, row)
}

/// The bytes of an object from an offset on, as many as there is room for.
#[unsafe(no_mangle)]
pub extern "C" fn jffs2_read_kept(
    alloc: Global,
    handle: &mut Handle,
    number: u32,
    offset: u64,
    out: &mut [u8],
    got: &mut usize,
) -> u32
    ensures open { result ≡ 0 → handle.old.is_open ≡ true }
    ensures done { result ≡ 0
        → ReadsAt handle.old.value.state number offset out.old out.new got.new }
    ensures closed { handle.old.is_open ≡ false → result ≡ 34 }
    ensures no_other { result ≢ 0 → handle.old.is_open ≡ false }
    ensures stays { StaysAs handle.old handle.new }
    ensures kept { result ≢ 0 → out.new ≡ out.old }
    ensures got_kept { result ≢ 0 → got.new ≡ got.old }
{
    let place = Place { number, offset };
    jcalls::read_kept(alloc, handle, place, out, got)
}
