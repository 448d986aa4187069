//! What the matches of the program's command line ask for.
ghost use Rattle.std.specs.Prelude.{◌≡◌, codes, map, option_map};
ghost use Rattle.clap.specs.Words.{found_of, rows_of, all_of, first_of};
ghost use Rattle.jcommand.specs.Parsed.{append_in, block_size_in, build_in, cat_in, check_in, command_view, compact_in, conversion_in, conversion_view, cuts_in, damage_in, decimal_number, decompress_in, diff_in, endian_of, extract_in, folder_in, folder_view, history_in, if_given, image_in, image_view, info_in, inode_content_in, is_apart, is_given, is_on_inode, is_on_path, is_path_beside_deleted, log_cuts_in, ls_in, map_in, number_option, options_in, order_in, order_named, output_in, owner_number, owner_of, pack_in, page_of, parsed, path_content_in, placing_in, target_in, target_view, tree_in, update_cuts_in, update_in, verify_in, version_by};
ghost use Rattle.jcommand.specs.Requests.{are_options_given, has_no_second_read, is_contrary, is_region_given, region_in, request_of, request_view};

use crate::parsed::{
    Appending, Building, Check, Command, Compaction, Comparison, Conversion, Cuts, CutsThrough,
    Examination, Extraction, FileContent, FolderListing, Image, InodeContent, Mapping, NodeHistory,
    Options, Owner, Packing, Placing, Target, TreeListing, UpdateCuts, Updating, Verification,
};
use crate::region::region;
use crate::request::Request;
use crate::sizes::size;
use clap::ArgMatches;
use jnode::Endian;
use jscan::{Geometry, Page};
use jspare::Region;

/// A number below 2^32 in decimal digits.
pub(crate) fn number(text: &str) -> Option<u32>
    ensures { result ≡ decimal_number text.now }
{
    if text.is_empty() {
        return None;
    }
    let mut n = 0u64;
    for byte in text.as_bytes() {
        if !byte.is_ascii_digit() {
            return None;
        }
        let more = 10 * n + u64::from(*byte - b'0');
        if more >= 0x1_0000_0000 {
            return None;
        }
        n = more;
    }
    Some(n as u32)
}

/// A byte order by its name.
pub(crate) fn endian(text: &str) -> Option<Endian>
    ensures { result ≡ endian_of text.now }
{
    match text {
        "little" => Some(Endian::Little),
        "big" => Some(Endian::Big),
        _ => None,
    }
}

/// A page by its size in bytes.
pub(crate) fn page(text: &str) -> Option<Page>
    ensures { result ≡ page_of text.now }
{
    match text {
        "4096" => Some(Page::P4096),
        "8192" => Some(Page::P8192),
        "16384" => Some(Page::P16384),
        _ => None,
    }
}

/// The number of a user or a group.
pub(crate) fn owner_number(text: &str) -> Option<u16>
    ensures { result ≡ owner_number text.now }
{
    let n = number(text)?;
    if n > 65535 { None } else { Some(n as u16) }
}

/// The value of an option or a word.
pub(crate) fn text_at<'a>(found: &ArgMatches<'a>, id: &str) -> Option<&'a str>
    ensures { option_map (λ s. s.now) result ≡ first_of id.now (rows_of (found_of found.now)) }
{
    found.get_str(id)
}

fn number_at(found: &ArgMatches<'_>, id: &str) -> Option<u32>
    ensures { result ≡ number_option id.now (rows_of (found_of found.now)) }
{
    number(text_at(found, id)?)
}

/// Whether a flag is given.
pub(crate) fn is_given(found: &ArgMatches<'_>, id: &str) -> bool
    ensures { result ≡ is_given id.now (rows_of (found_of found.now)) }
{
    match text_at(found, id) {
        Some(text) => text == "true",
        None => false,
    }
}

/// The byte order of this name, or little.
fn order_named(name: Option<&str>) -> Option<Endian>
    ensures { result ≡ order_named (option_map (λ n. n.now) name.entry) }
{
    match name {
        Some(text) => endian(text),
        None => Some(Endian::Little),
    }
}

/// The byte order by one of its options, of which two say nothing.
pub(crate) fn order_at(found: &ArgMatches<'_>) -> Option<Endian>
    ensures { result ≡ order_in (rows_of (found_of found.now)) }
{
    let named = text_at(found, "endian");
    let little = is_given(found, "little-endian");
    let big = is_given(found, "big-endian");
    match (little, big) {
        (false, false) => order_named(named),
        (true, false) if named.is_none() => Some(Endian::Little),
        (false, true) if named.is_none() => Some(Endian::Big),
        _ => None,
    }
}

/// The size of a block, or 65536.
pub(crate) fn size_at(found: &ArgMatches<'_>) -> Option<u32>
    ensures { result ≡ block_size_in (rows_of (found_of found.now)) }
{
    match text_at(found, "block") {
        Some(text) => size(text),
        None => Some(65536),
    }
}

fn options_at(found: &ArgMatches<'_>) -> Option<Options>
    ensures { result ≡ options_in (rows_of (found_of found.now)) }
{
    let block = size_at(found)?;
    let endian = order_at(found)?;
    Some(Options {
        geometry: Geometry { block },
        endian,
    })
}

/// What is done about the file that is written.
fn placing_at(found: &ArgMatches<'_>) -> Placing
    ensures { result ≡ placing_in (rows_of (found_of found.now)) }
{
    Placing {
        pad: is_given(found, "pad"),
        atomic: is_given(found, "atomic"),
    }
}

/// The file that is written, which is named in its place, or by `-o`.
fn output_at<'a>(found: &ArgMatches<'a>) -> Option<&'a str>
    ensures { option_map (λ t. t.now) result ≡ output_in (rows_of (found_of found.now)) }
{
    match (text_at(found, "OUT"), text_at(found, "output")) {
        (None, named) => named,
        (placed, None) => placed,
        (Some(_), Some(_)) => None,
    }
}

/// The options and the image that a subcommand reads.
fn image_at<'a>(found: &ArgMatches<'a>) -> Option<Image<&'a str>>
    ensures { option_map image_view result ≡ image_in (rows_of (found_of found.now)) }
{
    Some(Image {
        options: options_at(found)?,
        image: text_at(found, "IMAGE")?,
    })
}

fn check_at<'a>(found: &ArgMatches<'a>) -> Option<Command<&'a str>>
    ensures { option_map command_view result ≡ check_in (rows_of (found_of found.now)) }
{
    let asked = image_at(found)?;
    if is_given(found, "scan") {
        return Some(Command::Scan(asked));
    }
    let check = Check {
        options: asked.options,
        shape: is_given(found, "shape"),
        image: asked.image,
    };
    Some(match is_given(found, "decompress") {
        true => Command::CheckThrough(check),
        false => Command::Check(check),
    })
}

fn ls_at<'a>(found: &ArgMatches<'a>) -> Option<Command<&'a str>>
    ensures { option_map command_view result ≡ ls_in (rows_of (found_of found.now)) }
{
    let Image { options, image } = image_at(found)?;
    Some(Command::List(TreeListing {
        options,
        decompress: is_given(found, "decompress"),
        image,
        path: text_at(found, "PATH"),
    }))
}

/// The content of the file of a path.
fn path_content_at<'a>(found: &ArgMatches<'a>) -> Option<Command<&'a str>>
    ensures { option_map command_view result ≡ path_content_in (rows_of (found_of found.now)) }
{
    let Image { options, image } = image_at(found)?;
    Some(Command::Cat(FileContent {
        options,
        decompress: is_given(found, "decompress"),
        strict: is_given(found, "strict"),
        image,
        path: text_at(found, "PATH")?,
    }))
}

/// A version, without which all count.
fn version(text: Option<&str>) -> Option<u32>
    ensures { result ≡ version_by (option_map (λ t. t.now) text.entry) }
{
    match text {
        None => Some(u32::MAX),
        Some(text) => number(text),
    }
}

/// The content of an inode.
fn inode_content_at<'a>(found: &ArgMatches<'a>) -> Option<Command<&'a str>>
    ensures { option_map command_view result ≡ inode_content_in (rows_of (found_of found.now)) }
{
    let Image { options, image } = image_at(found)?;
    Some(Command::CatInode(InodeContent {
        options,
        image,
        ino: number_at(found, "ino")?,
        version: version(text_at(found, "upto"))?,
    }))
}

/// Whether no inode is asked for.
pub(crate) fn is_on_path(found: &ArgMatches<'_>) -> bool
    ensures { result ≡ is_on_path (rows_of (found_of found.now)) }
{
    text_at(found, "ino").is_none() && text_at(found, "upto").is_none()
}

/// Whether no word is given that says nothing beside an inode.
fn is_on_inode(found: &ArgMatches<'_>) -> bool
    ensures { result ≡ is_on_inode (rows_of (found_of found.now)) }
{
    text_at(found, "PATH").is_none() && !is_given(found, "decompress") && !is_given(found, "strict")
}

fn cat_at<'a>(found: &ArgMatches<'a>) -> Option<Command<&'a str>>
    ensures { option_map command_view result ≡ cat_in (rows_of (found_of found.now)) }
{
    if is_on_path(found) {
        return path_content_at(found);
    }
    if is_on_inode(found) {
        inode_content_at(found)
    } else {
        None
    }
}

fn info_at<'a>(found: &ArgMatches<'a>) -> Option<Command<&'a str>>
    ensures { option_map command_view result ≡ info_in (rows_of (found_of found.now)) }
{
    Some(Command::Info {
        image: text_at(found, "IMAGE")?,
    })
}

fn diff_at<'a>(found: &ArgMatches<'a>) -> Option<Command<&'a str>>
    ensures { option_map command_view result ≡ diff_in (rows_of (found_of found.now)) }
{
    Some(Command::Diff(Comparison {
        options: options_at(found)?,
        decompress: is_given(found, "decompress"),
        times: is_given(found, "times"),
        first: text_at(found, "A")?,
        second: text_at(found, "B")?,
    }))
}

fn damage_at<'a>(found: &ArgMatches<'a>) -> Option<Command<&'a str>>
    ensures { option_map command_view result ≡ damage_in (rows_of (found_of found.now)) }
{
    let Image { options, image } = image_at(found)?;
    Some(Command::Damage(Examination {
        options,
        decompress: is_given(found, "decompress"),
        image,
    }))
}

fn map_at<'a>(found: &ArgMatches<'a>) -> Option<Command<&'a str>>
    ensures { option_map command_view result ≡ map_in (rows_of (found_of found.now)) }
{
    let Image { options, image } = image_at(found)?;
    Some(Command::Map(Mapping {
        options,
        svg: is_given(found, "svg"),
        image,
    }))
}

fn history_at<'a>(found: &ArgMatches<'a>) -> Option<Command<&'a str>>
    ensures { option_map command_view result ≡ history_in (rows_of (found_of found.now)) }
{
    let Image { options, image } = image_at(found)?;
    Some(Command::History(NodeHistory {
        options,
        since: number_if_given(found, "since")?,
        until: number_if_given(found, "until")?,
        image,
        path: text_at(found, "PATH"),
    }))
}

/// The image that a subcommand writes.
fn target_at<'a>(found: &ArgMatches<'a>) -> Option<Target<&'a str>>
    ensures { option_map target_view result ≡ target_in (rows_of (found_of found.now)) }
{
    Some(Target {
        options: options_at(found)?,
        blocks: number_at(found, "blocks")?,
        page: page(text_at(found, "page")?)?,
        weak: is_given(found, "weak"),
        placing: placing_at(found),
        output: output_at(found)?,
    })
}

fn build_at<'a>(found: &ArgMatches<'a>) -> Option<Command<&'a str>>
    ensures { option_map command_view result ≡ build_in (rows_of (found_of found.now)) }
{
    let building = Building {
        target: target_at(found)?,
        listing: text_at(found, "LISTING")?,
    };
    match (is_given(found, "compress"), building.target.weak) {
        (false, _) => Some(Command::Build(building)),
        (true, false) => Some(Command::BuildCompressed(building)),
        (true, true) => None,
    }
}

fn append_at<'a>(found: &ArgMatches<'a>) -> Option<Command<&'a str>>
    ensures { option_map command_view result ≡ append_in (rows_of (found_of found.now)) }
{
    Some(Command::Append(Appending {
        target: target_at(found)?,
        decompress: is_given(found, "decompress"),
        force: is_given(found, "force"),
        image: text_at(found, "IMAGE")?,
        listing: text_at(found, "LISTING")?,
    }))
}

fn update_at<'a>(found: &ArgMatches<'a>) -> Option<Command<&'a str>>
    ensures { option_map command_view result ≡ update_in (rows_of (found_of found.now)) }
{
    Some(Command::Update(Updating {
        options: options_at(found)?,
        blocks: number_if_given(found, "blocks")?,
        page: page(text_at(found, "page")?)?,
        plain: is_given(found, "plain"),
        tail: is_given(found, "tail"),
        placing: placing_at(found),
        image: text_at(found, "IMAGE")?,
        listing: text_at(found, "LISTING")?,
        output: output_at(found)?,
    }))
}

/// `cuts` of what `build` and `append` would write.
fn log_cuts_at<'a>(found: &ArgMatches<'a>) -> Option<Command<&'a str>>
    ensures { option_map command_view result ≡ log_cuts_in (rows_of (found_of found.now)) }
{
    let cuts = Cuts {
        options: options_at(found)?,
        blocks: number_at(found, "blocks")?,
        page: page(text_at(found, "page")?)?,
        on: text_at(found, "on"),
        listing: text_at(found, "LISTING")?,
    };
    let compress = is_given(found, "compress");
    Some(match compress || is_given(found, "decompress") {
        true => Command::CutsThrough(CutsThrough {
            options: cuts.options,
            blocks: cuts.blocks,
            page: cuts.page,
            compress,
            on: cuts.on,
            listing: cuts.listing,
        }),
        false => Command::Cuts(cuts),
    })
}

/// `cuts` of what `update` would write.
fn update_cuts_at<'a>(found: &ArgMatches<'a>) -> Option<Command<&'a str>>
    ensures { option_map command_view result ≡ update_cuts_in (rows_of (found_of found.now)) }
{
    let tail = is_given(found, "tail");
    Some(Command::CutsUpdate(UpdateCuts {
        options: options_at(found)?,
        blocks: number_if_given(found, "blocks")?,
        page: page(text_at(found, "page")?)?,
        plain: is_given(found, "plain"),
        tail,
        image: text_at(found, "on")?,
        listing: text_at(found, "LISTING")?,
    }))
}

fn cuts_at<'a>(found: &ArgMatches<'a>) -> Option<Command<&'a str>>
    ensures { option_map command_view result ≡ cuts_in (rows_of (found_of found.now)) }
{
    if is_given(found, "update") {
        if is_given(found, "compress") || is_given(found, "decompress") {
            return None;
        }
        return update_cuts_at(found);
    }
    if is_given(found, "plain") || is_given(found, "tail") {
        return None;
    }
    log_cuts_at(found)
}

/// An image, and the one that is made of it.
fn conversion_at<'a>(found: &ArgMatches<'a>) -> Option<Conversion<&'a str>>
    ensures { option_map conversion_view result ≡ conversion_in (rows_of (found_of found.now)) }
{
    let Image { options, image } = image_at(found)?;
    Some(Conversion {
        options,
        force: is_given(found, "force"),
        placing: placing_at(found),
        image,
        output: output_at(found)?,
    })
}

/// Whether nodes that clash are left out, by the rule that is given.
pub(crate) fn apart(rule: Option<&str>) -> Option<bool>
    ensures { result ≡ is_apart (option_map (λ r. r.now) rule.entry) }
{
    match rule {
        None => Some(false),
        Some("higher") => Some(true),
        Some(_) => None,
    }
}

fn decompress_at<'a>(found: &ArgMatches<'a>) -> Option<Command<&'a str>>
    ensures { option_map command_view result ≡ decompress_in (rows_of (found_of found.now)) }
{
    let asked = conversion_at(found)?;
    match apart(text_at(found, "clashes"))? {
        true => Some(Command::Apart(asked)),
        false => Some(Command::Decompress(asked)),
    }
}

fn compact_at<'a>(found: &ArgMatches<'a>) -> Option<Command<&'a str>>
    ensures { option_map command_view result ≡ compact_in (rows_of (found_of found.now)) }
{
    let asked = Compaction {
        conversion: conversion_at(found)?,
        blocks: number_if_given(found, "blocks")?,
    };
    match apart(text_at(found, "clashes"))? {
        true => Some(Command::CompactApart(asked)),
        false => Some(Command::Compact(asked)),
    }
}

/// Whether a path is named beside the files that no path leads to.
pub(crate) fn is_path_beside_deleted(found: &ArgMatches<'_>) -> bool
    ensures { result ≡ is_path_beside_deleted (rows_of (found_of found.now)) }
{
    is_given(found, "deleted") && text_at(found, "PATH").is_some()
}

/// The tree of an image, or the files that no path leads to.
fn tree_at<'a>(found: &ArgMatches<'a>) -> Option<Command<&'a str>>
    ensures { option_map command_view result ≡ tree_in (rows_of (found_of found.now)) }
{
    let Image { options, image } = image_at(found)?;
    Some(Command::Extract(Extraction {
        options,
        decompress: is_given(found, "decompress"),
        deleted: is_given(found, "deleted"),
        owners: is_given(found, "owners"),
        quiet: is_given(found, "quiet"),
        image,
        folder: text_at(found, "DIR")?,
        path: text_at(found, "PATH"),
    }))
}

fn extract_at<'a>(found: &ArgMatches<'a>) -> Option<Command<&'a str>>
    ensures { option_map command_view result ≡ extract_in (rows_of (found_of found.now)) }
{
    if is_path_beside_deleted(found) {
        None
    } else {
        tree_at(found)
    }
}

/// The values of an option, if it is given.
pub(crate) fn texts_at<'f, 'a>(found: &'f ArgMatches<'a>, id: &str) -> Option<&'f [&'a str]>
    ensures { option_map (λ s. map (λ v. v.now) s.now) result
        ≡ all_of id.now (rows_of (found_of found.now)) }
{
    found.get_strs(id)
}

/// An owner by its two numbers.
fn owner_from(numbers: &[&str]) -> Option<Owner>
    ensures { result ≡ owner_of (map (λ n. n.now) numbers.now) }
{
    match numbers {
        [uid, gid] => Some(Owner {
            uid: owner_number(uid)?,
            gid: owner_number(gid)?,
        }),
        _ => None,
    }
}

/// The owner, where one is given.
fn owner_at(found: &ArgMatches<'_>) -> Option<Option<Owner>>
    ensures { result ≡ if_given (all_of (codes "owner") (rows_of (found_of found.now))) owner_of }
{
    match texts_at(found, "owner") {
        None => Some(None),
        Some(numbers) => Some(Some(owner_from(numbers)?)),
    }
}

/// The number that an option has, where it is given.
fn number_if_given(found: &ArgMatches<'_>, id: &str) -> Option<Option<u32>>
    ensures { result ≡ if_given (first_of id.now (rows_of (found_of found.now))) decimal_number }
{
    match text_at(found, id) {
        None => Some(None),
        Some(text) => Some(Some(number(text)?)),
    }
}

/// A folder, and the owner and the time of all that it holds, where they are given.
fn folder_at<'a>(found: &ArgMatches<'a>) -> Option<FolderListing<&'a str>>
    ensures { option_map folder_view result ≡ folder_in (rows_of (found_of found.now)) }
{
    Some(FolderListing {
        owner: owner_at(found)?,
        time: number_if_given(found, "time")?,
        quiet: is_given(found, "quiet"),
        folder: text_at(found, "DIR")?,
    })
}

fn pack_at<'a>(found: &ArgMatches<'a>) -> Option<Command<&'a str>>
    ensures { option_map command_view result ≡ pack_in (rows_of (found_of found.now)) }
{
    let folder = folder_at(found)?;
    let packing = Packing {
        options: options_at(found)?,
        blocks: number_if_given(found, "blocks")?,
        page: page(text_at(found, "page")?)?,
        weak: is_given(found, "weak"),
        placing: placing_at(found),
        owner: folder.owner,
        time: folder.time,
        quiet: folder.quiet,
        folder: folder.folder,
        output: output_at(found)?,
    };
    match (is_given(found, "compress"), packing.weak) {
        (false, _) => Some(Command::Pack(packing)),
        (true, false) => Some(Command::PackCompressed(packing)),
        (true, true) => None,
    }
}

fn verify_at<'a>(found: &ArgMatches<'a>) -> Option<Command<&'a str>>
    ensures { option_map command_view result ≡ verify_in (rows_of (found_of found.now)) }
{
    let folder = folder_at(found)?;
    let image = image_at(found)?;
    Some(Command::Verify(Verification {
        options: image.options,
        times: is_given(found, "times"),
        owner: folder.owner,
        time: folder.time,
        quiet: folder.quiet,
        image: image.image,
        folder: folder.folder,
    }))
}

/// What the subcommand asks for, or nothing where a value can't be read.
#[tactic(auto, unfolding(crate::specs::Parsed::parsed))]
pub(crate) fn parsed_of<'a>(name: &str, found: &ArgMatches<'a>) -> Option<Command<&'a str>>
    ensures { option_map command_view result ≡ parsed name.now (rows_of (found_of found.now)) }
{
    match name {
        "check" => check_at(found),
        "ls" => ls_at(found),
        "cat" => cat_at(found),
        "build" => build_at(found),
        "append" => append_at(found),
        "update" => update_at(found),
        "decompress" => decompress_at(found),
        "extract" => extract_at(found),
        "listing" => Some(Command::Listing(folder_at(found)?)),
        "info" => info_at(found),
        "cuts" => cuts_at(found),
        "compress" => Some(Command::Compress(conversion_at(found)?)),
        "compact" => compact_at(found),
        "diff" => diff_at(found),
        "damage" => damage_at(found),
        "map" => map_at(found),
        "history" => history_at(found),
        "pack" => pack_at(found),
        "verify" => verify_at(found),
        _ => None,
    }
}

/// Whether something is given that `--auto` takes of the image.
pub(crate) fn are_options_given(found: &ArgMatches<'_>) -> bool
    ensures { result ≡ are_options_given (rows_of (found_of found.now)) }
{
    text_at(found, "block").is_some()
        || text_at(found, "endian").is_some()
        || is_given(found, "little-endian")
        || is_given(found, "big-endian")
        || is_given(found, "decompress")
}

/// Whether options can't be found in the image of a command: none is read, or it is standard input,
/// which can be read once.
pub(crate) fn has_no_second_read(command: &Command<&str>) -> bool
    ensures { result ≡ has_no_second_read (command_view command.now) }
{
    match command.image() {
        None | Some("-") => true,
        Some(_) => false,
    }
}

/// Whether a part of a file is given as the image.
pub(crate) fn is_region_given(found: &ArgMatches<'_>) -> bool
    ensures { result ≡ is_region_given (rows_of (found_of found.now)) }
{
    text_at(found, "oob").is_some()
        || text_at(found, "offset").is_some()
        || text_at(found, "length").is_some()
}

/// The part of its images' files, where one is given; nothing where no image is read.
fn region_at(found: &ArgMatches<'_>, command: &Command<&str>) -> Option<Option<Region>>
    ensures { result ≡ region_in (rows_of (found_of found.now)) (command_view command.now) }
{
    if !is_region_given(found) {
        return Some(None);
    }
    if !command.reads_image() {
        return None;
    }
    let layout = text_at(found, "oob");
    let offset = text_at(found, "offset");
    let length = text_at(found, "length");
    Some(Some(region(layout, offset, length)?))
}

/// Whether words are given that do not go together.
fn is_contrary(command: &Command<&str>, found: &ArgMatches<'_>) -> bool
    ensures { result ≡ is_contrary (rows_of (found_of found.now)) (command_view command.now) }
{
    if is_given(found, "auto") && (are_options_given(found) || has_no_second_read(command)) {
        return true;
    }
    is_given(found, "json") && is_given(found, "svg")
}

/// What the command is given, and whether its options are found; or nothing where these are given
/// too, or there is no image that they are found in.
pub(crate) fn request_at<'a>(
    command: Command<&'a str>,
    found: &ArgMatches<'a>,
) -> Option<Request<&'a str>>
    ensures { option_map request_view result ≡ request_of (rows_of (found_of found.now))
        (command_view command.entry) }
{
    if is_contrary(&command, found) {
        return None;
    }
    let region = region_at(found, &command)?;
    Some(Request {
        auto: is_given(found, "auto"),
        region,
        json: is_given(found, "json"),
        command,
    })
}
