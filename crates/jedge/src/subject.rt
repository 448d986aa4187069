//! What a command goes on with: a path that a word names, and an image, or what `decompress` makes
//! of it; and what one comes to that shows an image.
ghost use Rattle.std.specs.Prelude.{◌≡◌, true, option_map};
ghost use Rattle.jhint.specs.Hints.{hint_of};
ghost use Rattle.jreport.specs.NoNodes.{TellsNone};
ghost use Rattle.jreport.specs.Notes.{noted as findings};
ghost use Rattle.jedge.specs.Acts.{DoesFrom, seen_as};
ghost use Rattle.jedge.specs.Commands.{content_told, hint_if_found, left_noted, left_told, read_noted, read_told, shown_noted, shown_told};
ghost use Rattle.jedge.specs.Missing.{missing_noted};
ghost use Rattle.jedge.specs.Told.{found_told, note_text, read_note_text};
ghost use Rattle.jedge.specs.Views.{IsViewed, NamesPart, NamesPath, conversion_refusal, viewed, views};

use crate::damage::findings_noted;
use crate::fault::Fault;
use crate::found::{BlankLeft, ContentNotes, Found, Note, ReadNotes};
use crate::host::Host;
use crate::reading::load;
use jcommand::Options;
use jconvert::{ConvertFault, decompressed};
use jhint::{Hint, hint_of};
use jlog::SessionFault;
use jmount::{MountFault, Mounted};
use jnode::Order;
use jreport::{Cause, Limit, ProgramFault, found_in, noted, others_if_none, path_word};
use jscan::Geometry;
use std::alloc::Global;

/// The path that a word names.
pub fn path_named(alloc: Global, word: &str) -> Result<Vec<u8>, Fault>
    ensures { NamesPath word.now (seen_as (λ path. path.items) result) }
{
    match path_word(alloc, word.as_bytes()) {
        Ok(path) => Ok(path),
        Err(fault) => Err(Fault::of(fault)),
    }
}

/// The same, where a word is given.
pub fn part_named(alloc: Global, word: Option<&str>) -> Result<Option<Vec<u8>>, Fault>
    ensures { NamesPart (option_map (λ w. w.now) word.entry)
        (seen_as (option_map (λ path. path.items)) result) }
{
    match word {
        Some(word) => match path_named(alloc, word) {
            Ok(path) => Ok(Some(path)),
            Err(fault) => Err(fault),
        },
        None => Ok(None),
    }
}

/// An image that is shown, and what is noted of the one that was read.
#[derive(Drop)]
pub struct Subject {
    pub image: Vec<u8>,
    /// What is found in the image that was read, where this one is made of it.
    pub found: Option<jreport::Found>,
    /// Where no node is found in the image that was read, how many the other byte order has.
    pub others: Option<u64>,
}

/// Why nothing is made of an image.
pub fn conversion_refusal(fault: ConvertFault) -> ProgramFault<'static>
    ensures { result ≡ conversion_refusal fault }
{
    match fault {
        ConvertFault::BlockSize => ProgramFault::Mount(MountFault::BlockSize),
        ConvertFault::TooLarge => ProgramFault::Mount(MountFault::TooLarge),
        ConvertFault::Incompatible { addr, nodetype } => {
            ProgramFault::Mount(MountFault::Incompatible { addr, nodetype })
        }
        ConvertFault::Compressed { addr, compr } => {
            ProgramFault::Mount(MountFault::Compressed { addr, compr })
        }
        ConvertFault::Data { addr } => ProgramFault::Data { addr },
        ConvertFault::TooLong { addr } => ProgramFault::TooLong { addr },
        ConvertFault::ReadOnly => ProgramFault::from(SessionFault::ReadOnly),
        ConvertFault::Geometry => ProgramFault::Session {
            fault: SessionFault::Geometry,
            line: None,
            cause: Cause::Limit(Limit::SmallBlock),
        },
        ConvertFault::Full { needed, free } => {
            ProgramFault::from(SessionFault::Full { needed, free })
        }
        ConvertFault::Sink => ProgramFault::from(SessionFault::Sink),
        ConvertFault::OutOfMemory => ProgramFault::from(SessionFault::OutOfMemory),
    }
}

/// What `decompress` makes of an image.
fn made_view<E: Order>(
    alloc: Global,
    image: &[u8],
    geometry: Geometry,
    others: Option<u64>,
) -> Result<Subject, Fault>
    requires { TellsNone E.order geometry.block image.now others }
    ensures { IsViewed E.order geometry.block true image.now (seen_as viewed result) }
{
    match decompressed::<E>(alloc, image, geometry) {
        Ok(made) => Ok(Subject {
            image: made,
            found: Some(found_in::<E>(image, geometry)),
            others,
        }),
        Err(fault) => Err(Fault::Refused(conversion_refusal(fault))),
    }
}

/// The image that is shown of one that was read.
fn view_of<E: Order>(
    alloc: Global,
    image: Vec<u8>,
    geometry: Geometry,
    decompress: bool,
) -> Result<Subject, Fault>
    ensures { IsViewed E.order geometry.block decompress image.items (seen_as viewed result) }
{
    let others = others_if_none::<E>(image.as_slice(), geometry);
    if decompress {
        made_view::<E>(alloc, image.as_slice(), geometry, others)
    } else {
        Ok(Subject {
            image,
            found: None,
            others,
        })
    }
}

/// The image that is shown of the file of a name.
pub fn view<E: Order, H: Host>(
    host: &mut H,
    geometry: Geometry,
    decompress: bool,
    name: &str,
) -> Result<Subject, Fault>
    ensures { DoesFrom (H.history host.old) (H.history host.new)
        (views E.order geometry.block decompress name.now) (seen_as viewed result) }
{
    match load(host, name) {
        Ok(image) => view_of::<E>(host.alloc(), image, geometry, decompress),
        Err(fault) => Err(fault),
    }
}

/// The note on an image that is shown.
fn shown_noted(findings: u64, others: Option<u64>) -> Option<Note<'static>>
    ensures { option_map note_text result ≡ shown_noted findings others }
{
    match others {
        Some(others) => Some(Note::NoNodes { findings, others }),
        None => findings_noted(findings),
    }
}

/// The note on one that was written to, on which so many blank blocks are left and Linux keeps so
/// many in reserve.
fn left_noted(findings: u64, others: Option<u64>, left: u64, reserve: u64) -> Option<Note<'static>>
    ensures { option_map note_text result ≡ left_noted findings others left reserve }
{
    if left < reserve {
        let of = BlankLeft {
            findings,
            others,
            left,
            reserve,
        };
        return Some(Note::Left(of));
    }
    shown_noted(findings, others)
}

/// What a command comes to that shows a mount. If no node is found in its image, `others` is how
/// many the other byte order has.
pub fn shown(mounted: &Mounted<'_>, others: Option<u64>) -> Found<'static>
    ensures { found_told result ≡ shown_told others mounted.now }
{
    Found {
        counted: 0,
        note: shown_noted(noted(mounted), others),
    }
}

/// What a mounted image shows that has findings, if it was read with other options.
pub fn hint_if_found(mounted: &Mounted<'_>, options: Options) -> Option<Hint>
    ensures { result ≡ hint_if_found options.endian options.geometry.block mounted.now }
{
    match noted(mounted) {
        0 => None,
        _ => hint_of(options.endian, options.geometry.block, mounted.image()),
    }
}

/// What is noted of an image that was read.
fn read_notes(mounted: &Mounted<'_>, options: Options, others: Option<u64>) -> Option<ReadNotes>
    ensures { option_map read_note_text result
        ≡ read_noted (hint_of options.endian options.geometry.block mounted.now.image)
        (findings mounted.now) others }
{
    let findings = noted(mounted);
    if findings == 0 && others.is_none() {
        return None;
    }
    let hint = hint_of(options.endian, options.geometry.block, mounted.image());
    Some(ReadNotes {
        findings,
        others,
        hint,
    })
}

/// The notes on it.
pub(crate) fn read_noted(
    mounted: &Mounted<'_>,
    options: Options,
    others: Option<u64>,
) -> Option<Note<'static>>
    ensures { option_map note_text result
        ≡ read_noted (hint_of options.endian options.geometry.block mounted.now.image)
        (findings mounted.now) others }
{
    match read_notes(mounted, options, others) {
        Some(notes) => Some(Note::Read(notes)),
        None => None,
    }
}

/// The notes on a file of which no node has so many bytes, beside those on its image.
fn missing_noted(missing: u64, read: Option<ReadNotes>) -> Option<Note<'static>>
    ensures { option_map note_text result ≡ missing_noted missing (option_map read_note_text read) }
{
    if missing == 0 {
        return match read {
            Some(notes) => Some(Note::Read(notes)),
            None => None,
        };
    }
    Some(Note::Content(ContentNotes { missing, read }))
}

/// What a command comes to that prints a file of a mounted image, of which no node has so many
/// bytes. These are found if that is `strict`.
pub(crate) fn content_found(
    mounted: &Mounted<'_>,
    options: Options,
    others: Option<u64>,
    missing: u64,
    strict: bool,
) -> Found<'static>
    ensures { found_told result ≡ content_told strict missing
        (read_told options.endian options.geometry.block others mounted.now) }
{
    Found {
        counted: if strict { missing } else { 0 },
        note: missing_noted(missing, read_notes(mounted, options, others)),
    }
}

/// What a command comes to that only reads a mounted image. If no node is found in it, `others` is
/// how many the other byte order has.
pub fn read_found(mounted: &Mounted<'_>, options: Options, others: Option<u64>) -> Found<'static>
    ensures { found_told result
        ≡ read_told options.endian options.geometry.block others mounted.now }
{
    Found {
        counted: 0,
        note: read_noted(mounted, options, others),
    }
}

/// What a command comes to that wrote to the image of a mount, on which so many blank blocks are
/// left and Linux keeps so many in reserve.
pub fn left_found(
    mounted: &Mounted<'_>,
    others: Option<u64>,
    left: u64,
    reserve: u64,
) -> Found<'static>
    ensures { found_told result ≡ left_told others left reserve mounted.now }
{
    Found {
        counted: 0,
        note: left_noted(noted(mounted), others, left, reserve),
    }
}
