//! What no clause says of the texts of faults.

use crate::checks::{expect, expect_at};
use flashbase::{FromWriter, LoadFault};
use jline::put_in_line;
use jlisting::{BadLine, ListingFault, Rule, WordRule};
use jlog::SessionFault;
use jmount::{FindFault, MountFault};
use jreport::{
    Cause, ImageFault, Limit, Plan, ProgramFault, Reason, Refused, Unopened, cause_of, fault_text,
    put_fault_and_note,
};
use jscan::{Geometry, Page, ScanFault};
use jsteps::OpFault;
use std::alloc::Global;
use std::process::Abort;

fn load_faults() -> &'static [(LoadFault, &'static str)] {
    &[
        (LoadFault::Device, "L1 Device"),
        (LoadFault::TooLarge, "L2 TooLarge"),
        (LoadFault::OutOfMemory, "L3 OutOfMemory"),
    ]
}

fn scan_faults() -> &'static [(ScanFault, &'static str)] {
    &[
        (ScanFault::BlockSize, "C1 BlockSize"),
        (ScanFault::TooLarge, "C2 TooLarge"),
        (
            ScanFault::Incompatible {
                addr: 12,
                nodetype: 0xE0F7,
            },
            "C3 Incompatible at 0000000c type e0f7",
        ),
        (
            ScanFault::Compressed { addr: 12, compr: 6 },
            "C4 Compressed at 0000000c compr 6",
        ),
        (ScanFault::OutOfMemory, "C5 OutOfMemory"),
    ]
}

fn mount_faults() -> &'static [(MountFault, &'static str)] {
    &[
        (MountFault::BlockSize, "M1 BlockSize"),
        (MountFault::TooLarge, "M2 TooLarge"),
        (
            MountFault::Incompatible {
                addr: 12,
                nodetype: 0xE0F7,
            },
            "M3 Incompatible at 0000000c type e0f7",
        ),
        (
            MountFault::Compressed { addr: 12, compr: 6 },
            "M4 Compressed at 0000000c compr 6",
        ),
        (MountFault::Clash { addr: 0x50 }, "M5 Clash at 00000050"),
        (MountFault::RootKind, "M6 RootKind"),
        (MountFault::OutOfMemory, "M7 OutOfMemory"),
    ]
}

fn path_faults() -> &'static [(FindFault, &'static str)] {
    &[
        (FindFault::BadPath, "P3 Path BadPath"),
        (FindFault::NotFound, "P3 Path NotFound"),
        (FindFault::NotDirectory, "P3 Path NotDirectory"),
    ]
}

/// A session's faults, with the line of an operation and its text.
fn session_faults() -> &'static [(SessionFault, usize, &'static str, &'static str)] {
    &[
        (
            SessionFault::Full {
                needed: 4164,
                free: 3904,
            },
            3,
            "S2 Full needed 4164 free 3904",
            "S2 Full needed 4164 free 3904 line 3",
        ),
        (
            SessionFault::Full {
                needed: u64::MAX,
                free: 0,
            },
            usize::MAX,
            "S2 Full needed 18446744073709551615 free 0",
            "S2 Full needed 18446744073709551615 free 0 line 18446744073709551615",
        ),
        (
            SessionFault::Refused(OpFault::Exists),
            2,
            "S1 Refused O5 Exists",
            "S1 Refused O5 Exists line 2",
        ),
        (
            SessionFault::ReadOnly,
            1,
            "S3 ReadOnly",
            "S3 ReadOnly line 1",
        ),
        (SessionFault::Sink, 10, "S4 Sink", "S4 Sink line 10"),
        (
            SessionFault::OutOfMemory,
            1,
            "S5 OutOfMemory",
            "S5 OutOfMemory line 1",
        ),
        (SessionFault::Broken, 1, "S6 Broken", "S6 Broken line 1"),
        (
            SessionFault::Geometry,
            1,
            "S7 Geometry",
            "S7 Geometry line 1",
        ),
    ]
}

/// An operation's refusals.
fn op_faults() -> &'static [(OpFault, &'static str)] {
    &[
        (OpFault::BadPath, "S1 Refused O1 BadPath line 12"),
        (OpFault::NameTooLong, "S1 Refused O2 NameTooLong line 12"),
        (OpFault::NotFound, "S1 Refused O3 NotFound line 12"),
        (OpFault::NotDirectory, "S1 Refused O4 NotDirectory line 12"),
        (OpFault::Exists, "S1 Refused O5 Exists line 12"),
        (OpFault::WrongKind, "S1 Refused O6 WrongKind line 12"),
        (OpFault::NotEmpty, "S1 Refused O7 NotEmpty line 12"),
        (OpFault::IntoItself, "S1 Refused O8 IntoItself line 12"),
        (OpFault::TooLarge, "S1 Refused O9 TooLarge line 12"),
        (OpFault::BadMode, "S1 Refused O10 BadMode line 12"),
        (OpFault::BadTarget, "S1 Refused O11 BadTarget line 12"),
        (OpFault::Exhausted, "S1 Refused O12 Exhausted line 12"),
    ]
}

/// The text of a fault, and its line with the note after it; none where they can't be written.
fn texts_of(alloc: Global, fault: &ProgramFault<'_>) -> Option<(Vec<u8>, Vec<u8>)> {
    let mut text = FromWriter::new(Vec::new(alloc));
    let mut lines = FromWriter::new(Vec::new(alloc));
    if fault_text(fault, &mut text).is_err() || put_fault_and_note(fault, &mut lines).is_err() {
        return None;
    }
    Some((text.into_writer(), lines.into_writer()))
}

/// What comes after the line of a fault that is shown so; none where that line does not come first.
fn after_line<'a>(lines: &'a [u8], shown: &[u8]) -> Option<&'a [u8]> {
    let rest = lines.strip_prefix(b"jffs2_image: ".as_slice())?;
    let rest = rest.strip_prefix(shown)?;
    rest.strip_prefix(b"\n".as_slice())
}

/// Whether a fault has this text, and the line that goes with it.
fn is_told(alloc: Global, fault: &ProgramFault<'_>, wanted: &str) -> bool {
    let Some((text, lines)) = texts_of(alloc, fault) else {
        return false;
    };
    text.as_slice() == wanted.as_bytes() && after_line(&lines, wanted.as_bytes()).is_some()
}

/// Stops the test unless a fault has this text.
fn has_text(rt: &impl Abort, alloc: Global, fault: ProgramFault<'_>, text: &str) {
    expect_at(rt, is_told(alloc, &fault, text), text);
}

#[test]
fn texts_of_faults(rt: HostRuntime) {
    for &(fault, text) in load_faults() {
        has_text(&rt, rt.alloc(), ProgramFault::Load(fault), text);
    }
    for &(fault, text) in scan_faults() {
        has_text(&rt, rt.alloc(), ProgramFault::Scan(fault), text);
    }
    for &(fault, text) in mount_faults() {
        has_text(&rt, rt.alloc(), ProgramFault::Mount(fault), text);
    }
    for &(fault, text) in path_faults() {
        has_text(&rt, rt.alloc(), ProgramFault::Path(fault), text);
    }
}

/// A file of this name that is not read, or not opened.
fn unopened(name: &str, reason: Reason) -> Unopened<'_> {
    Unopened { name, reason }
}

#[test]
fn texts_of_files_and_of_the_program(rt: HostRuntime) {
    let (unread, made) = (
        unopened("a.img", Reason::IsDirectory),
        unopened("two \\ words/é", Reason::Exists),
    );
    has_text(&rt, rt.alloc(), ProgramFault::NotRead(unread), "L1 Device");
    has_text(
        &rt,
        rt.alloc(),
        ProgramFault::File(made),
        "P1 File two \\ words/é",
    );
    has_text(&rt, rt.alloc(), ProgramFault::NotRegular, "P4 NotRegular");
    has_text(&rt, rt.alloc(), ProgramFault::Output, "P5 Output");
    has_text(&rt, rt.alloc(), ProgramFault::OutOfMemory, "P6 OutOfMemory");
    has_text(
        &rt,
        rt.alloc(),
        ProgramFault::NoSpace("out"),
        "P7 NoSpace out",
    );
    has_text(&rt, rt.alloc(), clash(0x9C, 0x50), "M5 Clash at 0000009c");
    let data = ProgramFault::Data { addr: 0x1010 };
    has_text(&rt, rt.alloc(), data, "Z1 Data at 00001010");
    let long = ProgramFault::TooLong { addr: 0xABCDEF };
    has_text(&rt, rt.alloc(), long, "Z2 TooLong at 00abcdef");
}

fn clash(addr: u32, other: u32) -> ProgramFault<'static> {
    ProgramFault::Clash { addr, other }
}

/// A session's fault at an operation.
fn at_line(fault: SessionFault, line: usize) -> ProgramFault<'static> {
    ProgramFault::Session {
        fault,
        line: Some(line),
        cause: Cause::Unknown,
    }
}

#[test]
fn texts_of_a_session(rt: HostRuntime) {
    for &(fault, line, text, with_line) in session_faults() {
        has_text(&rt, rt.alloc(), ProgramFault::from(fault), text);
        has_text(&rt, rt.alloc(), at_line(fault, line), with_line);
    }
    for &(fault, text) in op_faults() {
        has_text(
            &rt,
            rt.alloc(),
            at_line(SessionFault::Refused(fault), 12),
            text,
        );
    }
}

/// Lines of a listing that mean nothing.
fn bad_lines() -> &'static [(usize, &'static str)] {
    &[
        (1, "P2 Listing line 1"),
        (12, "P2 Listing line 12"),
        (usize::MAX, "P2 Listing line 18446744073709551615"),
    ]
}

#[test]
fn texts_of_a_listing(rt: HostRuntime) {
    for &(line, text) in bad_lines() {
        let rule = Rule::NoOperation;
        let fault = ListingFault::Line(BadLine { line, rule });
        has_text(&rt, rt.alloc(), ProgramFault::from(fault), text);
    }
    let fault = ProgramFault::from(ListingFault::OutOfMemory);
    has_text(&rt, rt.alloc(), fault, "P6 OutOfMemory");
    let (line, rule) = (3, Rule::TooMany(2));
    let told = ProgramFault::Listing(BadLine { line, rule });
    has_text(&rt, rt.alloc(), told, "P2 Listing line 3");
}

const RTIME_NOTE: &str = "the image is compressed (rtime); decompress writes one that is not, \
    without damaged nodes; ls, cat, check, extract, diff, damage, cuts and append take --decompress";

const ZLIB_NOTE: &str = "the image is compressed (zlib); decompress writes one that is not, \
    without damaged nodes; ls, cat, check, extract, diff, damage, cuts and append take --decompress";

const LZO_NOTE: &str = "the image is compressed (lzo); decompress writes one that is not, \
    without damaged nodes; ls, cat, check, extract, diff, damage, cuts and append take --decompress";

const LZMA_NOTE: &str = "the image is compressed (lzma); decompress writes one that is not, \
    without damaged nodes; ls, cat, check, extract, diff, damage, cuts and append take --decompress";

/// The numbers of methods of compression, and what is noted of an image that has data of one.
fn methods() -> &'static [(u8, &'static str)] {
    &[
        (2, RTIME_NOTE),
        (3, "method 3 is RUBINMIPS, which is not read"),
        (4, "method 4 is COPY, which is not read"),
        (5, "method 5 is DYNRUBIN, which is not read"),
        (6, ZLIB_NOTE),
        (7, LZO_NOTE),
        (8, LZMA_NOTE),
        (9, "method 9 is not known"),
        (255, "method 255 is not known"),
    ]
}

const BLOCK_NOTE: &str = "--block takes a multiple of 4 from 4096 to 4194304";

const CLASH_NOTE: &str =
    "two nodes differ; decompress --clashes higher keeps that of the higher address";

const PAIR_NOTE: &str = "the nodes at 00000050 and 0000009c differ; \
    decompress --clashes higher keeps that of the highest address";

const FAR_PAIR_NOTE: &str = "the nodes at 00000000 and ffffffff differ; \
    decompress --clashes higher keeps that of the highest address";

/// A text as it is shown in a line; none where it can't be written.
fn shown(alloc: Global, text: &[u8]) -> Option<Vec<u8>> {
    let mut shown = FromWriter::new(Vec::new(alloc));
    match put_in_line(&mut shown, text) {
        Ok(()) => Some(shown.into_writer()),
        Err(_) => None,
    }
}

/// Whether this is the line of a note, or nothing where the note is empty.
fn is_note(line: &[u8], note: &str) -> bool {
    if note.is_empty() {
        return line.is_empty();
    }
    let rest = line.strip_suffix(b"\n".as_slice());
    let rest = rest.and_then(|rest| rest.strip_prefix(b"jffs2_image: note: ".as_slice()));
    line.len() <= 190 && rest == Some(note.as_bytes())
}

/// Whether after the line of a fault comes this note, or none where it is empty.
fn is_noted(alloc: Global, fault: &ProgramFault<'_>, note: &str) -> bool {
    let Some((text, lines)) = texts_of(alloc, fault) else {
        return false;
    };
    let Some(shown) = shown(alloc, &text) else {
        return false;
    };
    after_line(&lines, &shown).is_some_and(|line| is_note(line, note))
}

/// Stops the test unless this note comes after the line of a fault.
pub(super) fn has_note(rt: &impl Abort, alloc: Global, fault: ProgramFault<'_>, note: &str) {
    expect_at(rt, is_noted(alloc, &fault, note), note);
}

/// Files that the host refuses, and what is noted.
fn reasons() -> &'static [(&'static str, Reason, &'static str)] {
    &[
        ("note", Reason::Other, ""),
        ("a", Reason::NotFound, "a: no such file"),
        ("b c", Reason::NoPermission, "b c: no permission"),
        ("d/e", Reason::IsDirectory, "d/e: is a directory"),
        (
            "f/g",
            Reason::NotDirectory,
            "f/g: a part of the path is no directory",
        ),
        ("h", Reason::Exists, "h: exists"),
        ("i\x1b", Reason::NoSpace, "i\\x1b: no space"),
        ("é", Reason::ReadOnly, "é: read-only file system"),
        ("j", Reason::TooLarge, "j: the file grows too large"),
        ("k", Reason::TooManyLinks, "k: too many symbolic links"),
        ("l", Reason::BadName, "l: no file can have this name"),
        ("", Reason::Busy, ": in use"),
    ]
}

/// Files that were opened and failed, and what is noted.
fn unread() -> &'static [(&'static str, Reason, &'static str)] {
    &[
        ("note", Reason::Other, "note: was not read to its end"),
        ("", Reason::Other, ": was not read to its end"),
        ("d\n", Reason::IsDirectory, "d\\x0a: is a directory"),
        ("e", Reason::NoPermission, "e: no permission"),
    ]
}

/// Why a session did not write, and what is noted.
fn causes() -> &'static [(Cause, &'static str)] {
    &[
        (Cause::Unknown, ""),
        (Cause::Host(Reason::Other), ""),
        (Cause::Host(Reason::NoSpace), "no space"),
        (
            Cause::Limit(Limit::SmallBlock),
            "a flash that is written has blocks of at least 8192 bytes",
        ),
        (
            Cause::Limit(Limit::BlockMultiple),
            "the size of a block is a multiple of 4",
        ),
        (
            Cause::Limit(Limit::LargeBlock),
            "a block has at most 4194304 bytes",
        ),
        (
            Cause::Limit(Limit::NoBlock),
            "a flash has at least one block",
        ),
        (
            Cause::Limit(Limit::LargeFlash),
            "a flash has at most 268435456 bytes, blocks times their size",
        ),
        (
            Cause::Limit(Limit::LongImage),
            "the image is longer than the flash, blocks times their size",
        ),
        (
            Cause::Limit(Limit::LargePage),
            "a page and 80 bytes are more than a block",
        ),
        (
            Cause::Blocks(2),
            "the operation fits into a flash of 2 blocks",
        ),
        (
            Cause::Blocks(u32::MAX),
            "the operation fits into a flash of 4294967295 blocks",
        ),
    ]
}

#[test]
fn notes_with_a_reason(rt: HostRuntime) {
    for &(name, reason, note) in reasons() {
        has_note(
            &rt,
            rt.alloc(),
            ProgramFault::from(unopened(name, reason)),
            note,
        );
    }
    for &(name, reason, note) in unread() {
        has_note(
            &rt,
            rt.alloc(),
            ProgramFault::NotRead(unopened(name, reason)),
            note,
        );
    }
    for &(cause, note) in causes() {
        let fault = SessionFault::Geometry;
        has_note(
            &rt,
            rt.alloc(),
            ProgramFault::from(Refused { fault, cause }),
            note,
        );
    }
}

/// Why commands do not go on with an image, the text of each, and what is noted.
fn image_faults() -> [(ImageFault<'static>, &'static str, &'static str); 5] {
    [
        (
            ImageFault::NoNodes {
                name: None,
                others: 0,
            },
            "I1 NoNodes",
            "no node is found in either byte order, see info",
        ),
        (
            ImageFault::NoNodes {
                name: None,
                others: 1,
            },
            "I1 NoNodes",
            "the other byte order has 1 node, see --endian and info",
        ),
        (
            ImageFault::NoNodes {
                name: Some("a b"),
                others: 20,
            },
            "I1 NoNodes a b",
            "the other byte order has 20 nodes, see --endian and info",
        ),
        (
            ImageFault::Findings {
                name: "a\n",
                findings: 1,
            },
            "I2 Findings",
            "a\\x0a would be replaced, and has 1 finding, see check --scan; --force does it all \
             the same",
        ),
        (
            ImageFault::Findings {
                name: "a",
                findings: 12,
            },
            "I2 Findings",
            "a would be replaced, and has 12 findings, see check --scan; --force does it all the \
             same",
        ),
    ]
}

#[test]
fn texts_of_images(rt: HostRuntime) {
    for &(fault, text, note) in &image_faults() {
        has_text(&rt, rt.alloc(), ProgramFault::Image(fault), text);
        has_note(&rt, rt.alloc(), ProgramFault::Image(fault), note);
    }
}

/// Faults of images that do not mount.
fn mount_notes() -> &'static [(MountFault, &'static str)] {
    &[
        (MountFault::BlockSize, BLOCK_NOTE),
        (MountFault::Clash { addr: 0x50 }, CLASH_NOTE),
    ]
}

#[test]
fn notes_after_mounts(rt: HostRuntime) {
    for &(fault, note) in mount_notes() {
        has_note(&rt, rt.alloc(), ProgramFault::Mount(fault), note);
    }
    for &(compr, note) in methods() {
        let fault = MountFault::Compressed { addr: 12, compr };
        has_note(&rt, rt.alloc(), ProgramFault::Mount(fault), note);
    }
}

#[test]
fn notes_after_faults(rt: HostRuntime) {
    has_note(
        &rt,
        rt.alloc(),
        ProgramFault::Scan(ScanFault::BlockSize),
        BLOCK_NOTE,
    );
    let compressed = ScanFault::Compressed { addr: 2, compr: 6 };
    has_note(&rt, rt.alloc(), ProgramFault::Scan(compressed), ZLIB_NOTE);
    has_note(&rt, rt.alloc(), clash(0x9C, 0x50), PAIR_NOTE);
    has_note(&rt, rt.alloc(), clash(u32::MAX, 0), FAR_PAIR_NOTE);
}

/// What a flash is, and the first limit that it does not keep.
fn plans() -> &'static [(u32, u32, Page, usize, Option<Limit>)] {
    &[
        (8192, 1, Page::P4096, 0, None),
        (8192, 1, Page::P4096, 8192, None),
        (8192, 1, Page::P4096, 8193, Some(Limit::LongImage)),
        (8192, 1, Page::P8192, 8193, Some(Limit::LongImage)),
        (8192, 2, Page::P8192, 8193, Some(Limit::LargePage)),
        (8268, 2, Page::P8192, 0, Some(Limit::LargePage)),
        (8272, 2, Page::P8192, 0, None),
        (16460, 2, Page::P16384, 0, Some(Limit::LargePage)),
        (16464, 2, Page::P16384, 0, None),
        (8188, 0, Page::P8192, 9, Some(Limit::SmallBlock)),
        (8194, 0, Page::P4096, 9, Some(Limit::BlockMultiple)),
        (4_194_308, 0, Page::P4096, 9, Some(Limit::LargeBlock)),
        (4_194_304, 0, Page::P4096, 9, Some(Limit::NoBlock)),
        (4_194_304, 64, Page::P4096, 9, None),
        (
            4_194_304,
            65,
            Page::P4096,
            usize::MAX,
            Some(Limit::LargeFlash),
        ),
        (65536, u32::MAX, Page::P4096, 9, Some(Limit::LargeFlash)),
        (
            65536,
            4096,
            Page::P16384,
            usize::MAX,
            Some(Limit::LongImage),
        ),
    ]
}

/// Stops the test unless this is the first limit of a flash that is told.
fn has_limit(rt: &impl Abort, plan: Plan, limit: Option<Limit>) {
    let cause = match limit {
        Some(limit) => Cause::Limit(limit),
        None => Cause::Unknown,
    };
    let told = cause_of(plan, SessionFault::Geometry, Reason::Busy, Some(2));
    expect_at(rt, told == cause, plan);
}

#[test]
fn limits_of_a_flash(rt: HostRuntime) {
    for &(block, blocks, page, length, limit) in plans() {
        let plan = Plan {
            geometry: Geometry { block },
            blocks,
            page,
            length,
        };
        has_limit(&rt, plan, limit);
    }
}

/// The fault of a session, the blocks that are known, and the cause that is told.
fn causes_told() -> &'static [(SessionFault, Option<u32>, Cause)] {
    &[
        (SessionFault::Sink, Some(2), Cause::Host(Reason::Busy)),
        (SessionFault::Broken, Some(2), Cause::Unknown),
        (SessionFault::OutOfMemory, None, Cause::Unknown),
        (FULL, None, Cause::Unknown),
        (FULL, Some(3), Cause::Blocks(3)),
    ]
}

const FULL: SessionFault = SessionFault::Full {
    needed: 112,
    free: 0,
};

/// The host's reason counts for the sink alone, and the blocks for a flash that is full.
#[test]
fn causes_of_other_faults(rt: HostRuntime) {
    let plan = Plan {
        geometry: Geometry { block: 8192 },
        blocks: 0,
        page: Page::P4096,
        length: 0,
    };
    for &(fault, blocks, cause) in causes_told() {
        expect(&rt, cause_of(plan, fault, Reason::Busy, blocks) == cause);
    }
}

/// The rules that a line of a listing breaks.
fn rules() -> &'static [(Rule, &'static str)] {
    &[
        (Rule::SpaceAtStart, "a space at the start"),
        (Rule::TwoSpaces, "two spaces side by side"),
        (Rule::SpaceAtEnd, "a space at the end"),
        (
            Rule::CarriageReturn,
            "a carriage return at the end, as of a file made on Windows",
        ),
        (Rule::NoOperation, "no operation has this name"),
        (
            Rule::TooFew(2),
            "too few words, this operation takes 2 after its name",
        ),
        (
            Rule::TooMany(6),
            "too many words, this operation takes 6 after its name",
        ),
        (Rule::Word(9, WordRule::Empty), "word 9 is empty"),
        (
            Rule::Word(2, WordRule::NoDigit(7)),
            "word 2 has a character that is no digit from 0 to 7",
        ),
        (
            Rule::Word(4, WordRule::TooLong(10)),
            "word 4 has more than 10 digits",
        ),
        (
            Rule::Word(3, WordRule::Above(65535)),
            "word 3 is above 65535",
        ),
        (Rule::Word(2, WordRule::Kind), "word 2 is neither c nor b"),
        (
            Rule::Word(5, WordRule::Escape),
            "word 5 has a backslash that does not begin \\x and two hexadecimal digits",
        ),
        (
            Rule::Word(4, WordRule::NoPairs),
            "word 4 is not pairs of hexadecimal digits",
        ),
        (Rule::Word(4, WordRule::NoText), "word 4 is not UTF-8"),
    ]
}

#[test]
fn notes_after_a_listing(rt: HostRuntime) {
    for &(rule, note) in rules() {
        let fault = ProgramFault::Listing(BadLine { line: 7, rule });
        has_note(&rt, rt.alloc(), fault, note);
    }
}
