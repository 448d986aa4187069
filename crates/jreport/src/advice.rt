//! The note after a fault's line, on what a person may do about it.

ghost use Rattle.std.specs.Prelude.{◌≡◌, ◌≤◌, ◌++◌, [], codes, length};
ghost use Rattle.flashbase.specs.Sinks.{PutsTo};
ghost use Rattle.jline.specs.Words.{in_line};
ghost use Rattle.jreport.specs.Advice.{advice_of, block_note, fault_lines_of, is_read_method, method_note, mount_note, named_in, note_of, pair_note, read_method_name, rule_note, scan_note, unread_method, word_note};
ghost use Rattle.jreport.specs.Causes.{cause_note, limit_note};
ghost use Rattle.jreport.specs.Reasons.{file_note, host_text, unread_note};
ghost use Rattle.jreport.specs.Sentences.{session_note};

use crate::cause::{Cause, Limit};
use crate::faults::{ProgramFault, put_fault_line};
use crate::image_fault::{image_named, push_image_note};
use crate::reason::Reason;
use crate::sentences::{
    data_note, incompatible_note, length_note, load_note, memory_note, no_space_note,
    node_length_note, not_regular_note, output_note, path_note, refusal_note, root_note,
};
use flashbase::{DeviceFault, Sink};
use jline::{LineBuffer, put_in_line, put_text};
use jlisting::{Rule, WordRule};
use jlog::SessionFault;
use jmount::MountFault;
use jscan::ScanFault;

/// The rule that a word breaks.
#[tactic(auto, unfolding(crate::specs::Advice::word_note))]
fn push_word_rule(line: &mut LineBuffer, rule: WordRule)
    requires { line.old ≡ [] }
    ensures text { line.new ≡ word_note rule }
    ensures short { length line.new ≤ 100 }
{
    match rule {
        WordRule::Empty => line.push_text(b" is empty"),
        WordRule::NoDigit(greatest) => {
            line.push_text(b" has a character that is no digit from 0 to ");
            line.push_decimal(greatest);
        }
        WordRule::TooLong(most) => {
            line.push_text(b" has more than ");
            line.push_decimal(most as u64);
            line.push_text(b" digits");
        }
        WordRule::Above(limit) => {
            line.push_text(b" is above ");
            line.push_decimal(u64::from(limit));
        }
        WordRule::Kind => line.push_text(b" is neither c nor b"),
        WordRule::Escape => line.push_text(
            b" has a backslash that does not begin \\x and two hexadecimal digits",
        ),
        WordRule::NoPairs => line.push_text(b" is not pairs of hexadecimal digits"),
        WordRule::NoText => line.push_text(b" is not UTF-8"),
    }
}

/// The rule that a line breaks.
#[tactic(auto, unfolding(crate::specs::Advice::rule_note))]
fn push_rule(line: &mut LineBuffer, rule: Rule)
    requires { line.old ≡ [] }
    ensures text { line.new ≡ rule_note rule }
    ensures short { length line.new ≤ 200 }
{
    match rule {
        Rule::SpaceAtStart => line.push_text(b"a space at the start"),
        Rule::TwoSpaces => line.push_text(b"two spaces side by side"),
        Rule::SpaceAtEnd => line.push_text(b"a space at the end"),
        Rule::CarriageReturn => {
            line.push_text(b"a carriage return at the end, as of a file made on Windows");
        }
        Rule::NoOperation => line.push_text(b"no operation has this name"),
        Rule::TooFew(count) => {
            line.push_text(b"too few words, this operation takes ");
            line.push_decimal(count as u64);
            line.push_text(b" after its name");
        }
        Rule::TooMany(count) => {
            line.push_text(b"too many words, this operation takes ");
            line.push_decimal(count as u64);
            line.push_text(b" after its name");
        }
        Rule::Word(number, broken) => {
            let mut word = LineBuffer::new();
            push_word_rule(&mut word, broken);
            line.push_text(b"word ");
            line.push_decimal(number as u64);
            line.push_text(word.as_slice());
        }
    }
}

/// Whether `decompress` reads a method of compression.
fn is_read_method(compr: u8) -> bool
    ensures { result ≡ is_read_method compr }
{
    compr == 2 || compr == 6 || compr == 7 || compr == 8
}

/// The name of a method that it reads.
fn read_method_name(compr: u8) -> &'static [u8]
    ensures text { result.now ≡ read_method_name compr }
    ensures short { length result.now ≤ 8 }
{
    match compr {
        2 => b"rtime",
        6 => b"zlib",
        7 => b"lzo",
        _ => b"lzma",
    }
}

/// What is said of a method that it does not read.
fn unread_method(compr: u8) -> &'static [u8]
    ensures text { result.now ≡ unread_method compr }
    ensures short { length result.now ≤ 40 }
{
    match compr {
        3 => b" is RUBINMIPS, which is not read",
        4 => b" is COPY, which is not read",
        5 => b" is DYNRUBIN, which is not read",
        _ => b" is not known",
    }
}

/// What is said of an image that has data of a method of compression.
#[tactic(auto, unfolding(crate::specs::Advice::compressed_note, crate::specs::Advice::unread_method_note))]
fn push_method_note(line: &mut LineBuffer, compr: u8)
    requires { line.old ≡ [] }
    ensures text { line.new ≡ method_note compr }
    ensures short { length line.new ≤ 200 }
{
    if is_read_method(compr) {
        line.push_text(b"the image is compressed (");
        line.push_text(read_method_name(compr));
        line.push_text(b"); decompress writes one that is not, without damaged nodes; ");
        line.push_text(b"ls, cat, check, extract, diff, damage, cuts and append take --decompress");
    } else {
        line.push_text(b"method ");
        line.push_decimal(u64::from(compr));
        line.push_text(unread_method(compr));
    }
}

/// That no erase block has this size.
#[tactic(auto, unfolding(crate::specs::Advice::block_note))]
fn push_block_note(line: &mut LineBuffer)
    requires { line.old ≡ [] }
    ensures text { line.new ≡ block_note }
    ensures short { length line.new ≤ 200 }
{
    line.push_text(b"--block takes a multiple of 4 from 4096 to 4194304");
}

/// What is said of an image that does not mount.
#[tactic(auto, unfolding(crate::specs::Advice::mount_note, crate::specs::Advice::clash_note))]
fn push_mount_note(line: &mut LineBuffer, fault: MountFault)
    requires { line.old ≡ [] }
    ensures text { line.new ≡ mount_note fault }
    ensures short { length line.new ≤ 200 }
{
    match fault {
        MountFault::BlockSize => push_block_note(line),
        MountFault::Compressed { compr, .. } => push_method_note(line, compr),
        MountFault::Clash { .. } => {
            line.push_text(b"two nodes differ; ");
            line.push_text(b"decompress --clashes higher keeps that of the higher address");
        }
        MountFault::TooLarge => line.push_text(length_note()),
        MountFault::Incompatible { .. } => line.push_text(incompatible_note()),
        MountFault::RootKind => line.push_text(root_note()),
        MountFault::OutOfMemory => line.push_text(memory_note()),
    }
}

/// What is said of an image that is not scanned.
#[tactic(auto, unfolding(crate::specs::Advice::scan_note))]
fn push_scan_note(line: &mut LineBuffer, fault: ScanFault)
    requires { line.old ≡ [] }
    ensures text { line.new ≡ scan_note fault }
    ensures short { length line.new ≤ 200 }
{
    match fault {
        ScanFault::BlockSize => push_block_note(line),
        ScanFault::Compressed { compr, .. } => push_method_note(line, compr),
        ScanFault::TooLarge => line.push_text(length_note()),
        ScanFault::Incompatible { .. } => line.push_text(incompatible_note()),
        ScanFault::OutOfMemory => line.push_text(memory_note()),
    }
}

/// What is said of two nodes that clash.
#[tactic(auto, unfolding(crate::specs::Advice::pair_note))]
fn push_pair_note(line: &mut LineBuffer, lower: u32, higher: u32)
    requires { line.old ≡ [] }
    ensures text { line.new ≡ pair_note lower higher }
    ensures short { length line.new ≤ 200 }
{
    line.push_text(b"the nodes at ");
    line.push_hex(8, u64::from(lower));
    line.push_text(b" and ");
    line.push_hex(8, u64::from(higher));
    line.push_text(b" differ; ");
    line.push_text(b"decompress --clashes higher keeps that of the highest address");
}

/// Why the host refuses a file.
#[tactic(auto, unfolding(crate::specs::Reasons::host_text))]
fn host_text(reason: Reason) -> &'static [u8]
    ensures text { result.now ≡ host_text reason }
    ensures short { length result.now ≤ 100 }
{
    match reason {
        Reason::NotFound => b"no such file",
        Reason::NoPermission => b"no permission",
        Reason::IsDirectory => b"is a directory",
        Reason::NotDirectory => b"a part of the path is no directory",
        Reason::Exists => b"exists",
        Reason::NoSpace => b"no space",
        Reason::ReadOnly => b"read-only file system",
        Reason::TooLarge => b"the file grows too large",
        Reason::TooManyLinks => b"too many symbolic links",
        Reason::BadName => b"no file can have this name",
        Reason::Busy => b"in use",
        Reason::EndsEarly => b"is shorter than --offset and --length say",
        Reason::Other => b"",
    }
}

/// The same behind the name of the file.
fn push_file_note(line: &mut LineBuffer, reason: Reason)
    requires { line.old ≡ [] }
    ensures text { line.new ≡ file_note reason }
    ensures short { length line.new ≤ 200 }
{
    let text = host_text(reason);
    if !text.is_empty() {
        line.push_text(b": ");
        line.push_text(text);
    }
}

/// The same of a file that was opened, and failed before its end was read.
fn push_unread_note(line: &mut LineBuffer, reason: Reason)
    requires { line.old ≡ [] }
    ensures text { line.new ≡ unread_note reason }
    ensures short { length line.new ≤ 200 }
{
    let text = host_text(reason);
    if text.is_empty() {
        line.push_text(b": was not read to its end");
    } else {
        line.push_text(b": ");
        line.push_text(text);
    }
}

/// What a flash that is written does not keep.
#[tactic(auto, unfolding(crate::specs::Causes::limit_note))]
fn limit_note(limit: Limit) -> &'static [u8]
    ensures text { result.now ≡ limit_note limit }
    ensures short { length result.now ≤ 100 }
{
    match limit {
        Limit::SmallBlock => b"a flash that is written has blocks of at least 8192 bytes",
        Limit::BlockMultiple => b"the size of a block is a multiple of 4",
        Limit::LargeBlock => b"a block has at most 4194304 bytes",
        Limit::NoBlock => b"a flash has at least one block",
        Limit::LargeFlash => b"a flash has at most 268435456 bytes, blocks times their size",
        Limit::LongImage => b"the image is longer than the flash, blocks times their size",
        Limit::LargePage => b"a page and 80 bytes are more than a block",
    }
}

/// Why a session was refused, or stopped.
#[tactic(auto, unfolding(crate::specs::Causes::cause_note))]
fn push_cause(line: &mut LineBuffer, cause: Cause)
    requires { line.old ≡ [] }
    ensures text { line.new ≡ cause_note cause }
    ensures short { length line.new ≤ 100 }
{
    match cause {
        Cause::Unknown => {}
        Cause::Host(reason) => line.push_text(host_text(reason)),
        Cause::Limit(limit) => line.push_text(limit_note(limit)),
        Cause::Blocks(blocks) => {
            line.push_text(b"the operation fits into a flash of ");
            line.push_decimal(u64::from(blocks));
            line.push_text(b" blocks");
        }
    }
}

/// Why a session refuses or stops; a cause is said where one is known.
#[tactic(auto, unfolding(crate::specs::Sentences::session_note))]
fn push_session_note(line: &mut LineBuffer, fault: SessionFault, cause: Cause)
    requires { line.old ≡ [] }
    ensures text { line.new ≡ session_note fault cause }
    ensures short { length line.new ≤ 100 }
{
    match fault {
        SessionFault::Refused(fault) => line.push_text(refusal_note(fault)),
        SessionFault::ReadOnly => line.push_text(
            b"a node of a type that is not known forbids writing; check --scan shows it",
        ),
        SessionFault::OutOfMemory => line.push_text(memory_note()),
        SessionFault::Broken => line.push_text(b"this is an error of the program itself"),
        SessionFault::Full { .. } | SessionFault::Sink | SessionFault::Geometry => {
            push_cause(line, cause)
        }
    }
}

/// The file that a note is on, if it is on one.
#[tactic(auto, unfolding(crate::specs::Advice::named_in))]
fn named_in<'a>(fault: &ProgramFault<'a>) -> &'a str
    ensures { result.now ≡ named_in fault.now }
{
    match *fault {
        ProgramFault::File(file) | ProgramFault::NotRead(file) => file.name,
        ProgramFault::Load(_)
        | ProgramFault::Scan(_)
        | ProgramFault::Mount(_)
        | ProgramFault::Clash { .. }
        | ProgramFault::Listing(_)
        | ProgramFault::Session { .. }
        | ProgramFault::Path(_)
        | ProgramFault::NotRegular
        | ProgramFault::Output
        | ProgramFault::OutOfMemory
        | ProgramFault::NoSpace(_)
        | ProgramFault::Data { .. }
        | ProgramFault::TooLong { .. } => "",
        ProgramFault::Image(fault) => image_named(fault),
    }
}

/// What is said of a fault beside its line.
#[tactic(auto, unfolding(crate::specs::Advice::note_of))]
fn push_note(line: &mut LineBuffer, fault: &ProgramFault<'_>)
    requires { line.old ≡ [] }
    ensures text { line.new ≡ note_of fault.now }
    ensures short { length line.new ≤ 200 }
{
    match *fault {
        ProgramFault::Listing(bad) => push_rule(line, bad.rule),
        ProgramFault::Mount(fault) => push_mount_note(line, fault),
        ProgramFault::Clash { addr, other } => push_pair_note(line, other, addr),
        ProgramFault::Scan(fault) => push_scan_note(line, fault),
        ProgramFault::File(file) => push_file_note(line, file.reason),
        ProgramFault::NotRead(file) => push_unread_note(line, file.reason),
        ProgramFault::Session { fault, cause, .. } => push_session_note(line, fault, cause),
        ProgramFault::Image(fault) => push_image_note(line, fault),
        ProgramFault::Load(fault) => line.push_text(load_note(fault)),
        ProgramFault::Path(fault) => line.push_text(path_note(fault)),
        ProgramFault::NotRegular => line.push_text(not_regular_note()),
        ProgramFault::Output => line.push_text(output_note()),
        ProgramFault::OutOfMemory => line.push_text(memory_note()),
        ProgramFault::NoSpace(_) => line.push_text(no_space_note()),
        ProgramFault::Data { .. } => line.push_text(data_note()),
        ProgramFault::TooLong { .. } => line.push_text(node_length_note()),
    }
}

/// Puts a line that notes something, with a name before the rest of it.
pub(crate) fn put_note<T: Sink>(sink: &mut T, name: &[u8], rest: &[u8]) -> Result<(), DeviceFault>
    ensures { PutsTo T.Sink sink.old sink.new
        (codes "jffs2_image: note: " ++ (in_line name.now ++ rest.now)) result }
{
    put_text(sink, b"jffs2_image: note: ")?;
    put_in_line(sink, name)?;
    put_text(sink, rest)
}

/// Puts the note after the line of a fault; nothing where there is none.
#[tactic(auto, unfolding(crate::specs::Advice::advice_of))]
fn put_advice<T: Sink>(fault: &ProgramFault<'_>, sink: &mut T) -> Result<(), DeviceFault>
    ensures { PutsTo T.Sink sink.old sink.new (advice_of fault.now) result }
{
    let mut note = LineBuffer::new();
    push_note(&mut note, fault);
    if note.as_slice().is_empty() {
        return Ok(());
    }
    note.push_text(b"\n");
    put_note(sink, named_in(fault).as_bytes(), note.as_slice())
}

/// Puts the line of a fault as it is on standard error, and the note after it, where there is one.
pub fn put_fault_and_note<T: Sink>(
    fault: &ProgramFault<'_>,
    sink: &mut T,
) -> Result<(), DeviceFault>
    ensures { PutsTo T.Sink sink.old sink.new (fault_lines_of fault.now) result }
{
    put_fault_line(fault, sink)?;
    put_advice(fault, sink)
}
