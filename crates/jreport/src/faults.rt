//! Why the program gives up, and the texts that say so.
ghost use Rattle.std.specs.Prelude.{◌≡◌, ◌<◌, ◌≤◌, ◌++◌, [], length, take, OnOk, IfErr};
ghost use Rattle.std.specs.Io.KnownBytes.{Appends};
ghost use Rattle.flashbase.specs.Device.{next_count};
ghost use Rattle.flashbase.specs.Sinks.{PutsTo};
ghost use Rattle.jline.specs.Words.{in_line};
ghost use Rattle.jreport.specs.Faults.{fault_line_of, fault_text_of, find_text, load_text, mount_text, scan_fault_text};

use crate::cause::{Cause, Refused};
use crate::image_fault::{ImageFault, push_image_fault};
use crate::reason::Unopened;
use crate::report_fault::ReportFault;
use crate::session_fault::{push_line, push_session};
use flashbase::{DeviceFault, LoadFault, PutFault, Sink, put_all};
use jline::{LineBuffer, put_in_line, put_text};
use jlisting::{BadLine, ListingFault};
use jlog::SessionFault;
use jmount::{FindFault, MountFault};
use jscan::{ScanFault, StreamFault};
use std::alloc::{AllocError, AllocFailed};

/// Why the program gives up.
#[derive(Clone, Copy, Debug, PartialEq, Eq)]
pub enum ProgramFault<'a> {
    /// A file was not read to its end.
    Load(LoadFault),
    /// The image was not scanned.
    Scan(ScanFault),
    /// The image does not mount.
    Mount(MountFault),
    /// The image does not mount: the node at the first address clashes with the one at the other,
    /// which is lower.
    Clash {
        addr: u32,
        other: u32,
    },
    /// This file can't be opened or made.
    File(Unopened<'a>),
    /// This file was opened, and failed before its end was read.
    NotRead(Unopened<'a>),
    /// A line of the listing means nothing.
    Listing(BadLine),
    /// Nothing was written, or writing stopped, at the operation of a line of the listing if it
    /// came to one.
    Session {
        fault: SessionFault,
        line: Option<usize>,
        cause: Cause,
    },
    /// The path names nothing.
    Path(FindFault),
    /// What the path names is no regular file.
    NotRegular,
    /// Standard output failed.
    Output,
    OutOfMemory,
    /// The host has no room for what is still to be made in the folder of this name.
    NoSpace(&'a str),
    /// The data of the node at this address are not what their method of compression makes.
    Data {
        addr: u32,
    },
    /// The node at this address does not fit into a block without its compression.
    TooLong {
        addr: u32,
    },
    /// The command does not go on with the image.
    Image(ImageFault<'a>),
}

impl From<LoadFault> for ProgramFault<'_> {
    ghost use Rattle.jreport.specs.declared.faults.ProgramFault.TheVariants.{Load};

    ghost from_gives = { λ fault e. e ≡ Load fault };

    fn from(fault: LoadFault) -> Self {
        ProgramFault::Load(fault)
    }
}

impl<'a> From<Unopened<'a>> for ProgramFault<'a> {
    ghost use Rattle.jreport.specs.declared.faults.ProgramFault.TheVariants.{File};

    ghost from_gives = { λ file e. e ≡ File file };

    fn from(file: Unopened<'a>) -> Self {
        ProgramFault::File(file)
    }
}

impl From<ScanFault> for ProgramFault<'_> {
    ghost use Rattle.jreport.specs.declared.faults.ProgramFault.TheVariants.{Scan};

    ghost from_gives = { λ fault e. e ≡ Scan fault };

    fn from(fault: ScanFault) -> Self {
        ProgramFault::Scan(fault)
    }
}

impl From<MountFault> for ProgramFault<'_> {
    ghost use Rattle.jreport.specs.declared.faults.ProgramFault.TheVariants.{Mount};

    ghost from_gives = { λ fault e. e ≡ Mount fault };

    fn from(fault: MountFault) -> Self {
        ProgramFault::Mount(fault)
    }
}

impl From<FindFault> for ProgramFault<'_> {
    ghost use Rattle.jreport.specs.declared.faults.ProgramFault.TheVariants.{Path};

    ghost from_gives = { λ fault e. e ≡ Path fault };

    fn from(fault: FindFault) -> Self {
        ProgramFault::Path(fault)
    }
}

impl From<SessionFault> for ProgramFault<'_> {
    ghost use Rattle.std.specs.Prelude.{None};
    ghost use Rattle.jreport.specs.declared.faults.ProgramFault.TheVariants.{Session};
    ghost use Rattle.jreport.specs.declared.cause.Cause.TheVariants.{Unknown};

    ghost from_gives = { λ fault e. e ≡ Session fault None Unknown };

    fn from(fault: SessionFault) -> Self {
        ProgramFault::Session {
            fault,
            line: None,
            cause: Cause::Unknown,
        }
    }
}

impl From<Refused> for ProgramFault<'_> {
    ghost use Rattle.std.specs.Prelude.{None};
    ghost use Rattle.jreport.specs.declared.faults.ProgramFault.TheVariants.{Session};

    ghost from_gives = { λ refused e. e ≡ Session refused.fault None refused.cause };

    fn from(refused: Refused) -> Self {
        ProgramFault::Session {
            fault: refused.fault,
            line: None,
            cause: refused.cause,
        }
    }
}

impl From<ListingFault> for ProgramFault<'_> {
    ghost use Rattle.jreport.specs.Faults.{fault_of_listing};

    ghost from_gives = { λ fault e. e ≡ fault_of_listing fault };

    fn from(fault: ListingFault) -> Self {
        match fault {
            ListingFault::Line(bad) => ProgramFault::Listing(bad),
            ListingFault::OutOfMemory => ProgramFault::OutOfMemory,
        }
    }
}

impl From<AllocError> for ProgramFault<'_> {
    ghost use Rattle.jreport.specs.declared.faults.ProgramFault.TheVariants.{OutOfMemory};

    ghost from_gives = { λ _ e. e ≡ OutOfMemory };

    fn from(_fault: AllocError) -> Self {
        ProgramFault::OutOfMemory
    }
}

impl<T: Drop> From<AllocFailed<T>> for ProgramFault<'_> {
    ghost use Rattle.jreport.specs.declared.faults.ProgramFault.TheVariants.{OutOfMemory};

    ghost from_gives = { λ _ e. e ≡ OutOfMemory };

    fn from(_fault: AllocFailed<T>) -> Self {
        ProgramFault::OutOfMemory
    }
}

impl From<ReportFault> for ProgramFault<'_> {
    ghost use Rattle.jreport.specs.Faults.{fault_of_report};

    ghost from_gives = { λ fault e. e ≡ fault_of_report fault };

    fn from(fault: ReportFault) -> Self {
        match fault {
            ReportFault::Scan(fault) => ProgramFault::Scan(fault),
            ReportFault::Output => ProgramFault::Output,
        }
    }
}

impl From<StreamFault> for ProgramFault<'_> {
    ghost use Rattle.jreport.specs.Faults.{fault_of_stream};

    ghost from_gives = { λ fault e. e ≡ fault_of_stream fault };

    fn from(fault: StreamFault) -> Self {
        match fault {
            StreamFault::BlockSize => ProgramFault::Scan(ScanFault::BlockSize),
            StreamFault::Device => ProgramFault::Load(LoadFault::Device),
            StreamFault::TooLarge => ProgramFault::Load(LoadFault::TooLarge),
            StreamFault::OutOfMemory => ProgramFault::Load(LoadFault::OutOfMemory),
        }
    }
}

/// The sink's: what a source says comes as a fault of a load or of a stream.
impl From<DeviceFault> for ProgramFault<'_> {
    ghost use Rattle.jreport.specs.declared.faults.ProgramFault.TheVariants.{Output};

    ghost from_gives = { λ _ e. e ≡ Output };

    fn from(_fault: DeviceFault) -> Self {
        ProgramFault::Output
    }
}

#[tactic(auto, unfolding(crate::specs::Faults::load_text))]
fn push_load(line: &mut LineBuffer, fault: LoadFault)
    requires { line.old ≡ [] }
    ensures { line.new ≡ load_text fault }
{
    line.push_text(match fault {
        LoadFault::Device => b"L1 Device",
        LoadFault::TooLarge => b"L2 TooLarge",
        LoadFault::OutOfMemory => b"L3 OutOfMemory",
    });
}

#[tactic(auto, unfolding(crate::specs::Faults::scan_fault_text))]
fn push_scan(line: &mut LineBuffer, fault: ScanFault)
    requires { line.old ≡ [] }
    ensures { line.new ≡ scan_fault_text fault }
{
    match fault {
        ScanFault::BlockSize => line.push_text(b"C1 BlockSize"),
        ScanFault::TooLarge => line.push_text(b"C2 TooLarge"),
        ScanFault::Incompatible { addr, nodetype } => {
            line.push_text(b"C3 Incompatible at ");
            line.push_hex(8, u64::from(addr));
            line.push_text(b" type ");
            line.push_hex(4, u64::from(nodetype));
        }
        ScanFault::Compressed { addr, compr } => {
            line.push_text(b"C4 Compressed at ");
            line.push_hex(8, u64::from(addr));
            line.push_text(b" compr ");
            line.push_decimal(u64::from(compr));
        }
        ScanFault::OutOfMemory => line.push_text(b"C5 OutOfMemory"),
    }
}

/// The text of a mount's fault.
#[tactic(auto, unfolding(crate::specs::Faults::mount_text))]
pub fn push_mount(line: &mut LineBuffer, fault: MountFault)
    requires { line.old ≡ [] }
    ensures text { line.new ≡ mount_text fault }
    ensures short { length line.new ≤ 64 }
{
    match fault {
        MountFault::BlockSize => line.push_text(b"M1 BlockSize"),
        MountFault::TooLarge => line.push_text(b"M2 TooLarge"),
        MountFault::Incompatible { addr, nodetype } => {
            line.push_text(b"M3 Incompatible at ");
            line.push_hex(8, u64::from(addr));
            line.push_text(b" type ");
            line.push_hex(4, u64::from(nodetype));
        }
        MountFault::Compressed { addr, compr } => {
            line.push_text(b"M4 Compressed at ");
            line.push_hex(8, u64::from(addr));
            line.push_text(b" compr ");
            line.push_decimal(u64::from(compr));
        }
        MountFault::Clash { addr } => {
            line.push_text(b"M5 Clash at ");
            line.push_hex(8, u64::from(addr));
        }
        MountFault::RootKind => line.push_text(b"M6 RootKind"),
        MountFault::OutOfMemory => line.push_text(b"M7 OutOfMemory"),
    }
}

#[tactic(auto, unfolding(crate::specs::Faults::find_text))]
fn push_find(line: &mut LineBuffer, fault: FindFault)
    requires { line.old ≡ [] }
    ensures { line.new ≡ find_text fault }
{
    line.push_text(match fault {
        FindFault::BadPath => b"P3 Path BadPath",
        FindFault::NotFound => b"P3 Path NotFound",
        FindFault::NotDirectory => b"P3 Path NotDirectory",
    });
}

/// What comes before the name in a fault's text, and the name.
#[tactic(auto, unfolding(crate::specs::Faults::fault_text_of))]
fn push_fault<'a>(line: &mut LineBuffer, fault: &ProgramFault<'a>) -> &'a str
    requires { line.old ≡ [] }
    ensures text { line.new ++ result.now ≡ fault_text_of fault.now }
{
    match *fault {
        ProgramFault::Load(fault) => push_load(line, fault),
        ProgramFault::NotRead(_) => push_load(line, LoadFault::Device),
        ProgramFault::Scan(fault) => push_scan(line, fault),
        ProgramFault::Mount(fault) => push_mount(line, fault),
        ProgramFault::Clash { addr, .. } => push_mount(line, MountFault::Clash { addr }),
        ProgramFault::File(file) => {
            line.push_text(b"P1 File ");
            return file.name;
        }
        ProgramFault::Listing(bad) => {
            line.push_text(b"P2 Listing");
            push_line(line, bad.line);
        }
        ProgramFault::Session {
            fault,
            line: number,
            ..
        } => {
            push_session(line, fault);
            if let Some(number) = number {
                push_line(line, number);
            }
        }
        ProgramFault::Path(fault) => push_find(line, fault),
        ProgramFault::NotRegular => line.push_text(b"P4 NotRegular"),
        ProgramFault::Output => line.push_text(b"P5 Output"),
        ProgramFault::OutOfMemory => line.push_text(b"P6 OutOfMemory"),
        ProgramFault::NoSpace(name) => {
            line.push_text(b"P7 NoSpace ");
            return name;
        }
        ProgramFault::Data { addr } => {
            line.push_text(b"Z1 Data at ");
            line.push_hex(8, u64::from(addr));
        }
        ProgramFault::TooLong { addr } => {
            line.push_text(b"Z2 TooLong at ");
            line.push_hex(8, u64::from(addr));
        }
        ProgramFault::Image(fault) => return push_image_fault(line, fault),
    }
    ""
}

/// Puts one text after another.
fn put_both<T: Sink>(sink: &mut T, first: &[u8], second: &[u8]) -> Result<(), PutFault>
    ensures ok { OnOk result
        (Appends (T.taken sink.old) (T.taken sink.new) (first.now ++ second.now)) }
    ensures none_failed { OnOk result (T.failures sink.new ≡ T.failures sink.old) }
    ensures part { IfErr result (λ e. (e.taken < length (first.now ++ second.now))
        × Appends (T.taken sink.old) (T.taken sink.new) (take e.taken (first.now ++ second.now))) }
    ensures failed { IfErr result (λ _. T.failures sink.new ≡ next_count (T.failures sink.old)) }
{
    put_all(sink, first)?;
    match put_all(sink, second) {
        Ok(()) => Ok(()),
        Err(PutFault { taken }) => Err(PutFault {
            taken: first.len() + taken,
        }),
    }
}

/// Puts the text of a fault: its number and name, and then its parts. There is no line feed after
/// it, and no memory is taken.
pub fn fault_text<T: Sink>(fault: &ProgramFault<'_>, sink: &mut T) -> Result<(), PutFault>
    ensures ok { OnOk result
        (Appends (T.taken sink.old) (T.taken sink.new) (fault_text_of fault.now)) }
    ensures none_failed { OnOk result (T.failures sink.new ≡ T.failures sink.old) }

    // On a fault of the sink exactly the first `taken` bytes of the text went out.
    ensures part { IfErr result (λ e. (e.taken < length (fault_text_of fault.now))
        × Appends (T.taken sink.old) (T.taken sink.new) (take e.taken (fault_text_of fault.now))) }
    ensures failed { IfErr result (λ _. T.failures sink.new ≡ next_count (T.failures sink.old)) }
{
    let mut line = LineBuffer::new();
    let name = push_fault(&mut line, fault);
    put_both(sink, line.as_slice(), name.as_bytes())
}

/// Puts the text of a fault within a line.
fn put_fault<T: Sink>(fault: &ProgramFault<'_>, sink: &mut T) -> Result<(), DeviceFault>
    ensures { PutsTo T.Sink sink.old sink.new (in_line (fault_text_of fault.now)) result }
{
    let mut line = LineBuffer::new();
    let name = push_fault(&mut line, fault);
    put_in_line(sink, line.as_slice())?;
    put_in_line(sink, name.as_bytes())
}

/// Puts the line of a fault, as it is on standard error. It is one line: a control byte of a file's
/// name goes out escaped.
pub(crate) fn put_fault_line<T: Sink>(
    fault: &ProgramFault<'_>,
    sink: &mut T,
) -> Result<(), DeviceFault>
    ensures { PutsTo T.Sink sink.old sink.new (fault_line_of fault.now) result }
{
    put_text(sink, b"jffs2_image: ")?;
    put_fault(fault, sink)?;
    put_text(sink, b"\n")
}
