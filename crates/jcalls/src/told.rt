//! What a caller is told of a fault.

ghost use Rattle.std.specs.Prelude.{◌≡◌, ◌≢◌, ◌<◌};
ghost use Rattle.jcalls.specs.Told as told;
ghost use Rattle.jcalls.specs.Told.{told_at};

use jcollect::{CollectFault, ThroughFault};
use jexpand::ConvertFault;
use jlisting::{ListingFault, Rule};
use jlog::SessionFault;
use jmount::{FindFault, MountFault};
use jscan::ScanFault;
use jsteps::OpFault;
use jthrough::ViewFault;

/// All was done.
pub const OK: u32 = 0;

/// The image is longer than `jscan::GREATEST_IMAGE`.
pub const TOO_LARGE: u32 = 2;

/// The memory of the caller is too small. Nothing was written there.
pub const SMALL: u32 = 9;

/// The number of a fault, and where it is: the address of a node, with its type or the number of
/// its compression; 0 where the fault has none.
#[derive(Clone, Copy)]
pub struct Told {
    pub status: u32,
    pub address: u32,
    pub detail: u32,
}

/// Where a fault is, in memory of the caller.
#[repr(C)]
#[derive(Clone, Copy)]
pub struct Fault {
    pub address: u32,
    pub detail: u32,
}

impl Told {
    fn of(status: u32, address: u32, detail: u32) -> Told
        ensures { result ≡ told_at status address detail }
    {
        Told {
            status,
            address,
            detail,
        }
    }
}

/// Writes where a fault is, and answers its number.
pub(crate) fn tell(told: Told, fault: &mut Fault) -> u32
    ensures status { result ≡ told.status }
    ensures address { fault.new.address ≡ told.address }
    ensures detail { fault.new.detail ≡ told.detail }
{
    *fault = Fault {
        address: told.address,
        detail: told.detail,
    };
    told.status
}

/// There is no memory for the answer.
pub(crate) fn no_memory() -> Told
    ensures told { result ≡ told_at 7 0 0 }
    ensures is { 0 < result.status }
    ensures other { result.status ≢ 9 }
{
    Told::of(7, 0, 0)
}

/// What is told where an image does not mount.
pub(crate) fn mount_told(fault: MountFault) -> Told
    ensures told { result ≡ told.mount_told fault }
    ensures is { 0 < result.status }
    ensures other { result.status ≢ 9 }
{
    match fault {
        MountFault::BlockSize => Told::of(1, 0, 0),
        MountFault::TooLarge => Told::of(2, 0, 0),
        MountFault::Incompatible { addr, nodetype } => Told::of(3, addr, u32::from(nodetype)),
        MountFault::Compressed { addr, compr } => Told::of(4, addr, u32::from(compr)),
        MountFault::Clash { addr } => Told::of(5, addr, 0),
        MountFault::RootKind => Told::of(6, 0, 0),
        MountFault::OutOfMemory => Told::of(7, 0, 0),
    }
}

/// What is told where an image does not mount through its compression.
pub(crate) fn view_told(fault: ViewFault) -> Told
    ensures told { result ≡ told.view_told fault }
    ensures is { 0 < result.status }
    ensures other { result.status ≢ 9 }
{
    match fault {
        ViewFault::BlockSize => Told::of(1, 0, 0),
        ViewFault::TooLarge => Told::of(2, 0, 0),
        ViewFault::Incompatible { addr, nodetype } => Told::of(3, addr, u32::from(nodetype)),
        ViewFault::Compressed { addr, compr } => Told::of(4, addr, u32::from(compr)),
        ViewFault::Clash { addr } => Told::of(5, addr, 0),
        ViewFault::RootKind => Told::of(6, 0, 0),
        ViewFault::OutOfMemory => Told::of(7, 0, 0),
        ViewFault::Data { addr } => Told::of(20, addr, 0),
        ViewFault::TooLong { addr } => Told::of(21, addr, 0),
    }
}

/// What is told where the nodes that matter do not go out. The sink is memory: it fails where that
/// is wanting.
fn collect_told(fault: CollectFault) -> Told
    ensures told { result ≡ told.collect_told fault }
    ensures is { 0 < result.status }
    ensures other { result.status ≢ 9 }
{
    match fault {
        CollectFault::ReadOnly => Told::of(22, 0, 0),
        CollectFault::Geometry => Told::of(23, 0, 0),
        CollectFault::TooLong { addr } => Told::of(21, addr, 0),
        CollectFault::Full { .. } => Told::of(24, 0, 0),
        CollectFault::Sink | CollectFault::OutOfMemory => Told::of(7, 0, 0),
    }
}

/// What is told where an image of them is not made.
pub(crate) fn through_told(fault: ThroughFault) -> Told
    ensures told { result ≡ told.through_told fault }
    ensures is { 0 < result.status }
    ensures other { result.status ≢ 9 }
{
    match fault {
        ThroughFault::Unmounted(why) => view_told(why),
        ThroughFault::Uncollected(fault) => collect_told(fault),
    }
}

/// What is told where a path names nothing.
pub(crate) fn find_told(fault: FindFault) -> Told
    ensures told { result ≡ told.find_told fault }
    ensures is { 0 < result.status }
    ensures other { result.status ≢ 9 }
{
    match fault {
        FindFault::BadPath => Told::of(10, 0, 0),
        FindFault::NotFound => Told::of(11, 0, 0),
        FindFault::NotDirectory => Told::of(12, 0, 0),
    }
}

/// What is told where an image is not scanned.
pub(crate) fn scan_told(fault: ScanFault) -> Told
    ensures told { result ≡ told.scan_told fault }
    ensures is { 0 < result.status }
    ensures other { result.status ≢ 9 }
{
    match fault {
        ScanFault::BlockSize => Told::of(1, 0, 0),
        ScanFault::TooLarge => Told::of(2, 0, 0),
        ScanFault::Incompatible { addr, nodetype } => Told::of(3, addr, u32::from(nodetype)),
        ScanFault::Compressed { addr, compr } => Told::of(4, addr, u32::from(compr)),
        ScanFault::OutOfMemory => Told::of(7, 0, 0),
    }
}

/// What is told where an image is not converted. The sink is memory: it fails where that is
/// wanting.
pub(crate) fn convert_told(fault: ConvertFault) -> Told
    ensures told { result ≡ told.convert_told fault }
    ensures is { 0 < result.status }
    ensures other { result.status ≢ 9 }
{
    match fault {
        ConvertFault::BlockSize => Told::of(1, 0, 0),
        ConvertFault::TooLarge => Told::of(2, 0, 0),
        ConvertFault::Incompatible { addr, nodetype } => Told::of(3, addr, u32::from(nodetype)),
        ConvertFault::Compressed { addr, compr } => Told::of(4, addr, u32::from(compr)),
        ConvertFault::OutOfMemory | ConvertFault::Sink => Told::of(7, 0, 0),
        ConvertFault::Data { addr } => Told::of(20, addr, 0),
        ConvertFault::TooLong { addr } => Told::of(21, addr, 0),
        ConvertFault::ReadOnly => Told::of(22, 0, 0),
        ConvertFault::Geometry => Told::of(23, 0, 0),
        ConvertFault::Full { .. } => Told::of(24, 0, 0),
    }
}

/// A number of 32 bits, or the greatest one.
fn told_number(n: usize) -> u32
    ensures { result ≡ told.told_number n }
{
    n.min(4_294_967_295) as u32
}

/// The page is none by which files are cut.
pub(crate) fn page_told() -> Told
    ensures told { result ≡ told_at 25 0 0 }
    ensures is { 0 < result.status }
    ensures other { result.status ≢ 9 }
{
    Told::of(25, 0, 0)
}

/// A row of files is not within their bytes.
pub(crate) fn row_told(at: usize) -> Told
    ensures told { result ≡ told_at 32 (told.told_number at) 0 }
    ensures is { 0 < result.status }
    ensures other { result.status ≢ 9 }
{
    Told::of(32, told_number(at), 0)
}

/// A line names a file that is not given.
pub(crate) fn missing_told(line: usize) -> Told
    ensures told { result ≡ told_at 33 (told.told_number line) 0 }
    ensures is { 0 < result.status }
    ensures other { result.status ≢ 9 }
{
    Told::of(33, told_number(line), 0)
}

fn rule_number(rule: Rule) -> u32
    ensures { result ≡ told.rule_number rule }
{
    match rule {
        Rule::SpaceAtStart => 1,
        Rule::TwoSpaces => 2,
        Rule::SpaceAtEnd => 3,
        Rule::CarriageReturn => 4,
        Rule::NoOperation => 5,
        Rule::TooFew(_) => 6,
        Rule::TooMany(_) => 7,
        Rule::Word(_, _) => 8,
    }
}

/// What is told where a listing is not read.
pub(crate) fn told_of_listing(fault: ListingFault) -> Told
    ensures told { result ≡ told.told_of_listing fault }
    ensures is { 0 < result.status }
    ensures other { result.status ≢ 9 }
{
    match fault {
        ListingFault::Line(bad) => Told::of(30, told_number(bad.line), rule_number(bad.rule)),
        ListingFault::OutOfMemory => Told::of(7, 0, 0),
    }
}

/// What is told where an operation is refused at a line.
fn op_told(line: u32, fault: OpFault) -> Told
    ensures told { result ≡ told.op_told line fault }
    ensures is { 0 < result.status }
    ensures other { result.status ≢ 9 }
{
    match fault {
        OpFault::BadPath => Told::of(31, line, 1),
        OpFault::NameTooLong => Told::of(31, line, 2),
        OpFault::NotFound => Told::of(31, line, 3),
        OpFault::NotDirectory => Told::of(31, line, 4),
        OpFault::Exists => Told::of(31, line, 5),
        OpFault::WrongKind => Told::of(31, line, 6),
        OpFault::NotEmpty => Told::of(31, line, 7),
        OpFault::IntoItself => Told::of(31, line, 8),
        OpFault::TooLarge => Told::of(31, line, 9),
        OpFault::BadMode => Told::of(31, line, 10),
        OpFault::BadTarget => Told::of(31, line, 11),
        OpFault::Exhausted => Told::of(31, line, 12),
        OpFault::OutOfMemory => Told::of(7, 0, 0),
    }
}

/// What is told where a session is refused, at a line if it is about one, else at line 0. It fails
/// or breaks only if memory runs out.
pub(crate) fn session_told(line: usize, fault: SessionFault) -> Told
    ensures told { result ≡ told.session_told (told.told_number line) fault }
    ensures is { 0 < result.status }
    ensures other { result.status ≢ 9 }
{
    match fault {
        SessionFault::Refused(why) => op_told(told_number(line), why),
        SessionFault::Full { .. } => Told::of(24, told_number(line), 0),
        SessionFault::ReadOnly => Told::of(22, 0, 0),
        SessionFault::Geometry => Told::of(23, 0, 0),
        SessionFault::Sink | SessionFault::OutOfMemory | SessionFault::Broken => Told::of(7, 0, 0),
    }
}
