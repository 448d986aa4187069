//! Operations of a listing that are to be done to an image, on a flash.

ghost use Rattle.std.specs.Prelude.{◌≡◌, [], Some, Ok, IfOk, IfErr, OnOk, length, map};
ghost use Rattle.jlisting.specs.Listing.{file_of, lines_of};
ghost use Rattle.jbuild.specs.Operations.{op_in, ops_in};
ghost use Rattle.jcalls.specs.Files.{bytes_named};
ghost use Rattle.jcalls.specs.Shown.{IsDueFault};
ghost use Rattle.jcalls.specs.Works as works;
ghost use Rattle.jcalls.specs.Works.{AreOpsOf, OpsRefused, PageRefused, TextRefused, flash_by, listed_with, page_with};

use crate::given::{Files, judge_rows};
use crate::named::ByName;
use crate::told::{Told, missing_told, no_memory, page_told, told_of_listing};
use jlisting::{Line, listing};
use jlog::Flash;
use jnode::Order;
use jscan::{Geometry, Page};
use jsteps::Op;
use std::alloc::{AllocError, Global};

/// The flash that is written: how many blocks it has, and the bytes of the page by which files are
/// cut.
#[repr(C)]
#[derive(Clone, Copy)]
pub struct Target {
    pub blocks: u32,
    /// 4096, 8192 or 16384.
    pub page: u32,
}

/// What is to be done: the operations of a listing, with the files that it names, on a flash.
#[derive(Clone, Copy)]
pub struct Work<'a> {
    pub target: Target,
    pub listing: &'a [u8],
    pub files: Files<'a>,
}

/// The operations of a listing, and the numbers of their lines.
#[derive(Drop)]
pub(crate) struct Planned<'a> {
    pub(crate) ops: Vec<Op<'a>>,
    pub(crate) numbers: Vec<usize>,
}

/// The page of so many bytes.
fn page_with(bytes: u32) -> Option<Page>
    ensures { result ≡ page_with bytes }
{
    if bytes == 4096 {
        return Some(Page::P4096);
    }
    if bytes == 8192 {
        return Some(Page::P8192);
    }
    if bytes == 16384 {
        return Some(Page::P16384);
    }
    None
}

/// The flash of a target, in blocks of so many bytes.
pub(crate) fn flash_of(block: u32, target: Target) -> Result<Flash, Told>
    ensures ok { IfOk result (λ flash. (page_with target.page ≡ Some flash.page)
        × (flash ≡ flash_by block target.blocks flash.page)) }
    ensures err { IfErr result (IsDueFault (PageRefused target.page)) }
{
    match page_with(target.page) {
        Some(page) => Ok(Flash {
            geometry: Geometry { block },
            blocks: target.blocks,
            page,
        }),
        None => Err(page_told()),
    }
}

/// The lines of a listing.
fn lines_of<'a>(alloc: Global, text: &'a [u8]) -> Result<Vec<Line<'a>>, Told>
    ensures ok { IfOk result (λ lines. lines_of text.entry.now ≡ Ok lines.items) }
    ensures err { IfErr result (IsDueFault (TextRefused text.entry.now)) }
{
    match listing(alloc, text) {
        Ok(lines) => Ok(lines),
        Err(why) => Err(told_of_listing(why)),
    }
}

/// Whether the file that a line names is given, if it names one.
fn is_file_given(line: &Line<'_>, named: &ByName<'_>) -> bool
    ensures { result ≡ works.is_file_given
        (listed_with [] named.now.files.bytes.now named.now.files.rows.now)
        (file_of line.now.action) }
{
    match line.action.file() {
        Some(name) => named.file(name.as_bytes()).is_some(),
        None => true,
    }
}

/// Whether all files that lines name are given.
fn judge_lines(lines: &[Line<'_>], named: &ByName<'_>) -> Result<(), Told>
    ensures ok { OnOk result (works.AreGiven
        (listed_with [] named.now.files.bytes.now named.now.files.rows.now) lines.now) }
    ensures err { IfErr result (IsDueFault (works.FileMissing
        (listed_with [] named.now.files.bytes.now named.now.files.rows.now) lines.now)) }
{
    for i in 0..lines.len() {
        if !is_file_given(&lines[i], named) {
            return Err(missing_told(lines[i].number));
        }
    }
    Ok(())
}

/// The operation of a line.
fn operation<'a, E: Order>(line: Line<'a>, named: &ByName<'a>) -> Op<'a>
    ensures { result ≡ op_in E.order
        (bytes_named named.now.files.bytes.now named.now.files.rows.now) line.entry }
{
    let bytes: &[u8] = match line.action.file() {
        Some(name) => named.bytes(name.as_bytes()),
        None => &[],
    };
    line.action.op::<E>(bytes)
}

/// The operations of lines.
fn operations<'a, E: Order>(
    alloc: Global,
    lines: Vec<Line<'a>>,
    named: &ByName<'a>,
) -> Result<Vec<Op<'a>>, AllocError>
    ensures { IfOk result (λ ops. ops.items
        ≡ ops_in E.order (bytes_named named.now.files.bytes.now named.now.files.rows.now)
        lines.entry.items) }
{
    let mut ops = Vec::with_capacity(alloc, lines.len())?;
    for line in lines {
        ops.push(operation::<E>(line, named))?;
    }
    Ok(ops)
}

/// The numbers of lines.
fn numbers_of(alloc: Global, lines: &[Line<'_>]) -> Result<Vec<usize>, AllocError>
    ensures { IfOk result (λ numbers. numbers.items ≡ map (λ line. line.number) lines.now) }
{
    lines.iter().map(|line| line.number).collect(alloc)
}

/// The operations of lines, and their numbers.
fn planned_by<'a, E: Order>(
    alloc: Global,
    lines: Vec<Line<'a>>,
    named: &ByName<'a>,
) -> Result<Planned<'a>, AllocError>
    ensures ops { IfOk result (λ planned. planned.ops.items
        ≡ ops_in E.order (bytes_named named.now.files.bytes.now named.now.files.rows.now)
        lines.entry.items) }
    ensures numbers { IfOk result
        (λ planned. planned.numbers.items ≡ map (λ line. line.number) lines.entry.items) }
{
    let numbers = numbers_of(alloc, &lines)?;
    let ops = operations::<E>(alloc, lines, named)?;
    Ok(Planned { ops, numbers })
}

/// The operations of a listing, with the files that it names.
pub(crate) fn plan<'a, E: Order>(
    alloc: Global,
    text: &'a [u8],
    files: Files<'a>,
) -> Result<Planned<'a>, Told>
    ensures ok { IfOk result (λ planned. AreOpsOf E.order
        (listed_with text.entry.now files.entry.bytes.now files.entry.rows.now)
        planned.ops.items planned.numbers.items) }
    ensures err { IfErr result (IsDueFault
        (OpsRefused (listed_with text.entry.now files.entry.bytes.now files.entry.rows.now))) }
{
    if let Err(told) = judge_rows(files.bytes.len(), files.rows) {
        return Err(told);
    }
    let lines = match lines_of(alloc, text) {
        Ok(lines) => lines,
        Err(told) => return Err(told),
    };
    let named = match ByName::of(alloc, files) {
        Ok(named) => named,
        Err(AllocError) => return Err(no_memory()),
    };
    if let Err(told) = judge_lines(&lines, &named) {
        return Err(told);
    }
    match planned_by::<E>(alloc, lines, &named) {
        Ok(planned) => Ok(planned),
        Err(AllocError) => Err(no_memory()),
    }
}
