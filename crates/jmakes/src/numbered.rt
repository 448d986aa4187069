//! The operations of a listing, with the numbers of its lines.
ghost use Rattle.std.specs.Prelude.{◌≡◌, IfOk, map};
ghost use Rattle.jbuild.specs.HostFiles.{part_contents};
ghost use Rattle.jedge.specs.Acts.{seen_as};
ghost use Rattle.jmakes.specs.Seen.{numbered_seen};
ghost use Rattle.jmakes.specs.Writing.{HasOps};

use jbuild::{HostFiles, operations};
use jedge::fault::Fault;
use jlisting::Line;
use jnode::Order;
use jsteps::Op;
use std::alloc::{AllocError, Global};

/// Operations, and the numbers of the lines that they are from.
#[derive(Drop)]
pub struct NumberedOps<'a> {
    pub ops: Vec<Op<'a>>,
    pub numbers: Vec<usize>,
}

/// The numbers of lines.
fn numbers_of(alloc: Global, lines: &[Line<'_>]) -> Result<Vec<usize>, AllocError>
    ensures { IfOk result (λ numbers. numbers.items ≡ map (λ line. line.number) lines.now) }
{
    lines.iter().map(|line| line.number).collect(alloc)
}

/// The operations of lines, with the bytes of the files that they name.
pub fn numbered<'b, 'a: 'b, E: Order>(
    alloc: Global,
    lines: Vec<Line<'a>>,
    files: &'b HostFiles,
) -> Result<NumberedOps<'b>, Fault>
    ensures { HasOps E.order (part_contents files.now) lines.entry.items
        (seen_as numbered_seen result) }
{
    let numbers = match numbers_of(alloc, &lines) {
        Ok(numbers) => numbers,
        Err(_) => return Err(Fault::OutOfMemory),
    };
    match operations::<E>(alloc, lines, files) {
        Ok(ops) => Ok(NumberedOps { ops, numbers }),
        Err(_) => Err(Fault::OutOfMemory),
    }
}
