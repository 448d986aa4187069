//! The operations of a listing.

ghost use Rattle.std.specs.Prelude.{◌≡◌, IfOk};
ghost use Rattle.jbuild.specs.HostFiles.{part_contents};
ghost use Rattle.jbuild.specs.Operations.{op_in, ops_in};

use crate::host_files::HostFiles;
use jlisting::Line;
use jnode::Order;
use jsteps::Op;
use std::alloc::{AllocError, Global};

/// The operation of a line.
fn operation<'b, 'a: 'b, E: Order>(line: Line<'a>, parts: &'b HostFiles) -> Op<'b>
    ensures { result ≡ op_in E.order (part_contents parts.now) line.entry }
{
    let bytes: &[u8] = match line.action.file() {
        Some(name) => parts.bytes(name),
        None => &[],
    };
    line.action.op::<E>(bytes)
}

/// The operations of the lines of a listing, in order, for an image of `E`'s order. They borrow the
/// bytes of the files that the lines name; one that was not read has none.
pub fn operations<'b, 'a: 'b, E: Order>(
    alloc: Global,
    lines: Vec<Line<'a>>,
    parts: &'b HostFiles,
) -> Result<Vec<Op<'b>>, AllocError>
    ensures { IfOk result
        (λ ops. ops.items ≡ ops_in E.order (part_contents parts.now) lines.entry.items) }
{
    let mut ops = Vec::with_capacity(alloc, lines.len())?;
    for line in lines {
        ops.push(operation::<E>(line, parts))?;
    }
    Ok(ops)
}
