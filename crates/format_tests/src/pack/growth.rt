//! A growth that is refused is told as such.

use crate::checks::equal_at;
use crate::pack::contents::{Kind, content};
use jpack::{OutOfMemory, Packer, compress};
use std::alloc::Global;
use std::test::Fail;

/// How long a packer's answer is, or that there is none.
fn length_of(
    alloc: Global,
    bytes: &[u8],
    packer: &mut Packer,
) -> Result<Option<usize>, OutOfMemory> {
    Ok(compress(alloc, bytes, packer)?.map(|stream| stream.len()))
}

/// Passes with each allocation failing in turn too: then the packer answers the same bytes as if
/// there had been no call before.
#[test]
fn refused_growth_is_want_of_memory(rt: HostRuntime) -> Result<(), Fail> {
    let alloc = rt.alloc();
    let mut made = Packer::new(alloc);
    if made.is_err() {
        made = Packer::new(alloc);
    }
    let mut packer = made.map_err(|_| "no packer")?;
    for (kind, count, wanted) in [
        (Kind::Run, 0, Some(8)),
        (Kind::Random, 100, Some(111)),
        (Kind::Random, 1, Some(9)),
        (Kind::Run, 32_769, None),
    ] {
        let Ok(bytes) = content(alloc, kind, count).or_else(|_| content(alloc, kind, count)) else {
            return Err("no memory".into());
        };
        let mut found = length_of(alloc, &bytes, &mut packer);
        if found.is_err() {
            found = length_of(alloc, &bytes, &mut packer);
        }
        equal_at(&rt, found, Ok(wanted), (kind, count));
    }
    Ok(())
}
