//! A growth that is refused is told as such.

use crate::checks::{equal, expect};
use flashbase::{LoadFault, load};
use test_support::Giver;

/// Passes with each allocation failing in turn too: memory is then blamed and no device, and what
/// the source has left can be loaded.
#[test]
fn refused_growth_is_want_of_memory(rt: HostRuntime) {
    let text = b"the quick brown fox jumps over the lazy dog".as_slice();
    let mut source = Giver::failing(text, 1, usize::MAX);
    let first = load(rt.alloc(), &mut source, text.len());
    if let Err(fault) = &first {
        equal(&rt, *fault, LoadFault::OutOfMemory);
    }
    let (want, loaded) = match first {
        Ok(bytes) => (text, Ok(bytes)),
        Err(_) => (source.rest, load(rt.alloc(), &mut source, text.len())),
    };
    expect(&rt, loaded.is_ok_and(|bytes| bytes.as_slice() == want));
    equal(&rt, source.failures, 0);
}
