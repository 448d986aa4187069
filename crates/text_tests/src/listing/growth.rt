//! Refused growth.

use crate::checks::{equal, expect};
use crate::listing::shown::is_shown;
use jlisting::{BadLine, ListingFault, Rule, WordRule, listing};
use std::alloc::Global;

const TEXT: &[u8] =
    b"create 644 /\\x61\nwrite /a 0 0fF0\nsymlink /\\x62 \\x63\nwrite /a 2 -\npart /\\x61 2 f\n\
      remove /b\nfile 644 /\\x62 f\\xff\n";

const LAST_LINE: ListingFault = ListingFault::Line(BadLine {
    line: 7,
    rule: Rule::Word(4, WordRule::NoText),
});

/// The reason why `TEXT` is not read.
fn fault(alloc: Global) -> Option<ListingFault> {
    match listing(alloc, TEXT) {
        Ok(_) => None,
        Err(fault) => Some(fault),
    }
}

/// Passes with each allocation failing in turn too: memory is then blamed and no line, and the next
/// call, with memory, answers as if there had been none before.
#[test]
fn refused_growth_is_no_wrong_line(rt: HostRuntime) {
    let first = fault(rt.alloc());
    if first != Some(ListingFault::OutOfMemory) {
        equal(&rt, first, Some(LAST_LINE));
    }
    if first == Some(ListingFault::OutOfMemory) {
        equal(&rt, fault(rt.alloc()), Some(LAST_LINE));
        expect(
            &rt,
            is_shown(rt.alloc(), b"remove /\\x61", "1: 0 remove /a\n"),
        );
    }
}
