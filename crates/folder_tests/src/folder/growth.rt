//! Refused growth.

use crate::checks::{equal, expect};
use crate::folder::folders::{AS_TOLD, TREE_NOTES, TREE_TEXT, is_read, tree};
use crate::folder::memory::Memory;
use jfolder::{ReadFault, read_folder};
use test_support::Matcher;

/// Passes with each allocation failing in turn too: memory is then blamed and nothing else, and the
/// next call answers as if there had been none before.
#[test]
fn refused_growth_is_no_listing(rt: HostRuntime) {
    let alloc = rt.alloc();
    let objects = tree();
    let mut notes = Matcher {
        rest: TREE_NOTES.as_bytes(),
        failures: 0,
    };
    match read_folder(
        alloc,
        &mut Memory::new(alloc, &objects),
        &AS_TOLD,
        &mut notes,
    ) {
        Ok(read) => equal(&rt, read.left_out, 1),
        Err(fault) => {
            equal(&rt, fault, ReadFault::OutOfMemory);
            expect(
                &rt,
                is_read(alloc, &tree(), &AS_TOLD, TREE_TEXT, TREE_NOTES, 1),
            );
        }
    }
}
