//! The layout of a dump that is printed.
ghost use Rattle.std.specs.Prelude.{◌≡◌, IfOk};
ghost use Rattle.jspare.specs.Showing.{IsSpareShown, has_damage};

use crate::finding::spare_of;
use crate::layout::PageLayout;
use jinfo::info_of;
use jscan::GREATEST_IMAGE;
use std::alloc::{AllocError, Global};

/// Whether a dump has a damaged node.
#[tactic(auto, unfolding(crate::specs::Showing::has_damage))]
fn has_damage(dump: &[u8]) -> bool
    ensures { result ≡ has_damage dump.now }
{
    dump.len() <= GREATEST_IMAGE && info_of(dump).census.nodes.damaged > 0
}

/// The layout of a dump, of the usual ones: the one by which most of its nodes are sound. None, if
/// no node is damaged, or if by none of them more nodes are sound. It takes the memory of the dump
/// if a node is damaged, and time linear in its bytes.
pub fn spare_shown(alloc: Global, dump: &[u8]) -> Result<Option<PageLayout>, AllocError>
    ensures { IfOk result (λ found. IsSpareShown dump.now found) }
{
    if has_damage(dump) {
        spare_of(alloc, dump)
    } else {
        Ok(None)
    }
}
