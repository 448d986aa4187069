//! The versions of objects, of some nodes.

ghost use Rattle.std.specs.Prelude.{◌≡◌, ◌++◌, [], ◌∷◌, ℕ, List, Some, IfOk, OnOk};
ghost use Rattle.std.specs.BTreeMap.{get};
ghost use Rattle.std.specs.Ordering.{nat_cmp};
ghost use Rattle.jpast.specs.Pasts.{IsSpanIf, IsSpanOf, NodesAt};
ghost use Rattle.jpast.specs.Spans.{AreSpansOf, HasSpans, and_version};

use crate::past::Span;
use jnode::NodeRef;
use std::alloc::{AllocError, Global};
use std::collections::BTreeMap;

/// The versions of objects, by their numbers.
pub(crate) type Spans = BTreeMap<u32, Span>;

/// With a version more.
fn widened(span: Option<Span>, version: u32) -> Span
    ensures { (versions : List ℕ) → IsSpanIf versions span
        → IsSpanOf (versions ++ version ∷ []) result }
{
    match span {
        Some(span) => Span {
            lowest: span.lowest.min(version),
            highest: span.highest.max(version),
        },
        None => Span {
            lowest: version,
            highest: version,
        },
    }
}

/// What is known of a number.
pub(crate) fn known(spans: &Spans, ino: u32) -> Option<Span>
    ensures { result ≡ get nat_cmp spans.now ino }
{
    spans.get(&ino).copied()
}

/// Notes a version of a number.
fn note_version(spans: &mut Spans, ino: u32, version: u32) -> Result<(), AllocError>
    ensures { OnOk result ((versions : ℕ → List ℕ) → AreSpansOf versions spans.old
        → AreSpansOf (and_version versions ino version) spans.new) }
{
    let span = widened(known(spans, ino), version);
    spans.insert(ino, span)?;
    Ok(())
}

/// Notes a node.
fn note(spans: &mut Spans, node: &NodeRef<'_>) -> Result<(), AllocError>
    ensures { OnOk result ((ns : NodesAt) (addr : ℕ) → HasSpans ns spans.old
        → HasSpans (ns ++ (addr, node.now) ∷ []) spans.new) }
{
    match node {
        NodeRef::Inode(inode) => note_version(spans, inode.ino, inode.version),
        NodeRef::Entry(_) => Ok(()),
    }
}

/// The versions of the objects of some nodes.
pub(crate) fn spans_of(alloc: Global, nodes: &[(u32, NodeRef<'_>)]) -> Result<Spans, AllocError>
    ensures { IfOk result (HasSpans nodes.now) }
{
    let mut spans = BTreeMap::new(alloc);
    for node in nodes {
        note(&mut spans, &node.1)?;
    }
    Ok(spans)
}
