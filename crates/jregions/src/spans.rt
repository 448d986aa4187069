//! Which units lie together.

ghost use Rattle.std.specs.Prelude.{◌≡◌, ◌≤◌, ◌<◌, ◌+◌, ◌^◌, ◌∷◌, List, IfOk, OnOk, length, reverse};
ghost use Rattle.jregions.specs.Spans.{foreign_ahead, goes_on, is_of_order, spans_from, unit_before};
ghost use Rattle.jregions.specs.declared.unit.UnitKind.{UnitKind};

use crate::span::Span;
use crate::unit::UnitKind;
use jnode::Endian;
use std::alloc::{AllocError, Global};

/// So many foreign units are no dirt within a file system.
const GREATEST_GAP: usize = 16;

fn is_of_order(first: Endian, second: Endian) -> bool
    ensures { result ≡ is_of_order first second }
{
    matches!(
        (first, second),
        (Endian::Little, Endian::Little) | (Endian::Big, Endian::Big)
    )
}

/// Whether a span goes on from a unit of nodes, with so many foreign units between them.
fn goes_on(gap: usize, order: Endian, next: Span) -> bool
    ensures { result ≡ goes_on gap order next }
{
    is_of_order(order, next.order) && gap < GREATEST_GAP
}

/// Adds a unit of nodes to the spans behind it, of which the first is the last one here.
fn put_before(spans: &mut Vec<Span>, gap: usize, order: Endian, at: u32) -> Result<(), AllocError>
    requires { at + 1 < 2 ^ 32 }
    ensures { OnOk result
        (reverse spans.new.items ≡ unit_before gap order at (reverse spans.old.items)) }
{
    let one = Span {
        order,
        from: at,
        to: at + 1,
    };
    let Some(next) = spans.pop() else {
        spans.push(one)?;
        return Ok(());
    };
    if goes_on(gap, order, next) {
        spans.push(Span {
            order,
            from: at,
            to: next.to,
        })?;
        return Ok(());
    }
    spans.push(next)?;
    spans.push(one)?;
    Ok(())
}

/// Adds any unit, and answers how many foreign ones come before the next one of nodes.
fn take_unit(
    spans: &mut Vec<Span>,
    kind: UnitKind,
    at: u32,
    gap: usize,
) -> Result<usize, AllocError>
    requires at { at + 1 < 2 ^ 32 }
    requires gap { gap < 2 ^ 32 }
    ensures spans { OnOk result ((us : List UnitKind) → gap ≡ foreign_ahead us
        → reverse spans.old.items ≡ spans_from (at + 1) us
        → reverse spans.new.items ≡ spans_from at (kind ∷ us)) }
    ensures gap { IfOk result (λ next. (us : List UnitKind) → gap ≡ foreign_ahead us
        → next ≡ foreign_ahead (kind ∷ us)) }
    ensures small { IfOk result (λ next. next ≤ gap + 1) }
{
    match kind {
        UnitKind::Nodes(order) => {
            put_before(spans, gap, order, at)?;
            Ok(0)
        }
        UnitKind::Erased => Ok(gap),
        UnitKind::Foreign => Ok(gap + 1),
    }
}

/// The spans of all units, from the last one down.
pub(crate) fn spans_of(alloc: Global, units: &[UnitKind]) -> Result<Vec<Span>, AllocError>
    requires { length units.now < 2 ^ 31 }
    ensures { IfOk result (λ spans. spans.items ≡ spans_from 0 units.now) }
{
    let mut spans = Vec::new(alloc);
    let mut gap = 0;
    let mut at = units.len();
    while 0 < at {
        at -= 1;
        gap = take_unit(&mut spans, units[at], at as u32, gap)?;
    }
    spans.reverse();
    Ok(spans)
}
