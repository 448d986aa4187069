//! Which units of a file have nodes of one byte order.

ghost use Rattle.std.specs.Prelude.{◌≡◌, ◌≤◌, ◌<◌, ◌+◌, ◌^◌, ◌&&◌, ◌||◌, ℕ, IfOk, false, length, nat_le, slice_index_or};
ghost use Rattle.jnode.specs.Writing.{filled};
ghost use Rattle.jscan.specs.Image.{greatest_image};
ghost use Rattle.jregions.specs.Units.{has_node, reaches_unit, unit_count};

use flashbase::{Part, pad4};
use jnode::Order;
use jscan::{Extent, ExtentKind, Extents};
use std::alloc::{AllocError, Global};

/// The bytes of a unit.
pub(crate) const UNIT: usize = 4096;

/// The file as one block, filled up to whole words.
#[tactic(auto, unfolding(flashbase::specs::Bytes::pad4_of))]
fn filled(file: &[u8]) -> Part<'_>
    requires { length file.now ≤ greatest_image }
    ensures { result ≡ filled file.now }
{
    let len = pad4(file.len() as u32) as usize;
    Part::new(file, len - file.len())
}

/// How many units a file has.
pub(crate) fn unit_count(file: &[u8]) -> usize
    ensures { result ≡ unit_count file.now }
{
    file.len().div_ceil(UNIT)
}

/// Marks the units from one to another.
fn mark_from(units: &mut [bool], first: usize, last: usize)
    requires { last < 2 ^ 63 }
    ensures long { length units.new ≡ length units.old }
    ensures each { (unit : ℕ) → unit < length units.old → slice_index_or units.new unit false
        ≡ (slice_index_or units.old unit false || (nat_le first unit && nat_le unit last)) }
{
    let end = (last + 1).min(units.len());
    for unit in first..end {
        units[unit] = true;
    }
}

/// Marks the units that a node reaches.
fn mark(units: &mut [bool], extent: &Extent<'_>)
    ensures long { length units.new ≡ length units.old }
    ensures each { (unit : ℕ) → unit < length units.old → slice_index_or units.new unit false
        ≡ (slice_index_or units.old unit false || reaches_unit unit extent.now) }
{
    if !matches!(extent.kind, ExtentKind::Tiled(_)) {
        return;
    }
    let addr = extent.addr as usize;
    let end = addr + extent.len as usize;
    mark_from(units, addr / UNIT, end.saturating_sub(1) / UNIT);
}

/// Which units of a file have nodes of this order.
pub(crate) fn touched<E: Order>(alloc: Global, file: &[u8]) -> Result<Vec<bool>, AllocError>
    requires { length file.now ≤ greatest_image }
    ensures long { IfOk result (λ units. length units.items ≡ unit_count file.now) }
    ensures each { IfOk result (λ units. (unit : ℕ) → unit < unit_count file.now
        → slice_index_or units.items unit false ≡ has_node E.order file.now unit) }
{
    let mut units = vec![in alloc; false; unit_count(file)]?;
    for extent in Extents::<E>::of_part(0, filled(file)) {
        mark(&mut units, &extent);
    }
    Ok(units)
}
