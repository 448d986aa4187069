//! What each unit of a file holds.

ghost use Rattle.std.specs.Prelude.{◌≡◌, ◌≤◌, ◌<◌, ◌==◌, ℕ, IfOk, IfSome, false, length, slice_index_or};
ghost use Rattle.std.specs.List.{list_all};
ghost use Rattle.flashbase.specs.Lists.{each_below};
ghost use Rattle.jnode.specs.declared.order.Endian.TheVariants.{Big, Little};
ghost use Rattle.jscan.specs.Image.{greatest_image};
ghost use Rattle.jregions.specs.Units.{has_node, unit_kind_at, kind_by, order_among, unit_bytes, unit_count, units_of, usual_order};

use crate::touched::{UNIT, touched, unit_count};
use crate::unit::UnitKind;
use byteorder::{BigEndian, LittleEndian};
use jinfo::info_of;
use jnode::Endian;
use std::alloc::{AllocError, Global};

fn are_erased(bytes: &[u8]) -> bool
    ensures { result ≡ list_all (λ b. b == 0xFF) bytes.now }
{
    bytes.iter().all(|byte| *byte == 0xFF)
}

fn kind_by(order: Option<Endian>, bytes: &[u8]) -> UnitKind
    ensures { result ≡ kind_by order bytes.now }
{
    match order {
        Some(order) => UnitKind::Nodes(order),
        None if are_erased(bytes) => UnitKind::Erased,
        None => UnitKind::Foreign,
    }
}

/// The bytes of a unit.
fn unit_bytes(file: &[u8], unit: usize) -> &[u8]
    requires image { length file.now ≤ greatest_image }
    requires unit { unit < unit_count file.now }
    ensures { result.now ≡ unit_bytes file.now unit }
{
    let from = unit * UNIT;
    let len = UNIT.min(file.len() - from);
    &file[from..from + len]
}

/// The order that `info` prints of the whole file.
fn usual_order(file: &[u8]) -> Endian
    requires { length file.now ≤ greatest_image }
    ensures { result ≡ usual_order file.now }
{
    info_of(file).order.unwrap_or(Endian::Little)
}

/// The order of a unit that has nodes of the little order, or of the big one, or of both. The order
/// of the file takes a walk, so it is looked for if a unit has both, and then once.
fn order_among(file: &[u8], usual: &mut Option<Endian>, little: bool, big: bool) -> Option<Endian>
    requires image { length file.now ≤ greatest_image }
    requires usual { IfSome usual.old (λ order. order ≡ usual_order file.now) }
    ensures order { result ≡ order_among (usual_order file.now) little big }
    ensures usual { IfSome usual.new (λ order. order ≡ usual_order file.now) }
{
    match (little, big) {
        (true, true) => {
            let order = usual.unwrap_or_else(|| usual_order(file));
            *usual = Some(order);
            Some(order)
        }
        (true, false) => Some(Endian::Little),
        (false, true) => Some(Endian::Big),
        (false, false) => None,
    }
}

/// What each unit of a file holds, by those that have nodes of either order.
fn units_by(
    alloc: Global,
    file: &[u8],
    little: &[bool],
    big: &[bool],
) -> Result<Vec<UnitKind>, AllocError>
    requires image { length file.now ≤ greatest_image }
    requires little_long { length little.now ≡ unit_count file.now }
    requires big_long { length big.now ≡ unit_count file.now }
    requires little { (unit : ℕ) → unit < unit_count file.now
        → slice_index_or little.now unit false ≡ has_node Little file.now unit }
    requires big { (unit : ℕ) → unit < unit_count file.now
        → slice_index_or big.now unit false ≡ has_node Big file.now unit }
    ensures { IfOk result (λ units.
        units.items ≡ each_below (unit_count file.now) (unit_kind_at file.now)) }
{
    let mut usual = None;
    let mut units = Vec::new(alloc);
    for unit in 0..unit_count(file) {
        let order = order_among(file, &mut usual, little[unit], big[unit]);
        units.push(kind_by(order, unit_bytes(file, unit)))?;
    }
    Ok(units)
}

/// What each unit of a file holds.
#[tactic(auto, unfolding(crate::specs::Units::units_of))]
pub(crate) fn units_of(alloc: Global, file: &[u8]) -> Result<Vec<UnitKind>, AllocError>
    requires { length file.now ≤ greatest_image }
    ensures { IfOk result (λ units. units.items ≡ units_of file.now) }
{
    let little = touched::<LittleEndian>(alloc, file)?;
    let big = touched::<BigEndian>(alloc, file)?;
    units_by(alloc, file, &little, &big)
}
