//! Items by number.

ghost use Rattle.std.specs.Prelude.{◌≡◌, ◌==◌, ◌++◌, ◌∷◌, ℕ, [], OnOk, if◌then◌else◌};
ghost use Rattle.jdamage.specs.Groups.{group_of};

use std::alloc::{AllocError, Global};
use std::collections::BTreeMap;

/// Items by number: those of one are in the order in which they came.
pub(crate) type Groups<T> = BTreeMap<u32, Vec<T>>;

/// Adds an item to those of a number. O(log n) for n numbers.
pub(crate) fn add<T: Drop>(
    alloc: Global,
    groups: &mut Groups<T>,
    number: u32,
    item: T,
) -> Result<(), AllocError>
    ensures { OnOk result ((n : ℕ) → group_of groups.new n
        ≡ group_of groups.old n ++ (if number == n then item ∷ [] else [])) }
{
    if let Some(group) = groups.get_mut(&number) {
        return Ok(group.push(item)?);
    }
    let mut group = Vec::new(alloc);
    group.push(item)?;
    groups.insert(number, group)?;
    Ok(())
}

/// The items of a number. O(log n) for n numbers.
#[tactic(auto, unfolding(crate::specs::Groups::group_of))]
pub(crate) fn group<T>(groups: &Groups<T>, number: u32) -> &[T]
    ensures { result.now ≡ group_of groups.now number }
{
    match groups.get(&number) {
        Some(group) => group.as_slice(),
        None => &[],
    }
}
