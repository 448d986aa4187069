//! What inode nodes have, by object and place.

ghost use Rattle.std.specs.Prelude.{◌≡◌, ◌*◌, ◌+◌, ℕ};
ghost use Rattle.std.specs.List.{list_any};
ghost use Rattle.jgaps.specs.Gaps.{has_place, is_covered};
ghost use Rattle.jgaps.specs.Sweeping.{AreSorted, Begin, start_of};

use crate::fields::Stretch;

/// One number for the place where the range of a node begins.
pub(crate) fn start_of(stretch: &Stretch) -> u64
    ensures { result ≡ start_of stretch.now }
{
    u64::from(stretch.ino) * (1 << 32) + u64::from(stretch.from)
}

/// Those of one object. O(log n).
pub(crate) fn of_object(sound: &[Stretch], ino: u32) -> &[Stretch]
    requires { AreSorted sound.now }
    ensures begin { Begin result.now }
    ensures cover { (place : ℕ)
        → is_covered sound.now ino place ≡ list_any (has_place place) result.now }
{
    let first = sound.partition_point(|stretch| stretch.ino < ino);
    let rest = &sound[first..];
    let count = rest.partition_point(|stretch| stretch.ino <= ino);
    &rest[..count]
}
