//! What the damages of nodes are called.

ghost use Rattle.std.specs.Prelude.{◌≡◌, ◌≤◌, length};
ghost use Rattle.jline.specs.Damages.{damage_name};

use jnode::Damage;

/// The check that a node fails first.
pub fn damage_name(which: Damage) -> &'static [u8]
    ensures name { result.now ≡ damage_name which }
    ensures short { length result.now ≤ 8 }
{
    match which {
        Damage::NodeCrc => b"node-crc",
        Damage::NameCrc => b"name-crc",
        Damage::DataCrc => b"data-crc",
        Damage::Length => b"length",
        Damage::Range => b"range",
    }
}
