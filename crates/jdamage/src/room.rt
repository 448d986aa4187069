//! How much room the paths take that are told: it is found out before a line goes out.

ghost use Rattle.std.specs.Prelude.{◌≡◌, ◌+◌, ◌≤◌, ◌^◌, All, length, true};
ghost use Rattle.jscan.specs.Image.{greatest_image};
ghost use Rattle.jdamage.specs.Room.{GapPathsFit, HeldPathsFit, NodePathsFit};
ghost use Rattle.jdamage.specs.Telling.{HasListedNumber, HaveFiles, HaveNumbers};

use crate::fields::loss_at;
use crate::firsts::Name;
use crate::ways::Ways;
use jgaps::{Gap, stretch_at};
use jnode::{Damage, Order};
use std::collections::BTreeSet;

/// The greatest depth of the directories that hold these names.
pub(crate) fn deepest(ways: &Ways<'_, '_>, names: &[Name<'_>]) -> u64
    ensures room { HeldPathsFit ways.now.up.mounted.now.state (result + 1) names.now }
    ensures few { result ≤ 2 ^ 32 }
{
    let mut most = 0;
    for (pino, _, _) in names {
        most = most.max(ways.up.depth(*pino));
    }
    most
}

/// The greatest depth of a directory of which is told where a node is damaged.
fn deepest_of<E: Order>(
    ways: &Ways<'_, '_>,
    hidden: &BTreeSet<u32>,
    addr: u32,
    which: Damage,
) -> u64
    requires image { length ways.now.up.mounted.now.image ≤ greatest_image }
    requires number { HasListedNumber E.order ways.now.up.mounted.now.image ways.now.numbers.now
        (addr, which) }
    ensures room { NodePathsFit E.order ways.now.up.mounted.now hidden.now (result + 1)
        (addr, which) }
    ensures few { result ≤ 2 ^ 32 }
{
    let image = ways.up.mounted.image();
    match which {
        Damage::DataCrc => {
            if hidden.contains(&addr) {
                return 0;
            }
            deepest(ways, ways.told(stretch_at::<E>(image, addr).ino))
        }
        Damage::NameCrc => ways.up.depth(loss_at::<E>(image, addr).pino),
        Damage::NodeCrc | Damage::Length | Damage::Range => 0,
    }
}

/// The same of all these nodes.
pub(crate) fn deepest_of_all<E: Order>(
    ways: &Ways<'_, '_>,
    hidden: &BTreeSet<u32>,
    damaged: &[(u32, Damage)],
) -> u64
    requires image { length ways.now.up.mounted.now.image ≤ greatest_image }
    requires numbers { HaveNumbers E.order ways.now.up.mounted.now.image ways.now.numbers.now
        damaged.now }
    ensures room { All (NodePathsFit E.order ways.now.up.mounted.now hidden.now (result + 1))
        damaged.now }
    ensures few { result ≤ 2 ^ 32 }
{
    let mut most = 0;
    for (addr, which) in damaged {
        most = most.max(deepest_of::<E>(ways, hidden, *addr, *which));
    }
    most
}

/// The same of the files of these gaps.
pub(crate) fn deepest_of_gaps(ways: &Ways<'_, '_>, gaps: &[Gap]) -> u64
    requires { HaveFiles ways.now.numbers.now gaps.now }
    ensures room { GapPathsFit ways.now.up.mounted.now.state (result + 1) gaps.now }
    ensures few { result ≤ 2 ^ 32 }
{
    let mut most = 0;
    for gap in gaps {
        most = most.max(deepest(ways, ways.told(gap.ino)));
    }
    most
}
