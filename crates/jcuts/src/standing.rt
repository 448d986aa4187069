//! From where on a node stands whole.

ghost use Rattle.std.specs.Prelude.{◌≡◌, ◌≤◌, IfOk, length, map};
ghost use Rattle.std.specs.List.{AllByRecursion};
ghost use Rattle.jcuts.specs.Standing.{whole_len, IsNodeIn, standing_in};

use jlog::Place;
use jnode::{Order, weak_cut};
use std::alloc::{AllocError, Global};

/// A node that is to be written.
#[derive(Clone, Copy, Debug, PartialEq, Eq)]
pub struct Standing {
    /// Its address.
    pub addr: u32,
    /// Its length in bytes.
    pub totlen: u32,
    /// It stands whole exactly where the bytes below this address were put.
    pub stands_from: u32,
    /// The least number of its first bytes that pass every check with 0xFF after them and are not
    /// the node, if any do.
    pub weak: Option<usize>,
}

/// How many of its first bytes make a node whole on erased flash.
fn whole_len(node: &[u8]) -> usize
    ensures len { result ≡ whole_len node.now }
    ensures within { result ≤ length node.now }
{
    let mut len = node.len();
    while len > 0 && node[len - 1] == 0xFF {
        len -= 1;
    }
    len
}

/// The node at a place of bytes that go out from an address on.
fn standing_in<E: Order>(out: &[u8], from: u32, place: Place) -> Standing
    requires { IsNodeIn E.order from out.now place }
    ensures { result ≡ standing_in E.order from out.now place }
{
    let start = (place.addr - from) as usize;
    let node = &out[start..start + place.totlen as usize];
    Standing {
        addr: place.addr,
        totlen: place.totlen,
        stands_from: place.addr + whole_len(node) as u32,
        weak: weak_cut::<E>(node),
    }
}

/// The nodes at places of bytes that go out from an address on.
pub fn standings_in<E: Order>(
    alloc: Global,
    out: &[u8],
    from: u32,
    places: &[Place],
) -> Result<Vec<Standing>, AllocError>
    requires { AllByRecursion (IsNodeIn E.order from out.now) places.now }
    ensures { IfOk result (λ told. told.items ≡ map (standing_in E.order from out.now) places.now) }
{
    let mut told = Vec::with_capacity(alloc, places.len())?;
    let mut i = 0;
    while i < places.len() {
        told.push(standing_in::<E>(out, from, places[i]))?;
        i += 1;
    }
    Ok(told)
}
