//! What the fields of an inode node say.

ghost use Rattle.std.specs.Prelude.{◌≡◌, ◌+◌, ◌≤◌, length};
ghost use Rattle.jnode.specs.Reading.{inode_len};
ghost use Rattle.jscan.specs.Image.{greatest_image};
ghost use Rattle.jgaps.specs.Fields.{field_at, node_front, stretch_at, stretch_of, stretch_sighted};

use flashbase::Part;
use jnode::{INODE_LEN, InodeNode, Order, Seen};

/// Where the fields of an inode node are (Linux, include/uapi/linux/jffs2.h).
const INO: usize = 12;

const VERSION: usize = 16;

const OFFSET: usize = 44;

const DSIZE: usize = 52;

/// A version of an object, and the range of its bytes that a node is for.
#[derive(Clone, Copy)]
pub struct Stretch {
    pub ino: u32,
    pub version: u32,
    pub from: u32,
    pub to: u64,
}

/// The bytes in front of the data of the node at an address.
#[tactic(auto, unfolding(crate::specs::Fields::node_front))]
fn node_front(image: &[u8], addr: u32) -> [u8; INODE_LEN]
    requires { length image.now ≤ greatest_image }
    ensures { result ≡ node_front image.now addr }
{
    let from = (addr as usize).min(image.len());
    let mut front = [0; INODE_LEN];
    Part::new(&image[from..], INODE_LEN)
        .slice(0, INODE_LEN)
        .copy_to(&mut front);
    front
}

/// The 32-bit number at a place of the node at an address. What the image lacks of its first 68
/// bytes is taken as erased.
pub fn field_at<E: Order>(image: &[u8], addr: u32, place: usize) -> u32
    requires image { length image.now ≤ greatest_image }
    requires place { place + 4 ≤ inode_len }
    ensures { result ≡ field_at E.order image.now addr place }
{
    E::read_u32(&node_front(image, addr)[place..])
}

/// What the inode node at an address has, by its fields.
pub fn stretch_at<E: Order>(image: &[u8], addr: u32) -> Stretch
    requires { length image.now ≤ greatest_image }
    ensures { result ≡ stretch_at E.order image.now addr }
{
    let from = field_at::<E>(image, addr, OFFSET);
    Stretch {
        ino: field_at::<E>(image, addr, INO),
        version: field_at::<E>(image, addr, VERSION),
        from,
        to: u64::from(from) + u64::from(field_at::<E>(image, addr, DSIZE)),
    }
}

/// What an inode node has.
pub fn stretch_of(node: &InodeNode<'_>) -> Stretch
    ensures { result ≡ stretch_of node.now }
{
    Stretch {
        ino: node.ino,
        version: node.version,
        from: node.offset,
        to: u64::from(node.offset) + u64::from(node.dsize),
    }
}

/// What a sound inode node has, compressed or not.
pub fn stretch_sighted<E: Order>(image: &[u8], addr: u32, seen: &Seen<'_>) -> Option<Stretch>
    requires { length image.now ≤ greatest_image }
    ensures { result ≡ stretch_sighted E.order image.now (addr, seen.now) }
{
    match seen {
        Seen::Inode(node) => Some(stretch_of(node)),
        Seen::Compressed { .. } => Some(stretch_at::<E>(image, addr)),
        _ => None,
    }
}
