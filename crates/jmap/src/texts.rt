//! What the picture says of each stretch, written into a line buffer.

ghost use Rattle.std.specs.Prelude.{◌≡◌, ◌+◌, ◌*◌, ◌<◌, ◌≤◌, ◌++◌, length};
ghost use Rattle.jnode.specs.Order.{number_at};
ghost use Rattle.jscan.specs.Image.{greatest_image};
ghost use Rattle.jscan.specs.declared.extent.ExtentKind.TheVariants.{Tiled};
ghost use Rattle.jmap.specs.NodeTexts.{compressed_text, entry_numbers, entry_text, first_fields, inode_text, markup_byte, markup_name, node_title, titled_name, type_text, version_text, what_text};

use flashbase::Part;
use jline::{LineBuffer, damage_name};
use jnode::{Dirent, InodeNode, Order, Seen};
use jscan::{Extent, ExtentKind};

/// Where the number and the version of an inode node are, and where its next field is.
const INO: usize = 12;

const VERSION: usize = 16;

const FIELDS: usize = 20;

/// A byte of a name, by itself.
pub(crate) fn push_byte(line: &mut LineBuffer, byte: u8)
    requires { length line.old + 4 ≤ 1200 }
    ensures text { line.new ≡ line.old ++ markup_byte byte }
    ensures grows { length line.new ≤ length line.old + 4 }
{
    match byte {
        b'&' => line.push_text(b"\\x26"),
        b'<' => line.push_text(b"\\x3c"),
        b'>' => line.push_text(b"\\x3e"),
        _ => line.push_escaped(&Part::new(&[byte], 0)),
    }
}

/// A name.
pub(crate) fn push_name(line: &mut LineBuffer, name: &Part<'_>)
    requires { length line.old + 4 * length name.now ≤ 1200 }
    ensures text { line.new ≡ line.old ++ markup_name name.now }
    ensures grows { length line.new ≤ length line.old + 4 * length name.now }
{
    for byte in name.iter() {
        push_byte(line, byte);
    }
}

#[tactic(auto, unfolding(crate::specs::NodeTexts::version_text))]
fn push_version(line: &mut LineBuffer, ino: u32, version: u32)
    requires { length line.old ≤ 1140 }
    ensures text { line.new ≡ line.old ++ version_text ino version }
    ensures grows { length line.new ≤ length line.old + 56 }
{
    line.push_text(b"inode ");
    line.push_decimal(u64::from(ino));
    line.push_text(b", version ");
    line.push_decimal(u64::from(version));
}

/// What is behind the name of an entry.
#[tactic(auto, unfolding(crate::specs::NodeTexts::entry_numbers))]
fn push_numbers(line: &mut LineBuffer, entry: &Dirent<'_>)
    requires { length line.old ≤ 1100 }
    ensures { line.new ≡ line.old ++ entry_numbers entry.now }
{
    line.push_text(b" in directory ");
    line.push_decimal(u64::from(entry.pino));
    line.push_text(b", ");
    push_version(line, entry.ino, entry.version);
}

#[tactic(auto, unfolding(crate::specs::NodeTexts::entry_text))]
fn push_entry(line: &mut LineBuffer, entry: &Dirent<'_>)
    requires empty { length line.old ≡ 0 }
    requires name { length entry.now.name ≤ 255 }
    ensures { line.new ≡ line.old ++ entry_text entry.now }
{
    line.push_text(b"entry ");
    push_name(line, &entry.name);
    push_numbers(line, entry);
}

#[tactic(auto, unfolding(crate::specs::NodeTexts::inode_text))]
fn push_inode(line: &mut LineBuffer, node: &InodeNode<'_>)
    requires { length line.old ≡ 0 }
    ensures { line.new ≡ line.old ++ inode_text node.now }
{
    push_version(line, node.ino, node.version);
    line.push_text(b", bytes ");
    line.push_decimal(u64::from(node.offset));
    line.push_text(b" to ");
    line.push_decimal(u64::from(node.offset) + u64::from(node.dsize));
}

/// The first bytes of the node at an address.
#[tactic(auto, unfolding(crate::specs::NodeTexts::first_fields))]
fn first_fields(image: &[u8], addr: u32) -> [u8; FIELDS]
    requires { length image.now ≤ greatest_image }
    ensures { result ≡ first_fields image.now addr }
{
    let from = (addr as usize).min(image.len());
    let mut fields = [0; FIELDS];
    Part::new(&image[from..], FIELDS)
        .slice(0, FIELDS)
        .copy_to(&mut fields);
    fields
}

/// The number at a place of a node.
fn field<E: Order>(fields: &[u8; FIELDS], place: usize) -> u32
    requires { place + 4 ≤ 20 }
    ensures { result ≡ number_at E.order 4 place fields.now }
{
    E::read_u32(&fields[place..])
}

/// The number of the inode node at an address, whose data are compressed.
pub(crate) fn inode_number<E: Order>(image: &[u8], addr: u32) -> u32
    requires { length image.now ≤ greatest_image }
    ensures { result ≡ number_at E.order 4 12 (first_fields image.now addr) }
{
    field::<E>(&first_fields(image, addr), INO)
}

#[tactic(auto, unfolding(crate::specs::NodeTexts::compressed_text))]
fn push_compressed<E: Order>(line: &mut LineBuffer, image: &[u8], addr: u32)
    requires empty { length line.old ≡ 0 }
    requires image { length image.now ≤ greatest_image }
    ensures { line.new ≡ line.old ++ compressed_text E.order image.now addr }
{
    let fields = first_fields(image, addr);
    push_version(line, field::<E>(&fields, INO), field::<E>(&fields, VERSION));
    line.push_text(b", compressed");
}

fn push_type(line: &mut LineBuffer, nodetype: u16)
    requires { length line.old ≡ 0 }
    ensures { line.new ≡ line.old ++ type_text nodetype }
{
    line.push_text(b"node of type ");
    line.push_hex(4, u64::from(nodetype));
}

fn push_node<E: Order>(line: &mut LineBuffer, image: &[u8], addr: u32, seen: &Seen<'_>)
    requires empty { length line.old ≡ 0 }
    requires image { length image.now ≤ greatest_image }
    requires name { length (titled_name (Tiled seen.now)) ≤ 255 }
    ensures { line.new ≡ line.old ++ node_title E.order image.now addr seen.now }
{
    match seen {
        Seen::Entry(entry) => push_entry(line, entry),
        Seen::Inode(node) => push_inode(line, node),
        Seen::Marker => line.push_text(b"clean marker"),
        Seen::Padding => line.push_text(b"padding"),
        Seen::Obsolete => line.push_text(b"node that is marked obsolete"),
        Seen::Attribute => line.push_text(b"extended attribute"),
        Seen::Skippable { nodetype } => push_type(line, *nodetype),
        Seen::ReadOnly { nodetype } => push_type(line, *nodetype),
        Seen::Incompatible { nodetype } => push_type(line, *nodetype),
        Seen::Compressed { .. } => push_compressed::<E>(line, image, addr),
        Seen::Damaged { which } => {
            line.push_text(b"damaged node: ");
            line.push_text(damage_name(*which));
        }
    }
}

/// What an extent is.
pub(crate) fn what_line<E: Order>(image: &[u8], extent: &Extent<'_>) -> LineBuffer
    requires image { length image.now ≤ greatest_image }
    requires name { length (titled_name extent.now.kind) ≤ 255 }
    ensures { result ≡ what_text E.order image.now extent.now.addr extent.now.kind }
{
    let mut line = LineBuffer::new();
    match &extent.kind {
        ExtentKind::Tiled(seen) => push_node::<E>(&mut line, image, extent.addr, seen),
        ExtentKind::Erased => line.push_text(b"erased"),
        ExtentKind::OtherOrder => line.push_text(b"words of the other byte order"),
        ExtentKind::Dirt => line.push_text(b"dirt"),
    }
    line
}
