//! The lines of `info`.

ghost use Rattle.std.specs.Prelude.{◌≡◌, ◌+◌, ◌≤◌, ◌++◌, length};
ghost use Rattle.flashbase.specs.Sinks.{PutsTo};
ghost use Rattle.jinfo.specs.InfoText.{PutsInfo, bytes_line, data_line, highest_line, info_lines, nodes_line, order_line, order_name, sizes_line};

use crate::highest::Highest;
use crate::info::{Info, info_of};
use crate::nodes::NodeCounts;
use crate::sizes::SizeRange;
use crate::storage::DataCounts;
use flashbase::{DeviceFault, Sink};
use jline::{LineBuffer, put_text};
use jnode::Endian;
use jscan::GREATEST_IMAGE;
use thiserror::Error;

/// Why nothing, or not all, is told of an image.
#[derive(Clone, Copy, Debug, PartialEq, Eq, Error)]
pub enum InfoFault {
    /// The image is longer than `jscan::GREATEST_IMAGE`.
    #[error("L2 TooLarge")]
    TooLarge,
    /// The sink failed.
    #[error("P5 Output")]
    Output,
}

impl From<DeviceFault> for InfoFault {
    ghost use Rattle.jinfo.specs.declared.lines.InfoFault.TheVariants.{Output};

    ghost from_gives = { λ _ e. e ≡ Output };

    fn from(_fault: DeviceFault) -> InfoFault {
        InfoFault::Output
    }
}

#[tactic(auto, unfolding(crate::specs::InfoText::bytes_line))]
fn push_bytes(line: &mut LineBuffer, bytes: u64)
    requires { length line.old ≤ 100 }
    ensures text { line.new ≡ line.old ++ bytes_line bytes }
    ensures short { length line.new ≤ length line.old + 27 }
{
    line.push_text(b"bytes ");
    line.push_decimal(bytes);
    line.push_text(b"\n");
}

fn order_name(order: Endian) -> &'static [u8]
    ensures name { result.now ≡ order_name order }
    ensures short { length result.now ≤ 6 }
{
    match order {
        Endian::Little => b"little",
        Endian::Big => b"big",
    }
}

#[tactic(auto, unfolding(crate::specs::InfoText::order_line))]
fn push_order(line: &mut LineBuffer, order: Option<Endian>, nodes: u64, other: u64)
    requires { length line.old ≤ 100 }
    ensures text { line.new ≡ line.old ++ order_line order nodes other }
    ensures short { length line.new ≤ length line.old + 68 }
{
    let Some(order) = order else {
        line.push_text(b"order none\n");
        return;
    };
    line.push_text(b"order ");
    line.push_text(order_name(order));
    line.push_text(b" nodes ");
    line.push_decimal(nodes);
    line.push_text(b" other ");
    line.push_decimal(other);
    line.push_text(b"\n");
}

#[tactic(auto, unfolding(crate::specs::InfoText::sizes_line))]
fn push_sizes(line: &mut LineBuffer, sizes: Option<SizeRange>, markers: u64)
    requires { length line.old ≤ 200 }
    ensures text { line.new ≡ line.old ++ sizes_line sizes markers }
    ensures short { length line.new ≤ length line.old + 85 }
{
    let Some(range) = sizes else {
        line.push_text(b"block unknown\n");
        return;
    };
    line.push_text(b"block from ");
    line.push_decimal(u64::from(range.least));
    line.push_text(b" to ");
    line.push_decimal(u64::from(range.greatest));
    line.push_text(b" markers ");
    line.push_decimal(markers);
    line.push_text(b"\n");
}

#[tactic(auto, unfolding(crate::specs::InfoText::nodes_line))]
fn push_nodes(line: &mut LineBuffer, counts: &NodeCounts)
    requires { length line.old ≤ 300 }
    ensures text { line.new ≡ line.old ++ nodes_line counts.now }
    ensures short { length line.new ≤ length line.old + 200 }
{
    line.push_text(b"nodes");
    line.push_text(b" entries ");
    line.push_decimal(counts.entries);
    line.push_text(b" inodes ");
    line.push_decimal(counts.inodes);
    line.push_text(b" obsolete ");
    line.push_decimal(counts.obsolete);
    line.push_text(b" damaged ");
    line.push_decimal(counts.damaged);
    line.push_text(b" other ");
    line.push_decimal(counts.other);
    line.push_text(b"\n");
}

#[tactic(auto, unfolding(crate::specs::InfoText::data_line))]
fn push_data(line: &mut LineBuffer, counts: &DataCounts)
    requires { length line.old ≤ 500 }
    ensures text { line.new ≡ line.old ++ data_line counts.now }
    ensures short { length line.new ≤ length line.old + 200 }
{
    line.push_text(b"data none ");
    line.push_decimal(counts.none);
    line.push_text(b" zero ");
    line.push_decimal(counts.zero);
    line.push_text(b" rtime ");
    line.push_decimal(counts.rtime);
    line.push_text(b" zlib ");
    line.push_decimal(counts.zlib);
    line.push_text(b" lzo ");
    line.push_decimal(counts.lzo);
    line.push_text(b" lzma ");
    line.push_decimal(counts.lzma);
    line.push_text(b" other ");
    line.push_decimal(counts.other);
    line.push_text(b"\n");
}

#[tactic(auto, unfolding(crate::specs::InfoText::highest_line))]
fn push_highest(line: &mut LineBuffer, numbers: &Highest)
    requires { length line.old ≤ 700 }
    ensures { line.new ≡ line.old ++ highest_line numbers.now }
{
    line.push_text(b"highest");
    line.push_text(b" inode ");
    line.push_decimal(u64::from(numbers.ino));
    line.push_text(b" version ");
    line.push_decimal(u64::from(numbers.version));
    line.push_text(b"\n");
}

/// Writes all lines of what an image tells.
#[tactic(auto, unfolding(crate::specs::InfoText::info_lines))]
fn write_info(line: &mut LineBuffer, info: &Info)
    ensures { line.new ≡ info_lines info.now }
{
    line.clear();
    push_bytes(line, info.bytes);
    push_order(line, info.order, info.census.nodes.all, info.other);
    push_sizes(line, info.census.sizes, info.census.markers);
    push_nodes(line, &info.census.nodes);
    push_data(line, &info.census.storage);
    push_highest(line, &info.census.highest);
}

/// Puts all lines of what an image tells.
fn put_lines<S: Sink>(info: &Info, sink: &mut S) -> Result<(), DeviceFault>
    ensures { PutsTo S.Sink sink.old sink.new (info_lines info.now) result }
{
    let mut line = LineBuffer::new();
    write_info(&mut line, info);
    put_text(sink, line.as_slice())
}

/// Puts what an image tells of itself, a line each, and answers its byte order; none where no
/// header is good. It takes no memory, and time linear in the bytes.
pub fn put_info<S: Sink>(image: &[u8], sink: &mut S) -> Result<Option<Endian>, InfoFault>
    ensures { PutsInfo image.now (S.taken sink.old) (S.taken sink.new) (S.failures sink.old)
        (S.failures sink.new) result }
{
    if image.len() > GREATEST_IMAGE {
        return Err(InfoFault::TooLarge);
    }
    let info = info_of(image);
    put_lines(&info, sink)?;
    Ok(info.order)
}
