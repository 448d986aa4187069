//! The lines of regions.

ghost use Rattle.std.specs.Prelude.{◌≡◌, ◌+◌, ◌≤◌, ◌++◌, length};
ghost use Rattle.std.specs.List.{flat_map};
ghost use Rattle.flashbase.specs.Sinks.{PutsTo};
ghost use Rattle.jinfo.specs.InfoText.{order_name};
ghost use Rattle.jregions.specs.RegionText.{more_regions_line, region_line, region_lines, sizes_words};

use crate::region::{Region, Regions};
use flashbase::{DeviceFault, Sink};
use jinfo::SizeRange;
use jline::{LineBuffer, put_text};
use jnode::Endian;

fn order_name(order: Endian) -> &'static [u8]
    ensures name { result.now ≡ order_name order }
    ensures short { length result.now ≤ 6 }
{
    match order {
        Endian::Little => b"little",
        Endian::Big => b"big",
    }
}

#[tactic(auto, unfolding(crate::specs::RegionText::sizes_words))]
fn push_sizes(line: &mut LineBuffer, sizes: Option<SizeRange>)
    requires { length line.old ≤ 200 }
    ensures text { line.new ≡ line.old ++ sizes_words sizes }
    ensures short { length line.new ≤ length line.old + 60 }
{
    let Some(range) = sizes else {
        line.push_text(b"unknown");
        return;
    };
    line.push_text(b"from ");
    line.push_decimal(u64::from(range.least));
    line.push_text(b" to ");
    line.push_decimal(u64::from(range.greatest));
}

#[tactic(auto, unfolding(crate::specs::RegionText::region_line))]
fn write_region(line: &mut LineBuffer, region: &Region)
    ensures { line.new ≡ region_line region.now }
{
    line.clear();
    line.push_text(b"region from 0x");
    line.push_hex(8, u64::from(region.from));
    line.push_text(b" to 0x");
    line.push_hex(8, u64::from(region.to));
    line.push_text(b" order ");
    line.push_text(order_name(region.order));
    line.push_text(b" block ");
    push_sizes(line, region.sizes);
    line.push_text(b"\n");
}

/// Puts the line of each region.
fn put_each<T: Sink>(regions: &[Region], sink: &mut T) -> Result<(), DeviceFault>
    ensures { PutsTo T.Sink sink.old sink.new (flat_map region_line regions.now) result }
{
    let mut line = LineBuffer::new();
    let mut i = 0;
    while i < regions.len() {
        write_region(&mut line, &regions[i]);
        put_text(sink, line.as_slice())?;
        i += 1;
    }
    Ok(())
}

/// Puts the line that says that there are more.
fn put_more<T: Sink>(more: bool, sink: &mut T) -> Result<(), DeviceFault>
    ensures { PutsTo T.Sink sink.old sink.new (more_regions_line more) result }
{
    if more {
        put_text(sink, b"more regions than these 16\n")
    } else {
        Ok(())
    }
}

/// Puts a line for each region, and one that says so if there are more.
///
/// # Errors
/// The sink failed; a beginning of the lines went out.
#[tactic(auto, unfolding(crate::specs::RegionText::region_lines))]
pub fn put_regions<T: Sink>(regions: &Regions, sink: &mut T) -> Result<(), DeviceFault>
    ensures { PutsTo T.Sink sink.old sink.new (region_lines regions.now) result }
{
    put_each(&regions.first, sink)?;
    put_more(regions.more, sink)
}
