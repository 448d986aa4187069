//! The lines on what is taken of an image.
ghost use Rattle.std.specs.Prelude.{◌≡◌, ◌≤◌, [], length};
ghost use Rattle.jinfo.specs.InfoText.{order_name};
ghost use Rattle.jauto.specs.TakingText.{left_line, taken_line, unclear_line};

use jcommand::Options;
use jinfo::SizeRange;
use jline::LineBuffer;
use jnode::Endian;
use jspare::PageLayout;

fn order_name(order: Endian) -> &'static [u8]
    ensures name { result.now ≡ order_name order }
    ensures short { length result.now ≤ 6 }
{
    match order {
        Endian::Little => b"little",
        Endian::Big => b"big",
    }
}

/// Writes what is taken.
#[tactic(auto, unfolding(crate::specs::TakingText::taken_line))]
pub(crate) fn write_taken(line: &mut LineBuffer, options: Options)
    ensures { line.new ≡ taken_line options }
{
    line.clear();
    line.push_text(b"jffs2_image: note: ");
    line.push_text(order_name(options.endian));
    line.push_text(b"-endian, blocks of ");
    line.push_decimal(u64::from(options.geometry.block));
    line.push_text(b"\n");
}

/// Writes which spare bytes are left out.
#[tactic(auto, unfolding(crate::specs::TakingText::left_line))]
pub(crate) fn write_left(line: &mut LineBuffer, layout: PageLayout)
    ensures { line.new ≡ left_line layout }
{
    line.clear();
    line.push_text(b"jffs2_image: note: left out: ");
    line.push_decimal(u64::from(layout.spare));
    line.push_text(b" spare bytes after each ");
    line.push_decimal(u64::from(layout.page));
    line.push_text(b"\n");
}

/// Writes that the size of blocks has to be given.
#[tactic(auto, unfolding(crate::specs::TakingText::unclear_line))]
pub(crate) fn write_unclear(line: &mut LineBuffer, order: Endian, sizes: Option<SizeRange>)
    ensures { line.new ≡ unclear_line order sizes }
{
    line.clear();
    line.push_text(b"jffs2_image: note: ");
    line.push_text(order_name(order));
    let Some(range) = sizes else {
        line.push_text(b"-endian, block size unknown; give --block\n");
        return;
    };
    line.push_text(b"-endian, blocks of ");
    line.push_decimal(u64::from(range.least));
    line.push_text(b" to ");
    line.push_decimal(u64::from(range.greatest));
    line.push_text(b" fit; give --block\n");
}
