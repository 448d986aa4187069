//! The image of a dump.

ghost use Rattle.std.specs.Prelude.{◌≡◌, ◌<◌};
ghost use Rattle.jspare.specs.Spare.{without_spare};

use crate::layout::PageLayout;

/// Drops the spare bytes of a dump: what is left is the image. It takes no memory, and time linear
/// in the bytes.
pub fn drop_spare(dump: &mut Vec<u8>, layout: PageLayout)
    requires { 0 < layout.page }
    ensures { dump.new.items ≡ without_spare layout dump.old.items }
{
    let page = layout.page as usize;
    let stride = page + layout.spare as usize;
    let pages = dump.len() / stride + 1;
    let mut kept = 0;
    for i in 0..pages {
        let from = i * stride;
        let count = page.min(dump.len() - from);
        dump.copy_within(from..from + count, kept);
        kept += count;
    }
    dump.truncate(kept);
}
