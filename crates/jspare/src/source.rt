//! A source over a dump, which gives the image that it holds.

ghost use Rattle.std.specs.Prelude.{◌≡◌, ◌≤◌, ◌+◌, IfOk, length, option_map, true, false};
ghost use Rattle.std.specs.Io.KnownBytes.{IsAtEnd, Keeps, ReadConsumes};
ghost use Rattle.flashbase.specs.Device.{CountsErr};
ghost use Rattle.jspare.specs.Paging.{left_by, pages_by, pages_left, source_below};

use crate::layout::PageLayout;
use flashbase::{DeviceFault, Source};

/// How many spare bytes the source is asked for at once.
const PIECE: usize = 256;

/// A source that leaves out the spare bytes of a dump; without a layout it gives all bytes. By a
/// layout a call gives bytes of one page at most. It takes no memory, and after a failure it goes on
/// where the source of the dump does.
#[derive(Drop)]
pub struct PageSource<S: Source> {
    source: S,
    layout: Option<PageLayout>,

    /// How many bytes are left of this page, its spare bytes included.
    left: usize,
}

impl<S: Source> PageSource<S> {
    /// Over a source that is at the beginning of a page. By a layout whose pages have no bytes, it
    /// is at its end.
    pub fn new(source: S, layout: Option<PageLayout>) -> Self
        ensures rest { ⟦<PageSource<S> as Source>⟧.rest result
            ≡ option_map (pages_by layout) (S.rest source) }
        ensures failures { ⟦<PageSource<S> as Source>⟧.failures result ≡ S.failures source }
        ensures below { source_below result ≡ source }
    {
        let left = match layout {
            None => 0,
            Some(layout) => stride(layout),
        };
        PageSource {
            source,
            layout,
            left,
        }
    }

    /// The source of the dump, to ask it why it failed.
    pub fn source(&self) -> &S
        ensures { result.now ≡ source_below self.now }
    {
        &self.source
    }
}

impl<S: Source> Source for PageSource<S> {
    ghost rest = { λ s. option_map (left_by s.layout s.left) (S.rest s.source) };

    ghost failures = { λ s. S.failures s.source };

    fn fill(&mut self, buf: &mut [u8]) -> Result<usize, DeviceFault> {
        match self.layout {
            None => self.source.fill(buf),
            Some(layout) => fill_page(&mut self.source, layout, &mut self.left, buf),
        }
    }
}

/// The bytes of a page and its spare bytes.
fn stride(layout: PageLayout) -> usize
    ensures { result ≡ layout.page + layout.spare }
{
    layout.page as usize + layout.spare as usize
}

/// Fills a beginning of the slice with bytes of one page.
fn fill_page<S: Source>(
    source: &mut S,
    layout: PageLayout,
    left: &mut usize,
    buf: &mut [u8],
) -> Result<usize, DeviceFault>
    ensures within { IfOk result (λ n. n ≤ length buf.old) }
    ensures bytes { ReadConsumes (option_map (pages_left layout left.old) (S.rest source.old))
        (option_map (pages_left layout left.new) (S.rest source.new)) result buf.new }
    ensures count { CountsErr (S.failures source.old) (S.failures source.new) result }
{
    if !reach_page(source, layout, left)? {
        return Ok(0);
    }
    let count = buf.len().min(*left - layout.spare as usize);
    let n = source.fill(&mut buf[..count])?;
    *left -= n;
    Ok(n)
}

/// Skips the spare bytes, if nothing else is left of this page. False, if the source ends before.
fn reach_page<S: Source>(
    source: &mut S,
    layout: PageLayout,
    left: &mut usize,
) -> Result<bool, DeviceFault>
    ensures kept { Keeps (option_map (pages_left layout left.old) (S.rest source.old))
        (option_map (pages_left layout left.new) (S.rest source.new)) }
    ensures some_left { IfOk result (λ more. more ≡ true → layout.spare ≤ left.new) }
    ensures none_left { IfOk result
        (λ more. more ≡ true → left.new ≡ layout.spare → layout.page ≡ 0) }
    ensures end { IfOk result (λ more. more ≡ false → IsAtEnd (S.rest source.new)) }
    ensures count { CountsErr (S.failures source.old) (S.failures source.new) result }
{
    if *left > layout.spare as usize {
        return Ok(true);
    }
    let mut piece = [0u8; PIECE];
    while 0 < *left {
        let count = PIECE.min(*left);
        let n = source.fill(&mut piece[..count])?;
        if n == 0 {
            return Ok(false);
        }
        *left -= n;
    }
    *left = stride(layout);
    Ok(true)
}
