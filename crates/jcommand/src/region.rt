//! The part of a file that is the image, as texts.
ghost use Rattle.std.specs.Prelude.{◌≡◌, option_map};
ghost use Rattle.jcommand.specs.Parsed.{if_given};
ghost use Rattle.jcommand.specs.Regions.{layout_from, layout_of, length_of, offset_by, region_by};

use crate::matching::number;
use crate::sizes::size;
use jspare::{PageLayout, Region};

/// The most bytes that a page has, and the most spare ones behind it.
const GREATEST: u32 = 65_536;

fn layout_from(page: u32, spare: u32) -> Option<PageLayout>
    ensures { result ≡ layout_from page spare }
{
    if page == 0 || page > GREATEST || spare > GREATEST {
        return None;
    }
    Some(PageLayout { page, spare })
}

/// The bytes of a page and the spare ones behind it, as `2048+64`.
pub(crate) fn layout(text: &str) -> Option<PageLayout>
    ensures { result ≡ layout_of text.now }
{
    let (page, spare) = text.split_once('+')?;
    layout_from(number(page)?, number(spare)?)
}

/// How many bytes the image has: one at least.
pub(crate) fn length(text: &str) -> Option<u32>
    ensures { result ≡ length_of text.now }
{
    let bytes = size(text)?;
    if bytes == 0 { None } else { Some(bytes) }
}

/// The layout, if one is given.
fn layout_given(text: Option<&str>) -> Option<Option<PageLayout>>
    ensures { result ≡ if_given (option_map (λ t. t.now) text.entry) layout_of }
{
    match text {
        None => Some(None),
        Some(text) => Some(Some(layout(text)?)),
    }
}

/// The offset; without one it is 0.
fn offset_given(text: Option<&str>) -> Option<u32>
    ensures { result ≡ offset_by (option_map (λ t. t.now) text.entry) }
{
    match text {
        None => Some(0),
        Some(text) => size(text),
    }
}

/// The length, if one is given.
fn length_given(text: Option<&str>) -> Option<Option<u32>>
    ensures { result ≡ if_given (option_map (λ t. t.now) text.entry) length_of }
{
    match text {
        None => Some(None),
        Some(text) => Some(Some(length(text)?)),
    }
}

/// The part of a file, by these three.
pub(crate) fn region(
    layout: Option<&str>,
    offset: Option<&str>,
    length: Option<&str>,
) -> Option<Region>
    ensures { result ≡ region_by (option_map (λ t. t.now) layout.entry)
        (option_map (λ t. t.now) offset.entry) (option_map (λ t. t.now) length.entry) }
{
    Some(Region {
        layout: layout_given(layout)?,
        offset: offset_given(offset)?,
        length: length_given(length)?,
    })
}
