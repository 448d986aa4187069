//! The regions of a file.

ghost use Rattle.std.specs.Prelude.{◌≡◌, ◌≤◌, IfOk, length, map, take};
ghost use Rattle.jscan.specs.Image.{greatest_image};
ghost use Rattle.jregions.specs.Regions.{AreRegions, bytes_between, region_between, region_of_span, spans_told, unit_place};

use crate::region::{Region, Regions};
use crate::span::Span;
use crate::spans::spans_of;
use crate::touched::UNIT;
use crate::units::units_of;
use jinfo::info_of;
use std::alloc::{AllocError, Global};

/// So many regions are told.
const MOST: usize = 16;

/// Where a unit begins.
fn unit_place(file: &[u8], unit: u32) -> u32
    requires { length file.now ≤ greatest_image }
    ensures { result ≡ unit_place file.now unit }
{
    (unit as usize * UNIT).min(file.len()) as u32
}

fn bytes_between(file: &[u8], from: u32, to: u32) -> &[u8]
    requires { from ≤ length file.now }
    ensures { result.now ≡ bytes_between file.now from to }
{
    let rest = &file[from as usize..];
    let len = (to.saturating_sub(from) as usize).min(rest.len());
    &rest[..len]
}

/// A span in bytes.
#[tactic(auto, unfolding(crate::specs::Regions::region_of_span))]
fn region_of_span(file: &[u8], span: Span) -> Region
    requires { length file.now ≤ greatest_image }
    ensures { result ≡ region_of_span file.now span }
{
    let from = unit_place(file, span.from);
    let to = unit_place(file, span.to);
    Region {
        from,
        to,
        order: span.order,
        sizes: info_of(bytes_between(file, from, to)).census.sizes,
    }
}

/// The spans that are told: none, if there is one alone, and it begins where the file does.
fn spans_told(spans: &[Span]) -> &[Span]
    ensures { result.now ≡ spans_told spans.now }
{
    match spans {
        [one] if one.from == 0 => &[],
        _ => spans,
    }
}

/// The first regions.
fn first_regions(alloc: Global, file: &[u8], spans: &[Span]) -> Result<Vec<Region>, AllocError>
    requires { length file.now ≤ greatest_image }
    ensures { IfOk result (λ regions.
        regions.items ≡ map (region_of_span file.now) (take 16 spans.now)) }
{
    let mut regions = Vec::new(alloc);
    for span in &spans[..spans.len().min(MOST)] {
        regions.push(region_of_span(file, *span))?;
    }
    Ok(regions)
}

/// The regions of a file that have nodes, at most sixteen; none, if there is one alone, and it
/// begins where the file does. It takes memory for each 4096 bytes, and time linear in the bytes.
///
/// # Errors
/// Out of memory.
pub fn regions_of(alloc: Global, file: &[u8]) -> Result<Regions, AllocError>
    requires { length file.now ≤ greatest_image }
    ensures { IfOk result (λ regions. AreRegions file.now regions) }
{
    let units = units_of(alloc, file)?;
    let spans = spans_of(alloc, &units)?;
    let told = spans_told(&spans);
    let first = first_regions(alloc, file, told)?;
    Ok(Regions {
        first,
        more: MOST < told.len(),
    })
}
