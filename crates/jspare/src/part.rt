//! A source over a file, which gives the part of it that is the image.

ghost use Rattle.std.specs.Prelude.{◌≡◌, ◌≤◌, ◌<◌, ◌-◌, Err, IfOk, IfSome, IsFalse, IsTrue, OnErr, OnOk, length, min, option_map, false, true};
ghost use Rattle.std.specs.Io.KnownBytes.{IsAtEnd, ReadConsumes};
ghost use Rattle.flashbase.specs.Device.{CountsErr, next_count};
ghost use Rattle.jspare.specs.Parts.{CountsRegion, KeepsMissing, SameIfKnown, Skips, bytes_due, ends_early, file_below, has_rest, region_left};
ghost use Rattle.jspare.specs.Regions.{has_region, region_of};
ghost use Rattle.jspare.specs.declared.part.RegionFault.TheVariants as fault;

use crate::region::Region;
use crate::source::PageSource;
use flashbase::{DeviceFault, Source};

/// How many bytes the source is asked for at once before the image.
const PIECE: usize = 4096;

/// Where a source is in a region.
#[derive(Clone, Copy)]
struct Place {
    /// How many bytes are left before the image.
    before: usize,

    /// How many bytes of the image are left, if that is told.
    left: Option<usize>,

    /// How many bytes of the image must still come, if that is not told.
    least: usize,
}

/// Why a source gives no bytes of a region.
#[derive(Clone, Copy)]
enum RegionFault {
    /// The source of the file failed.
    Device,
    /// The file ends before the region does.
    EndsEarly,
}

impl Place {
    /// The place behind n more bytes of the image.
    fn behind(self, n: usize) -> Place
        requires { IfSome self.left (λ left. n ≤ left) }
        ensures before { result.before ≡ self.before }
        ensures left { result.left ≡ option_map (λ left. left - n) self.left }
        ensures least { result.least ≡ self.least - n }
    {
        Place {
            before: self.before,
            left: match self.left {
                Some(left) => Some(left - n),
                None => None,
            },
            least: self.least.saturating_sub(n),
        }
    }
}

impl From<DeviceFault> for RegionFault {
    ghost from_gives = { λ _ e. e ≡ fault.Device };

    fn from(_fault: DeviceFault) -> RegionFault {
        RegionFault::Device
    }
}

/// A source that gives the bytes of a region of a file alone. It takes no memory. After a failure
/// of the file's source it goes on where that does; if the file ends before the region does, each
/// call fails.
#[derive(Drop)]
pub struct RegionSource<S: Source> {
    pages: PageSource<S>,
    place: Place,
    failures: u64,
    ends_early: bool,
}

impl<S: Source> RegionSource<S> {
    /// Over a source that is at the beginning of the file.
    pub fn new(source: S, region: Region) -> Self
        ensures rest { ⟦<RegionSource<S> as Source>⟧.rest result
            ≡ option_map (region_of region) (S.rest source) }
        ensures failures { ⟦<RegionSource<S> as Source>⟧.failures result ≡ 0 }
        ensures below { file_below result ≡ source }
        ensures has { has_rest S.rest result ≡ option_map (has_region region) (S.rest source) }
        ensures early { ends_early result ≡ false }
    {
        RegionSource {
            pages: PageSource::new(source, region.layout),
            place: first_place(region),
            failures: 0,
            ends_early: false,
        }
    }

    /// Fills a beginning of the slice, as `fill` of the trait does, and promises more: it ends only
    /// if the file has the whole region, and ends early only if the file has not.
    ///
    /// # Errors
    /// The source of the file failed, or the file ends before the region does.
    pub fn fill_region(&mut self, buf: &mut [u8]) -> Result<usize, DeviceFault>
        ensures within { IfOk result (λ n. n ≤ length buf.old) }
        ensures bytes { ReadConsumes (⟦<RegionSource<S> as Source>⟧.rest self.old)
            (⟦<RegionSource<S> as Source>⟧.rest self.new) result buf.new }
        ensures count { CountsErr (⟦<RegionSource<S> as Source>⟧.failures self.old)
            (⟦<RegionSource<S> as Source>⟧.failures self.new) result }

        // The file has the rest of the region exactly if it had it before.
        ensures has { SameIfKnown (has_rest S.rest self.old) (has_rest S.rest self.new) }
        ensures whole { IfOk result (λ n. n ≡ 0 → 0 < length buf.old
            → IfSome (has_rest S.rest self.new) IsTrue) }
        ensures lacks { ends_early self.old ≡ false → ends_early self.new ≡ true
            → IfSome (has_rest S.rest self.new) IsFalse }
        ensures stays { ends_early self.old ≡ true → ends_early self.new ≡ true }

        // It fails where the source of the file does, and otherwise only if that ends early.
        ensures fails { OnErr result (ends_early self.new ≡ false → S.failures (file_below self.new)
            ≡ next_count (S.failures (file_below self.old))) }
        ensures goes { OnOk result (S.failures (file_below self.new)
            ≡ S.failures (file_below self.old)) }
    {
        match fill_image(&mut self.pages, &mut self.place, buf) {
            Ok(n) => Ok(n),
            Err(fault) => {
                self.failures = self.failures.wrapping_add(1);
                self.ends_early |= matches!(fault, RegionFault::EndsEarly);
                Err(DeviceFault)
            }
        }
    }

    /// The source of the file, to ask it why it failed.
    pub fn source(&self) -> &S
        ensures { result.now ≡ file_below self.now }
    {
        self.pages.source()
    }

    /// How often it failed, modulo 2^64.
    pub fn failures(&self) -> u64
        ensures { result ≡ ⟦<RegionSource<S> as Source>⟧.failures self.now }
    {
        self.failures
    }

    /// Whether it failed because the file ends before the region does.
    pub fn ends_early(&self) -> bool
        ensures { result ≡ ends_early self.now }
    {
        self.ends_early
    }
}

impl<S: Source> Source for RegionSource<S> {
    ghost rest = { λ s. option_map (region_left s.place)
        (⟦<PageSource<S> as Source>⟧.rest s.pages) };

    ghost failures = { λ s. s.failures };

    fn fill(&mut self, buf: &mut [u8]) -> Result<usize, DeviceFault> {
        self.fill_region(buf)
    }
}

/// Before a region.
fn first_place(region: Region) -> Place
    ensures before { result.before ≡ region.offset }
    ensures left { result.left ≡ region.length }
    ensures least { result.least ≡ min region.offset 1 }
{
    Place {
        before: region.offset as usize,
        left: match region.length {
            Some(length) => Some(length as usize),
            None => None,
        },
        least: region.offset.min(1) as usize,
    }
}

/// Fills a beginning of the slice with bytes of the image.
fn fill_image<P: Source>(
    source: &mut P,
    place: &mut Place,
    buf: &mut [u8],
) -> Result<usize, RegionFault>
    ensures within { IfOk result (λ n. n ≤ length buf.old) }
    ensures bytes { ReadConsumes (option_map (region_left place.old) (P.rest source.old))
        (option_map (region_left place.new) (P.rest source.new)) result buf.new }
    ensures missing { KeepsMissing (P.rest source.old) (bytes_due place.old)
        (P.rest source.new) (bytes_due place.new) }
    ensures count { CountsRegion (P.failures source.old) (P.failures source.new) result }

    // An end is answered only if no byte is due, and a file is blamed only if it lacks one.
    ensures end { IfOk result (λ n. n ≡ 0 → 0 < length buf.old → bytes_due place.new ≡ 0) }
    ensures file_ended { result ≡ Err RegionFault.EndsEarly → IsAtEnd (P.rest source.new) }
    ensures lacks { result ≡ Err RegionFault.EndsEarly → 0 < bytes_due place.new }
{
    reach_image(source, &mut place.before)?;
    let count = place.left.unwrap_or(buf.len()).min(buf.len());
    if count == 0 {
        return Ok(0);
    }
    let n = source.fill(&mut buf[..count])?;
    if n == 0 && 0 < place.left.unwrap_or(place.least) {
        return Err(RegionFault::EndsEarly);
    }
    *place = place.behind(n);
    Ok(n)
}

/// Skips the bytes before the image.
fn reach_image<P: Source>(source: &mut P, before: &mut usize) -> Result<(), RegionFault>
    ensures skipped { Skips (P.rest source.old) (P.rest source.new) before.old before.new }
    ensures count { CountsRegion (P.failures source.old) (P.failures source.new) result }
    ensures reached { OnOk result (before.new ≡ 0) }
    ensures file_ended { result ≡ Err RegionFault.EndsEarly → IsAtEnd (P.rest source.new) }
    ensures lacks { result ≡ Err RegionFault.EndsEarly → 0 < before.new }
{
    if *before == 0 {
        return Ok(());
    }
    let mut piece = [0u8; PIECE];
    while 0 < *before {
        let count = PIECE.min(*before);
        let n = source.fill(&mut piece[..count])?;
        if n == 0 {
            return Err(RegionFault::EndsEarly);
        }
        *before -= n;
    }
    Ok(())
}
