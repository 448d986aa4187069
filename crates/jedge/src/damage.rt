//! `damage`: what the damage of an image costs.
ghost use Rattle.std.specs.Prelude.{◌≡◌, ◌+◌, ◌-◌, ◌^◌, min, option_map};
ghost use Rattle.jscan.specs.Scans.{IsScannable};
ghost use Rattle.jedge.specs.Acts.{DoesFrom, prints, seen_as};
ghost use Rattle.jedge.specs.Commands.{Costs, costs_found, damage_act, examined, findings_noted};
ghost use Rattle.jedge.specs.Told.{either, found_told, note_text};

use crate::fault::Fault;
use crate::found::{Found, Note, finished};
use crate::host::Host;
use crate::mounting::{judge_nodes, mounted_as};
use crate::reading::load;
use crate::subject::read_noted;
use jcommand::{Examination, Options};
use jdamage::{DamageFault, Totals, put_damage};
use jmount::Mounted;
use jnode::Order;
use jreport::noted;
use std::alloc::Global;

/// Of two numbers of things found one that is not zero, if there is one.
pub fn either(first: u64, second: u64) -> u64
    ensures { result ≡ either first second }
{
    match first {
        0 => second,
        _ => first,
    }
}

/// The note on so many findings.
pub fn findings_noted(findings: u64) -> Option<Note<'static>>
    ensures { option_map note_text result ≡ findings_noted findings }
{
    match findings {
        0 => None,
        _ => Some(Note::Findings(findings)),
    }
}

/// How much was told: nodes, names and gaps, up to the greatest number.
fn count_told(totals: Totals) -> u64
    ensures { result ≡ min (totals.damaged + totals.missing + totals.gaps) (2 ^ 64 - 1) }
{
    let lost = (totals.damaged as u64).saturating_add(totals.missing as u64);
    lost.saturating_add(totals.gaps as u64)
}

/// What an examination comes to.
fn examined(totals: Totals, mounted: &Mounted<'_>, options: Options) -> Found<'static>
    ensures { found_told result
        ≡ examined options.endian options.geometry.block totals mounted.now }
{
    Found {
        counted: either(count_told(totals), noted(mounted)),
        note: read_noted(mounted, options, None),
    }
}

/// What the damage of a mount comes to, by what was put of it.
fn costs_found(
    mounted: &Mounted<'_>,
    options: Options,
    put: Result<Totals, DamageFault>,
) -> Result<Found<'static>, Fault>
    ensures { seen_as found_told result
        ≡ costs_found options.endian options.geometry.block mounted.now put }
{
    match put {
        Ok(totals) => Ok(examined(totals, mounted, options)),
        Err(DamageFault::Output) => Err(Fault::Output),
        Err(DamageFault::OutOfMemory) => Err(Fault::OutOfMemory),
    }
}

/// Prints what the damage of a mount costs.
fn print_costs<E: Order, H: Host>(
    host: &mut H,
    mounted: &Mounted<'_>,
    options: Options,
) -> Result<Found<'static>, Fault>
    requires order { options.endian ≡ E.order }
    requires scannable { IsScannable options.geometry.block mounted.now.image }
    ensures { DoesFrom (H.history host.old) (H.history host.new)
        (prints (Costs E.order options.geometry.block mounted.now)) (seen_as found_told result) }
{
    let mut out = match host.output() {
        Ok(out) => out,
        Err(fault) => return Err(fault),
    };
    let put = put_damage::<E, _>(host.alloc(), mounted, options.geometry, &mut out);
    let closed = host.close(out);
    finished(costs_found(mounted, options, put), closed)
}

/// `damage`.
pub fn damage<E: Order, H: Host>(
    host: &mut H,
    asked: Examination<&str>,
) -> Result<Found<'static>, Fault>
    requires { asked.options.endian ≡ E.order }
    ensures { DoesFrom (H.history host.old) (H.history host.new)
        (damage_act asked.entry.options asked.entry.decompress asked.entry.image.now)
        (seen_as found_told result) }
{
    let geometry = asked.options.geometry;
    let image = match load(host, asked.image) {
        Ok(image) => image,
        Err(fault) => return Err(fault),
    };
    let bytes = image.as_slice();
    match judge_nodes::<E>(host.alloc(), bytes, geometry, None) {
        Ok(()) => {}
        Err(fault) => return Err(fault),
    }
    let mut contents = Vec::new(host.alloc());
    match mounted_as::<E>(
        host.alloc(),
        bytes,
        geometry,
        asked.decompress,
        &mut contents,
    ) {
        Ok(mounted) => print_costs::<E, H>(host, &mounted, asked.options),
        Err(fault) => Err(fault),
    }
}
