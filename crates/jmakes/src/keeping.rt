//! An image that is gone on from, of which the base has not all.
ghost use Rattle.std.specs.Prelude.{◌≡◌};
ghost use Rattle.jedge.specs.Acts.{DoesFrom};
ghost use Rattle.jedge.specs.Views.{viewed};
ghost use Rattle.jmakes.specs.Keeping.{IsFindingsOf, KeepsFindings, base_asked, count_lost, keeps_base, keeps_findings, would_lose};

use crate::asked::Base;
use crate::host::FileHost;
use jedge::fault::Fault;
use jedge::subject::Subject;
use std::alloc::Global;

/// The fault of an image of this name with so many findings.
pub fn findings_of(alloc: Global, name: &str, findings: u64) -> Fault
    ensures { IsFindingsOf name.now findings result }
{
    match name.to_string(alloc) {
        Ok(name) => Fault::Findings { name, findings },
        Err(_) => Fault::OutOfMemory,
    }
}

/// How many findings, or else nodes of extended attributes, of an image its base lacks.
fn count_lost(base: &Subject) -> u64
    ensures { result ≡ count_lost (viewed base.now).found }
{
    match base.found {
        Some(found) => found.count(),
        None => 0,
    }
}

/// Whether something of the image would be lost that nobody forces.
fn would_lose(asked: Base<'_>, base: &Subject) -> bool
    ensures { result ≡ would_lose (base_asked asked.entry) (viewed base.now) }
{
    !asked.force && count_lost(base) != 0
}

/// Refuses an image of which so much would be lost, if it is the file that is made.
fn judge_findings(alloc: Global, name: &str, findings: u64, over: bool) -> Result<(), Fault>
    ensures { KeepsFindings name.now findings over result }
{
    if over {
        Err(findings_of(alloc, name, findings))
    } else {
        Ok(())
    }
}

fn keep_findings<H: FileHost>(
    host: &mut H,
    name: &str,
    made: &str,
    findings: u64,
) -> Result<(), Fault>
    ensures { DoesFrom (H.history host.old) (H.history host.new)
        (keeps_findings name.now made.now findings) result }
{
    let over = host.is_one_file(name, made);
    judge_findings(host.alloc(), name, findings, over)
}

/// Refuses an image that its base lacks a part of, if it is the file of the name `made`, which is
/// to be made, unless that is forced.
pub(crate) fn keep_base<H: FileHost>(
    host: &mut H,
    asked: Base<'_>,
    made: &str,
    base: &Subject,
) -> Result<(), Fault>
    ensures { DoesFrom (H.history host.old) (H.history host.new)
        (keeps_base (base_asked asked.entry) made.now (viewed base.now)) result }
{
    if would_lose(asked, base) {
        keep_findings(host, asked.image, made, count_lost(base))
    } else {
        Ok(())
    }
}
