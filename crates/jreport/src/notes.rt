//! The note on an image that mounted, and yet has bytes where a node may have been.

ghost use Rattle.std.specs.Prelude.{◌≡◌, ◌≤◌, length};
ghost use Rattle.flashbase.specs.Sinks.{PutsTo};
ghost use Rattle.jreport.specs.Notes.{findings_text, is_noted, note_line_of, noted};

use flashbase::{DeviceFault, Sink};
use jline::{LineBuffer, put_text};
use jmount::Mounted;
use jscan::FindingKind;

/// Whether a finding may be in the place of a node.
pub fn is_noted(kind: FindingKind) -> bool
    ensures { result ≡ is_noted kind }
{
    match kind {
        FindingKind::Damaged(_) | FindingKind::OtherOrder | FindingKind::Dirt => true,
        FindingKind::Attribute | FindingKind::ReadOnly(_) => false,
    }
}

/// How many findings of damage, dirt or the other byte order a mounted image has.
pub fn noted(mounted: &Mounted<'_>) -> u64
    ensures { result ≡ noted mounted.now }
{
    let mut count = 0;
    for finding in mounted.findings() {
        if is_noted(finding.kind) {
            count += 1;
        }
    }
    count
}

/// What is said of so many findings.
#[tactic(auto, unfolding(crate::specs::Notes::findings_text))]
pub(crate) fn findings_text(findings: u64) -> &'static [u8]
    ensures text { result.now ≡ findings_text findings }
    ensures short { length result.now ≤ 100 }
{
    match findings {
        1 =>
            b" finding, see check --scan; a wrong --block or --endian shows as findings too, see info\n",
        _ =>
            b" findings, see check --scan; a wrong --block or --endian shows as findings too, see info\n",
    }
}

/// The note that there are so many such findings.
#[tactic(auto, unfolding(crate::specs::Notes::note_line_of))]
fn write_note(line: &mut LineBuffer, findings: u64)
    ensures { line.new ≡ note_line_of findings }
{
    line.clear();
    line.push_text(b"jffs2_image: note: ");
    line.push_decimal(findings);
    line.push_text(findings_text(findings));
}

/// Puts the note that there are so many such findings, as it is on standard error.
pub fn put_note<T: Sink>(findings: u64, sink: &mut T) -> Result<(), DeviceFault>
    ensures { PutsTo T.Sink sink.old sink.new (note_line_of findings) result }
{
    let mut line = LineBuffer::new();
    write_note(&mut line, findings);
    put_text(sink, line.as_slice())
}
