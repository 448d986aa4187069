//! The line of what is left of an object.

ghost use Rattle.std.specs.Prelude.{◌≡◌, ◌≤◌, ◌+◌, ◌*◌, ◌++◌, length};
ghost use Rattle.std.specs.List.{flat_map};
ghost use Rattle.flashbase.specs.Sinks.{PutsTo};
ghost use Rattle.jpast.specs.PastText.{content_text, digest_text, past_line, pasts_text, span_text};

use crate::past::{Content, Past, Span};
use flashbase::{DeviceFault, Sink};
use jline::{LineBuffer, put_text};

fn push_span(line: &mut LineBuffer, span: Option<Span>)
    requires { length line.old ≤ 30 }
    ensures text { line.new ≡ line.old ++ span_text span }
    ensures grows { length line.new ≤ 90 }
{
    if let Some(span) = span {
        line.push_text(b" versions ");
        line.push_decimal(u64::from(span.lowest));
        line.push_text(b" to ");
        line.push_decimal(u64::from(span.highest));
    }
}

fn push_digest(line: &mut LineBuffer, digest: &[u8])
    requires { length line.old + 2 * length digest.now ≤ 1000 }
    ensures text { line.new ≡ line.old ++ digest_text digest.now }
    ensures grows { length line.new ≡ length line.old + 2 * length digest.now }
{
    for byte in digest {
        line.push_hex(2, u64::from(*byte));
    }
}

fn push_content(line: &mut LineBuffer, content: &Option<Content>)
    requires { length line.old ≤ 90 }
    ensures text { line.new ≡ line.old ++ content_text content.now }
    ensures grows { length line.new ≤ 190 }
{
    if let Some(content) = content {
        line.push_text(b" size ");
        line.push_decimal(u64::from(content.size));
        line.push_text(b" sha256 ");
        push_digest(line, &content.digest);
    }
}

#[tactic(auto, unfolding(crate::specs::PastText::past_line))]
fn line_of(past: &Past) -> LineBuffer
    ensures { result ≡ past_line past.now }
{
    let mut line = LineBuffer::new();
    line.push_text(b"was ino ");
    line.push_decimal(u64::from(past.ino));
    push_span(&mut line, past.span);
    push_content(&mut line, &past.content);
    line.push_text(b"\n");
    line
}

/// Puts a line of what is left of each of some objects: its number, the lowest and the highest
/// version of its nodes, and the size and digest of its bytes. It takes no memory.
///
/// # Errors
/// The sink failed, and took a beginning of the lines.
pub fn put_pasts<T: Sink>(pasts: &[Past], sink: &mut T) -> Result<(), DeviceFault>
    ensures { PutsTo T.Sink sink.old sink.new (pasts_text pasts.now) result }
{
    for past in pasts {
        put_text(sink, line_of(past).as_slice())?;
    }
    Ok(())
}
