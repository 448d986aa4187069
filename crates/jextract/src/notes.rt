//! What is told of objects that are left out.

ghost use Rattle.std.specs.Prelude.{◌≡◌, ◌++◌, ◌∷◌, [], codes, map};
ghost use Rattle.flashbase.specs.Sinks.{PutsTo};
ghost use Rattle.jextract.specs.Outcomes.{line_of_left_out, left_out_reason};

use crate::reason::Reason;
use flashbase::{DeviceFault, Sink};
use jline::{put_path, put_text};

fn reason_text(reason: Reason) -> &'static [u8]
    ensures { result.now ≡ left_out_reason reason }
{
    match reason {
        Reason::BadName => b"a name that no file has",
        Reason::LongPath => b"path too long",
        Reason::NoText => b"no text",
        Reason::Again => b"directory again",
        Reason::CharacterDevice => b"character device",
        Reason::BlockDevice => b"block device",
        Reason::Fifo => b"FIFO",
        Reason::Socket => b"socket",
        Reason::UnknownKind => b"a kind that is not known",
        Reason::BadTarget => b"bad target",
        Reason::Missing => b"no inode",
        Reason::Refused => b"the host refused it",
    }
}

/// Puts why an object was left out, and ends its line.
fn put_reason<T: Sink>(sink: &mut T, reason: Reason) -> Result<(), DeviceFault>
    ensures { PutsTo T.Sink sink.old sink.new
        (codes ": " ++ (left_out_reason reason ++ 10 ∷ [])) result }
{
    put_text(sink, b": ")?;
    put_text(sink, reason_text(reason))?;
    put_text(sink, b"\n")
}

/// Puts the line of an object that was left out.
#[tactic(auto, unfolding(crate::specs::Outcomes::line_of_left_out))]
pub(crate) fn tell<T: Sink>(sink: &mut T, path: &[&[u8]], reason: Reason) -> Result<(), DeviceFault>
    ensures { PutsTo T.Sink sink.old sink.new
        (line_of_left_out (map (λ name. name.now) path.now) reason) result }
{
    put_text(sink, b"left out ")?;
    put_path(sink, path)?;
    put_reason(sink, reason)
}
