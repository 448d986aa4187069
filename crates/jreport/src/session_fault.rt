//! The texts of what a session refuses.
ghost use Rattle.std.specs.Prelude.{◌≡◌, ◌≤◌, ◌+◌, ◌++◌, [], length};
ghost use Rattle.jreport.specs.Faults.{line_text, op_text, session_text};

use jline::LineBuffer;
use jlog::SessionFault;
use jsteps::OpFault;

/// The number and name of an operation's refusal.
#[tactic(auto, unfolding(crate::specs::Faults::op_text))]
fn op_name(fault: OpFault) -> &'static [u8]
    ensures text { result.now ≡ op_text fault }
    ensures short { length result.now ≤ 16 }
{
    match fault {
        OpFault::BadPath => b"O1 BadPath",
        OpFault::NameTooLong => b"O2 NameTooLong",
        OpFault::NotFound => b"O3 NotFound",
        OpFault::NotDirectory => b"O4 NotDirectory",
        OpFault::Exists => b"O5 Exists",
        OpFault::WrongKind => b"O6 WrongKind",
        OpFault::NotEmpty => b"O7 NotEmpty",
        OpFault::IntoItself => b"O8 IntoItself",
        OpFault::TooLarge => b"O9 TooLarge",
        OpFault::BadMode => b"O10 BadMode",
        OpFault::BadTarget => b"O11 BadTarget",
        OpFault::Exhausted => b"O12 Exhausted",
        OpFault::OutOfMemory => b"O13 OutOfMemory",
    }
}

/// Appends the text of a session's fault.
#[tactic(auto, unfolding(crate::specs::Faults::session_text))]
pub fn push_session(line: &mut LineBuffer, fault: SessionFault)
    requires { line.old ≡ [] }
    ensures text { line.new ≡ session_text fault }
    ensures short { length line.new ≤ 64 }
{
    match fault {
        SessionFault::Refused(fault) => {
            line.push_text(b"S1 Refused ");
            line.push_text(op_name(fault));
        }
        SessionFault::Full { needed, free } => {
            line.push_text(b"S2 Full needed ");
            line.push_decimal(needed);
            line.push_text(b" free ");
            line.push_decimal(free);
        }
        SessionFault::ReadOnly => line.push_text(b"S3 ReadOnly"),
        SessionFault::Sink => line.push_text(b"S4 Sink"),
        SessionFault::OutOfMemory => line.push_text(b"S5 OutOfMemory"),
        SessionFault::Broken => line.push_text(b"S6 Broken"),
        SessionFault::Geometry => line.push_text(b"S7 Geometry"),
    }
}

/// Appends the number of a line.
pub fn push_line(line: &mut LineBuffer, number: usize)
    requires { length line.old ≤ 64 }
    ensures { line.new ≡ line.old ++ line_text number }
{
    line.push_text(b" line ");
    line.push_decimal(number as u64);
}
