//! The line of a mount that was refused.
ghost use Rattle.flashbase.specs.Sinks.{PutsTo};
ghost use Rattle.jreport.specs.Faults.{fault_text_of};
ghost use Rattle.jinspects.specs.Refused.{refusal_line};

use flashbase::{DeviceFault, PutFault, Sink};
use jline::put_text;
use jreport::{ProgramFault, fault_text};

/// Puts the text of a fault.
fn put_fault<T: Sink>(fault: &ProgramFault<'_>, sink: &mut T) -> Result<(), DeviceFault>
    ensures { PutsTo T.Sink sink.old sink.new (fault_text_of fault.now) result }
{
    match fault_text(fault, sink) {
        Ok(()) => Ok(()),
        Err(PutFault { .. }) => Err(DeviceFault),
    }
}

/// Puts the line of a mount that was refused.
#[tactic(auto, unfolding(crate::specs::Refused::refusal_line))]
pub(crate) fn put_refused<T: Sink>(
    fault: &ProgramFault<'_>,
    sink: &mut T,
) -> Result<(), DeviceFault>
    ensures { PutsTo T.Sink sink.old sink.new (refusal_line fault.now) result }
{
    put_text(sink, b"mount refused ")?;
    put_fault(fault, sink)?;
    put_text(sink, b"\n")
}
