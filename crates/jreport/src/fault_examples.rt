//! Worked texts of faults.
ghost use Rattle.std.specs.Prelude.{◌≡◌, Some, None, codes};
ghost use Rattle.flashbase.specs.declared.source.LoadFault.TheVariants as load;
ghost use Rattle.jscan.specs.declared.geometry.ScanFault.TheVariants as scan;
ghost use Rattle.jsteps.specs.declared.fault.OpFault.TheVariants as op;
ghost use Rattle.jlog.specs.declared.fault.SessionFault.TheVariants as session;
ghost use Rattle.jlisting.specs.declared.rule.Rule.TheVariants as rule;
ghost use Rattle.jreport.specs.Faults.{fault_text_of};
ghost use Rattle.jreport.specs.declared.cause.Cause.TheVariants as causes;
ghost use Rattle.jreport.specs.declared.faults.ProgramFault.TheVariants as fault;

/// The texts of faults.
#[tactic(auto, unfolding(crate::specs::Faults::fault_text_of, crate::specs::Faults::load_text, crate::specs::Faults::scan_fault_text, jline::specs::Words::hex))]
pub fn known_fault_texts()
    ensures device { fault_text_of (fault.Load load.Device) ≡ codes "L1 Device" }
    ensures block_size { fault_text_of (fault.Scan scan.BlockSize) ≡ codes "C1 BlockSize" }
    ensures incompatible { fault_text_of (fault.Scan (scan.Incompatible 12 0xE0F7))
        ≡ codes "C3 Incompatible at 0000000c type e0f7" }
    ensures output { fault_text_of fault.Output ≡ codes "P5 Output" }
    ensures data { fault_text_of (fault.Data 4112) ≡ codes "Z1 Data at 00001010" }
    ensures too_long { fault_text_of (fault.TooLong 0x3c) ≡ codes "Z2 TooLong at 0000003c" }
{}

/// The texts of what a listing and a session refuse.
#[tactic(auto, unfolding(crate::specs::Faults::fault_text_of, crate::specs::Faults::session_text, crate::specs::Faults::op_text))]
pub fn known_session_texts()
    ensures listing { fault_text_of (fault.Listing (record { line = 3; rule = rule.TwoSpaces }))
        ≡ codes "P2 Listing line 3" }
    ensures refused { fault_text_of
        (fault.Session (session.Refused op.Exists) (Some 2) causes.Unknown)
        ≡ codes "S1 Refused O5 Exists line 2" }
    ensures full { fault_text_of (fault.Session (session.Full 4164 3904) (Some 3) causes.Unknown)
        ≡ codes "S2 Full needed 4164 free 3904 line 3" }
    ensures sink { fault_text_of (fault.Session session.Sink None causes.Unknown)
        ≡ codes "S4 Sink" }
    ensures geometry { fault_text_of (fault.Session session.Geometry None causes.Unknown)
        ≡ codes "S7 Geometry" }
{}
