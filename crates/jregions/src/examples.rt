//! Worked examples. Each function's contract has numbers and no variables, and its body is empty.

ghost use Rattle.std.specs.Prelude.{◌≡◌, ◌++◌, ◌∷◌, [], replicate};
ghost use Rattle.jnode.specs.declared.order.Endian.TheVariants.{Big, Little};
ghost use Rattle.jregions.specs.Spans.{spans_from};
ghost use Rattle.jregions.specs.declared.unit.UnitKind.TheVariants.{Erased, Foreign, Nodes};

/// The spans of some units: with erased and with few foreign units between them, with sixteen
/// foreign ones, and in two orders.
pub fn known_spans()
    ensures joined { spans_from 0 (Foreign ∷ Nodes Big ∷ Erased ∷ Foreign ∷ Nodes Big ∷ Erased ∷ [])
        ≡ record { order = Big; from = 1; to = 5 } ∷ [] }
    ensures dirt { spans_from 0 (Nodes Big ∷ replicate 15 Foreign ++ Nodes Big ∷ [])
        ≡ record { order = Big; from = 0; to = 17 } ∷ [] }
    ensures split { spans_from 0 (Nodes Big ∷ replicate 16 Foreign ++ Nodes Big ∷ [])
        ≡ record { order = Big; from = 0; to = 1 } ∷ record { order = Big; from = 17; to = 18 }
        ∷ [] }
    ensures orders { spans_from 0 (Nodes Big ∷ Nodes Little ∷ Nodes Little ∷ [])
        ≡ record { order = Big; from = 0; to = 1 } ∷ record { order = Little; from = 1; to = 3 }
        ∷ [] }
    ensures none { spans_from 0 (Erased ∷ Foreign ∷ []) ≡ [] }
{}
