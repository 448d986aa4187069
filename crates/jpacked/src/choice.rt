//! The forms in which a session puts nodes.

ghost use Rattle.std.specs.Prelude.{◌≡◌};
ghost use Rattle.jpacked.specs.Forms.{is_packed};

/// In which forms a session puts nodes.
#[derive(Clone, Copy, Debug, PartialEq, Eq)]
pub enum NodeForms {
    /// Compressed where that is shorter.
    Packed,
    /// Each in its own form, as a session of `jlog` puts it.
    Own,
}

impl NodeForms {
    /// Whether nodes are packed.
    pub fn is_packed(self) -> bool
        ensures { result ≡ is_packed self }
    {
        match self {
            NodeForms::Packed => true,
            NodeForms::Own => false,
        }
    }
}
