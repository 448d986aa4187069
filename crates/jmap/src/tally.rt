//! How many bytes are of each kind.

ghost use Rattle.std.specs.Prelude.{◌≡◌, ◌+◌, ◌^◌, ◌<◌, List, [], ◌++◌, length, replicate};
ghost use Rattle.jmap.specs.ByteKinds.{tally_of};
ghost use Rattle.jmap.specs.declared.kind.ByteKind.{ByteKind};

use crate::kind::ByteKind;

/// How many bytes are of each kind.
#[derive(Clone, Copy, Debug, PartialEq, Eq)]
pub struct Tally {
    pub live: u64,
    pub superseded: u64,
    pub obsolete: u64,
    pub damaged: u64,
    pub free: u64,
}

impl Tally {
    /// Of no bytes.
    pub(crate) fn new() -> Tally
        ensures { result ≡ tally_of [] }
    {
        Tally {
            live: 0,
            superseded: 0,
            obsolete: 0,
            damaged: 0,
            free: 0,
        }
    }

    /// Counts so many bytes of a kind.
    pub(crate) fn add(&mut self, kind: ByteKind, len: u32)
        requires room { (kinds : List ByteKind) × (self.old ≡ tally_of kinds)
            × (length kinds + len < 2 ^ 64) }
        ensures { (kinds : List ByteKind) → self.old ≡ tally_of kinds
            → self.new ≡ tally_of (kinds ++ replicate len kind) }
    {
        let len = u64::from(len);
        match kind {
            ByteKind::Live => self.live += len,
            ByteKind::Superseded => self.superseded += len,
            ByteKind::Obsolete => self.obsolete += len,
            ByteKind::Damaged => self.damaged += len,
            ByteKind::Free => self.free += len,
        }
    }

    /// Counts what another tally has.
    pub(crate) fn add_all(&mut self, more: &Tally)
        requires room { (kinds others : List ByteKind) × (self.old ≡ tally_of kinds)
            × (more.now ≡ tally_of others) × (length kinds + length others < 2 ^ 64) }
        ensures { (kinds others : List ByteKind) → self.old ≡ tally_of kinds
            → more.now ≡ tally_of others
            → self.new ≡ tally_of (kinds ++ others) }
    {
        self.live += more.live;
        self.superseded += more.superseded;
        self.obsolete += more.obsolete;
        self.damaged += more.damaged;
        self.free += more.free;
    }
}
