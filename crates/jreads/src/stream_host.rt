//! A host that lends a file as a stream, which is not held in memory.
ghost use Rattle.std.specs.Prelude.{◌≡◌, ℕ, List, Option, IfSome, IsSome};
ghost use Rattle.jedge.specs.Acts.{DoesFrom};
ghost use Rattle.jreads.specs.Scanning.{IsReadUpTo, closes_stream};

use flashbase::Source;
use jedge::fault::Fault;
use jedge::host::Host;

/// A file that is read as a stream. Its bytes come from a source of its own.
pub trait Streamed: Drop {
    ghost name: { Self → List ℕ };

    /// All its bytes, where they are told.
    ghost whole: { Self → Option (List ℕ) };
}

/// A host that lends a file as a stream.
pub trait StreamHost: Host {
    type Streamed: Streamed;

    /// The bytes of a file, from its start on.
    type Source: Source;

    /// Lends a file that was opened. Nothing of it was read yet.
    fn stream(&mut self, input: Self::Input) -> (Self::Streamed, Self::Source)
        ensures same { Self.history self.new ≡ Self.history self.old }
        ensures name { Self.Streamed.name result.0 ≡ Self.Input.name input }
        ensures sound { Self.Source.failures result.1 ≡ 0 }
        ensures whole { Self.Source.rest result.1 ≡ Self.Streamed.whole result.0 }
        ensures told { IfSome (Self.history self.old)
            (λ _. IsSome (Self.Streamed.whole result.0)) };

    /// Closes it, with what is left of its bytes. It fails if it failed while it was read.
    fn close_stream(&mut self, streamed: Self::Streamed, source: Self::Source) -> Result<(), Fault>
        ensures { (read left : List ℕ)
            → IsReadUpTo (Self.history self.old) (Self.Streamed.whole streamed)
            (Self.Source.rest source) read left
            → DoesFrom (Self.history self.old) (Self.history self.new)
            (closes_stream (Self.Streamed.name streamed) (Self.Source.failures source) read left)
            result };
}
