//! A host on which a command makes files.
ghost use Rattle.std.specs.Prelude.{◌≡◌, [], ℕ, List, Option, Ok, Some, IfOk, IfSome};
ghost use Rattle.jedge.specs.Acts.{DoesFrom, seen_as};
ghost use Rattle.jmakes.specs.Making.{FilePlace, closes_file, compares_names, creates, wanted_file};
ghost use Rattle.jmakes.specs.declared.wanted.Filling.{Filling};

use crate::wanted::{CloseFault, Filling, Wanted};
use flashbase::Sink;
use jedge::fault::Fault;
use jedge::host::Host;

/// A file that was opened, to be made. What it takes goes into a sink of its own.
pub trait Opened: Drop {
    /// Where its bytes go.
    ghost place: { Self → FilePlace };
}

/// A host on which files are made. The contract of each call is its act.
pub trait FileHost: Host {
    type Opened: Opened;

    /// What a file takes. It keeps that, or gives it on at once.
    type Made: Sink;

    /// Whether two names mean one file that is there, also by way of links.
    fn is_one_file(&mut self, first: &str, second: &str) -> bool
        ensures { DoesFrom (Self.history self.old) (Self.history self.new)
            (compares_names first.now second.now) (Ok result) };

    /// Opens a file that is wanted. It took nothing yet.
    fn create(&mut self, file: Wanted<'_>) -> Result<(Self::Opened, Self::Made), Fault>
        ensures act { DoesFrom (Self.history self.old) (Self.history self.new)
            (creates (wanted_file file.entry)) (seen_as (λ made. Self.Opened.place made.0) result) }
        ensures sound { IfOk result (λ made. Self.Made.failures made.1 ≡ 0) }
        ensures empty { IfOk result
            (λ made. IfSome (Self.history self.old) (λ _. Self.Made.taken made.1 ≡ Some [])) };

    /// Gives out to the file what it took. If all went `well` so far, it is filled up, and takes
    /// its name; else one that would take a name is removed.
    fn close_file(
        &mut self,
        opened: Self::Opened,
        made: Self::Made,
        filling: Option<Filling>,
        well: bool,
    ) -> Result<(), CloseFault>
        ensures { (text : List ℕ)
            → IfSome (Self.history self.old) (λ _. Self.Made.taken made ≡ Some text)
            → DoesFrom (Self.history self.old) (Self.history self.new)
            (closes_file (Self.Opened.place opened) filling well (Self.Made.failures made) text)
            (Ok result) };
}
