//! All that a command may touch.
ghost use Rattle.std.specs.Prelude.{◌≡◌, [], ℕ, List, Option, Ok, Some, IfErr, IfOk, IfSome};
ghost use Rattle.jedge.specs.Acts.{DoesFrom, closes, closes_errors, opens, reads_whole, seen_as};
ghost use Rattle.jedge.specs.Calls.{Answers, Event};

use crate::fault::Fault;
use flashbase::Sink;
use std::alloc::Global;

/// A file that was opened, to be read.
pub trait Input: Drop {
    ghost name: { Self → List ℕ };
}

/// All that a command may touch. The contract of each call is its act.
pub trait Host {
    type Input: Input;

    type Output: Sink;

    type Errors: Sink;

    /// What happened so far, where it is told.
    ghost history: { Self → Option (List Event) };

    fn alloc(&self) -> Global;

    /// The file of a name, to be read.
    fn open(&mut self, name: &str) -> Result<Self::Input, Fault>
        ensures { DoesFrom (history self.old) (history self.new) (opens name.now)
            (seen_as (λ input. Self.Input.name input) result) };

    /// All bytes of a file, which is closed, also where it fails. At most the greatest image is
    /// kept.
    fn read(&mut self, input: Self::Input) -> Result<Vec<u8>, Fault>
        ensures { DoesFrom (history self.old) (history self.new)
            (reads_whole (Self.Input.name input)) (seen_as (λ bytes. bytes.items) result) };

    /// What is put on standard output goes here first; there may be no memory for it.
    fn output(&mut self) -> Result<Self::Output, Fault>
        ensures same { history self.new ≡ history self.old }
        ensures sound { IfOk result (λ out. Self.Output.failures out ≡ 0) }
        ensures empty { IfOk result
            (λ out. IfSome (history self.old) (λ _. Self.Output.taken out ≡ Some [])) }
        ensures memory { IfErr result (λ fault. fault ≡ Fault.OutOfMemory) };

    /// Prints what it took.
    fn close(&mut self, out: Self::Output) -> Result<(), Fault>
        ensures { (text : List ℕ)
            → IfSome (history self.old) (λ _. Self.Output.taken out ≡ Some text)
            → DoesFrom (history self.old) (history self.new)
            (closes Answers (Self.Output.failures out) text) result };

    /// The same of standard error, for which no memory is taken.
    fn errors(&mut self) -> Self::Errors
        ensures same { history self.new ≡ history self.old }
        ensures sound { Self.Errors.failures result ≡ 0 }
        ensures empty { IfSome (history self.old) (λ _. Self.Errors.taken result ≡ Some []) };

    /// Prints what it took.
    fn close_errors(&mut self, errors: Self::Errors)
        ensures { (text : List ℕ)
            → IfSome (history self.old) (λ _. Self.Errors.taken errors ≡ Some text)
            → DoesFrom (history self.old) (history self.new)
            (closes_errors (Self.Errors.failures errors) text) (Ok result) };
}
