//! What tests assert, each proved once: an `assert!` is proved anew in each test that has one. A
//! failure names the line of the call.

ghost use Rattle.std.specs.Prelude.{◌≡◌, true};

use std::fmt::Debug;
use std::process::Abort;

/// Stops the test unless this holds.
pub(crate) fn expect(rt: &impl Abort, is_so: bool)
    ensures { is_so ≡ true }
{
    assert!(rt; is_so);
}

/// Stops the test unless this holds, and tells in which case it does not.
pub(crate) fn expect_at(rt: &impl Abort, is_so: bool, case: impl Debug + Drop)
    ensures { is_so ≡ true }
{
    assert!(rt; is_so, "at {case:?}");
}
