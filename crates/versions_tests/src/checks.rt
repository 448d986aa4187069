//! What tests assert, each proved once: an `assert_eq!` is proved anew, with the text that it would
//! print, in each test that has one. A failure names the line of the call.

ghost use Rattle.std.specs.Prelude.{◌≡◌, true};

use std::fmt::Debug;
use std::process::Abort;

/// Stops the test unless this holds.
pub(crate) fn expect(rt: &impl Abort, is_so: bool)
    ensures { is_so ≡ true }
{
    assert!(rt; is_so);
}

/// Stops the test unless this holds, and tells in which case it does not.
pub(crate) fn expect_at(rt: &impl Abort, is_so: bool, case: impl Debug + Drop)
    ensures { is_so ≡ true }
{
    assert!(rt; is_so, "at {case:?}");
}

/// Stops the test unless the two are equal, and tells both.
pub(crate) fn equal<T: PartialEq + Debug + Drop>(rt: &impl Abort, found: T, wanted: T)
    ensures { T.eq found wanted ≡ true }
{
    assert_eq!(rt; found, wanted);
}

/// Stops the test unless the two are equal, and tells both, and in which case they are not.
pub(crate) fn equal_at<T: PartialEq + Debug + Drop>(
    rt: &impl Abort,
    found: T,
    wanted: T,
    case: impl Debug + Drop,
)
    ensures { T.eq found wanted ≡ true }
{
    assert_eq!(rt; found, wanted, "at {case:?}");
}
