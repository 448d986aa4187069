//! Whether bytes are erased.

ghost use Rattle.std.specs.Prelude.{◌≡◌};
ghost use Rattle.jreserve.specs.Erased.{is_all_erased};

use flashbase::Part;

/// Whether all of these bytes are 0xFF.
fn are_erased(bytes: &[u8]) -> bool
    ensures { result ≡ is_all_erased bytes.now }
{
    bytes.iter().all(|byte| *byte == 0xFF)
}

/// Whether all bytes of a part are 0xFF. Those that it lacks are.
pub fn is_erased(part: &Part<'_>) -> bool
    ensures { result ≡ is_all_erased part.now }
{
    are_erased(part.present())
}
