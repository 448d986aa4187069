//! Files that are read whole.
ghost use Rattle.jedge.specs.Acts.{DoesFrom, loads, seen_as};

use crate::fault::Fault;
use crate::host::Host;

/// The bytes of the file of a name.
pub fn load<H: Host>(host: &mut H, name: &str) -> Result<Vec<u8>, Fault>
    ensures { DoesFrom (H.history host.old) (H.history host.new) (loads name.now)
        (seen_as (λ bytes. bytes.items) result) }
{
    match host.open(name) {
        Ok(input) => host.read(input),
        Err(fault) => Err(fault),
    }
}
