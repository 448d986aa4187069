//! What a path leads to, and the bytes of an object.

ghost use Rattle.std.specs.Prelude.{◌≡◌, ◌≢◌, ℕ, IfOk, IfErr, IsTrue};
ghost use Rattle.jmount.specs.Tree.{State, is_directory};
ghost use Rattle.jcalls.specs.Looking.{LeadsToRow, LeadsNowhere, Stats, StatRefused, ReadsAt};
ghost use Rattle.jcalls.specs.Shown.{Shows, ShowsNone, IsDueFault};
ghost use Rattle.jcalls.specs.Told.{told_by};

use crate::how::How;
use crate::mounting::mount_asked;
use crate::rows::{Stat, stat_row};
use crate::told::{Fault, OK, Told, find_told, tell};
use jmount::{FindFault, Mounted};
use std::alloc::Global;

/// The object that a path leads to.
fn row_at(mounted: &Mounted<'_>, path: &[u8]) -> Result<Stat, Told>
    requires root { IsTrue (is_directory mounted.now.state 1) }
    ensures ok { IfOk result (LeadsToRow mounted.now.state path.now) }
    ensures err { IfErr result (IsDueFault (LeadsNowhere mounted.now.state path.now)) }
{
    match mounted.find(path) {
        Ok(number) => match mounted.object(number) {
            Some(object) => Ok(stat_row(number, object)),
            None => Err(find_told(FindFault::NotFound)),
        },
        Err(why) => Err(find_told(why)),
    }
}

fn stat_of(alloc: Global, image: &[u8], how: How, path: &[u8]) -> Result<Stat, Told>
    ensures ok { IfOk result (Stats how image.now path.now) }
    ensures err { IfErr result (IsDueFault (StatRefused how image.now path.now)) }
{
    let mut contents = Vec::new(alloc);
    match mount_asked(alloc, image, how, &mut contents) {
        Ok(mounted) => row_at(&mounted, path),
        Err(told) => Err(told),
    }
}

/// What a path leads to. Symlinks are not followed.
///
/// # Errors
/// 1 to 7, 20, 21: the image does not mount. 10 to 12: the path leads to nothing. `stat` is then as
/// it was.
pub fn stat(
    alloc: Global,
    image: &[u8],
    how: How,
    path: &[u8],
    stat: &mut Stat,
    fault: &mut Fault,
) -> u32
    ensures done { result ≡ 0 → Stats how image.now path.now stat.new }
    ensures refused { result ≢ 0 → StatRefused how image.now path.now (told_by result fault.new) }
    ensures kept { result ≢ 0 → stat.new ≡ stat.old }
    ensures quiet { result ≡ 0 → fault.new ≡ fault.old }
{
    match stat_of(alloc, image, how, path) {
        Ok(row) => {
            *stat = row;
            OK
        }
        Err(told) => tell(told, fault),
    }
}

/// From where on the bytes of an object are read.
#[derive(Clone, Copy)]
pub struct Place {
    pub number: u32,
    pub offset: u64,
}

fn read_of(
    alloc: Global,
    image: &[u8],
    how: How,
    place: Place,
    out: &mut [u8],
) -> Result<usize, Told>
    ensures ok { IfOk result (λ got. (s : State) × Shows how image.now s
        × ReadsAt s place.number place.offset out.old out.new got) }
    ensures err { IfErr result (IsDueFault (ShowsNone how image.now)) }
    ensures kept { IfErr result (λ _. out.new ≡ out.old) }
{
    let mut contents = Vec::new(alloc);
    match mount_asked(alloc, image, how, &mut contents) {
        Ok(mounted) => Ok(mounted.read_at(place.number, place.offset, out)),
        Err(told) => Err(told),
    }
}

/// The bytes of a regular file or a symlink from an offset on, as many as there is room for; none
/// of what is neither of the two.
///
/// # Errors
/// 1 to 7, 20, 21: the image does not mount. `out` and `got` are then as they were.
pub fn read(
    alloc: Global,
    image: &[u8],
    how: How,
    place: Place,
    out: &mut [u8],
    got: &mut usize,
    fault: &mut Fault,
) -> u32
    ensures done { result ≡ 0 → (s : State) × Shows how image.now s
        × ReadsAt s place.number place.offset out.old out.new got.new }
    ensures refused { result ≢ 0 → ShowsNone how image.now (told_by result fault.new) }
    ensures kept { result ≢ 0 → out.new ≡ out.old }
    ensures got_kept { result ≢ 0 → got.new ≡ got.old }
    ensures quiet { result ≡ 0 → fault.new ≡ fault.old }
{
    match read_of(alloc, image, how, place, out) {
        Ok(count) => {
            *got = count;
            OK
        }
        Err(told) => tell(told, fault),
    }
}
