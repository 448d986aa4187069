//! Many reads by one mount.

ghost use Rattle.std.specs.Prelude.{◌≡◌, ◌≢◌, ◌≤◌, ◌⊎◌, ℕ, ◌+◌, ◌-◌, ◌^◌, ◌++◌, drop, length, min, take};
ghost use Rattle.jmount.specs.Shown.{readable};
ghost use Rattle.jmount.specs.Tree.{State};
ghost use Rattle.jcalls.specs.Many as many;
ghost use Rattle.jcalls.specs.Many.{answered, answered_from, bytes_asked, bytes_of_all, count_asked, count_of_all, GivesMany, NeedsForMany};
ghost use Rattle.jcalls.specs.Shown.{Shows, ShowsNone};
ghost use Rattle.jcalls.specs.Told.{told_by};

use crate::how::How;
use crate::mounting::mount_asked;
use crate::rows::Request;
use crate::told::{Fault, OK, SMALL, tell};
use jmount::{Kind, Mounted};
use std::alloc::Global;

/// How many bytes an object has that are read.
fn length_of(mounted: &Mounted<'_>, number: u32) -> u64
    ensures { result ≡ length (readable mounted.now.state number) }
{
    match mounted.object(number) {
        Some(object) => match object.kind {
            Kind::Regular | Kind::Symlink => u64::from(object.size),
            _ => 0,
        },
        None => 0,
    }
}

/// How many bytes a request is answered with.
fn count_asked(mounted: &Mounted<'_>, request: Request) -> u64
    ensures { result ≡ count_asked mounted.now.state request }
{
    let left = length_of(mounted, request.number).saturating_sub(request.offset);
    request.length.min(left)
}

/// How many bytes all of them are answered with, up to the greatest number.
fn count_of_all(mounted: &Mounted<'_>, requests: &[Request]) -> usize
    ensures { result ≡ min (count_of_all mounted.now.state requests.now) (2 ^ 64 - 1) }
{
    let mut count = 0usize;
    for request in requests {
        count = count.saturating_add(count_asked(mounted, *request) as usize);
    }
    count
}

/// Answers one request at a place of the caller's memory.
fn answer(mounted: &Mounted<'_>, request: Request, at: usize, out: &mut [u8]) -> Request
    requires room { at + many.count_asked mounted.now.state request ≤ length out.old }
    ensures row { result ≡ answered mounted.now.state at request }
    ensures bytes { out.new ≡ take at out.old ++ bytes_asked mounted.now.state request
        ++ drop (at + many.count_asked mounted.now.state request) out.old }
{
    let count = count_asked(mounted, request) as usize;
    mounted.read_at(request.number, request.offset, &mut out[at..at + count]);
    Request {
        at: at as u64,
        got: count as u64,
        ..request
    }
}

/// Answers all of them.
fn answer_all(mounted: &Mounted<'_>, requests: &mut [Request], out: &mut [u8])
    requires room { many.count_of_all mounted.now.state requests.old ≤ length out.old }
    ensures rows { requests.new ≡ answered_from mounted.now.state 0 requests.old }
    ensures bytes { out.new ≡ bytes_of_all mounted.now.state requests.old
        ++ drop (many.count_of_all mounted.now.state requests.old) out.old }
{
    let mut at = 0;
    for i in 0..requests.len() {
        let row = answer(mounted, requests[i], at, out);
        at += row.got as usize;
        requests[i] = row;
    }
}

/// Answers all of them, where there is room for all their bytes. How many these are is told in any
/// case.
fn give_many(
    mounted: &Mounted<'_>,
    requests: &mut [Request],
    out: &mut [u8],
    needed: &mut usize,
) -> u32
    ensures gives { result ≡ 0 → GivesMany mounted.now.state requests.old requests.new
        out.old out.new needed.new }
    ensures short { result ≡ 9
        → NeedsForMany mounted.now.state requests.old out.old needed.new }
    ensures either { result ≢ 0 → result ≡ 9 }
    ensures rows_kept { result ≢ 0 → requests.new ≡ requests.old }
    ensures kept { result ≢ 0 → out.new ≡ out.old }
{
    let count = count_of_all(mounted, requests);
    *needed = count;
    if out.len() < count {
        return SMALL;
    }
    answer_all(mounted, requests, out);
    OK
}

/// The bytes of many objects by one mount: each request is answered as `read` answers it, and their
/// bytes stand one behind the other. Of an object that is not there, or is no file and no symlink,
/// there are none, and the others are read all the same.
///
/// # Errors
/// 1 to 7, 20, 21: the image does not mount. 9: there is no room for all bytes; `needed` says how
/// many there are. `requests` and `out` are then as they were.
pub fn read_many(
    alloc: Global,
    image: &[u8],
    how: How,
    requests: &mut [Request],
    out: &mut [u8],
    needed: &mut usize,
    fault: &mut Fault,
) -> u32
    ensures done { result ≡ 0 → (s : State) × Shows how image.now s
        × GivesMany s requests.old requests.new out.old out.new needed.new }
    ensures small { result ≡ 9 → (s : State) × Shows how image.now s
        × NeedsForMany s requests.old out.old needed.new }
    ensures refused { result ≢ 0 → result ≢ 9
        → ShowsNone how image.now (told_by result fault.new) }
    ensures rows_kept { result ≢ 0 → requests.new ≡ requests.old }
    ensures kept { result ≢ 0 → out.new ≡ out.old }
    ensures needed_kept { result ≢ 0 → result ≢ 9 → needed.new ≡ needed.old }
    ensures quiet { (result ≡ 0) ⊎ (result ≡ 9) → fault.new ≡ fault.old }
{
    let mut contents = Vec::new(alloc);
    match mount_asked(alloc, image, how, &mut contents) {
        Ok(mounted) => give_many(&mounted, requests, out, needed),
        Err(told) => tell(told, fault),
    }
}
