//! What stands after a stop of writing: the lines of `cuts`.

ghost use Rattle.std.specs.Prelude.{◌≡◌, ◌≢◌, ◌⊎◌, ℕ, IfOk, IfErr, length};
ghost use Rattle.jcuts.specs.Cuts.{AreCutsTold, base_point};
ghost use Rattle.jlog.specs.View.{flash_of_start, mount_of};
ghost use Rattle.jcalls.specs.Cutting.{AreCuts, AreCutsAsked, AreCutsBy, CutsRefused, CutsRefusedBy, IsDeclinedAt, asked_nodes};
ghost use Rattle.jcalls.specs.Made.{GivesMade, NeedsForMade};
ghost use Rattle.jcalls.specs.Shown.{IsDueFault};
ghost use Rattle.jcalls.specs.Told.{told_at, told_by};
ghost use Rattle.jcalls.specs.Works.{ImageRefused, listed_in, sink_with};

use crate::giving::give_all;
use crate::how::How;
use crate::told::{Fault, Told, mount_told, no_memory, session_told, tell};
use crate::working::{Planned, Work, flash_of, plan};
use byteorder::{BigEndian, LittleEndian};
use flashbase::FromWriter;
use jcuts::{CutsFault, Telling, put_cuts};
use jlog::{Flash, Start};
use jmount::mount;
use jnode::Order;
use std::alloc::Global;

/// The lines on operations from where a log goes on.
fn cuts_from<E: Order>(
    alloc: Global,
    start: &Start<'_, '_, E>,
    planned: &Planned<'_>,
) -> Result<Vec<u8>, Told>
    requires { length planned.now.numbers.items ≡ length planned.now.ops.items }
    ensures ok { IfOk result (λ text. (weak : ℕ) × AreCutsTold E.order
        (flash_of_start start.now) (asked_nodes planned.now.ops.items planned.now.numbers.items)
        (base_point E.order (flash_of_start start.now) (mount_of start.now).image)
        (sink_with text.items 0) weak) }
    ensures err { IfErr result (IsDueFault (λ told. (told ≡ told_at 7 0 0)
        ⊎ IsDeclinedAt E.order (flash_of_start start.now) (mount_of start.now).image
        planned.now.ops.items planned.now.numbers.items told)) }
{
    let mut sink = FromWriter::new(Vec::new(alloc));
    match put_cuts::<E, FromWriter<Vec<u8>>>(
        alloc,
        start,
        Telling::Nodes,
        &planned.ops,
        &planned.numbers,
        &mut sink,
    ) {
        Ok(_) => Ok(sink.into_writer()),
        Err(
            CutsFault::Session {
                fault,
                line: Some(line),
                ..
            },
        ) => Err(session_told(line, fault)),
        Err(CutsFault::Session { line: None, .. } | CutsFault::Output) => Err(no_memory()),
    }
}

/// Those on operations on an image.
fn cuts_on<E: Order>(
    alloc: Global,
    image: &[u8],
    flash: Flash,
    planned: &Planned<'_>,
) -> Result<Vec<u8>, Told>
    requires { length planned.now.numbers.items ≡ length planned.now.ops.items }
    ensures ok { IfOk result (λ text. AreCuts E.order flash image.now planned.now.ops.items
        planned.now.numbers.items text.items) }
    ensures err { IfErr result (IsDueFault (λ told. ImageRefused E.order flash image.now told
        ⊎ IsDeclinedAt E.order flash image.now planned.now.ops.items
        planned.now.numbers.items told)) }
{
    let mounted = match mount::<E>(alloc, image, flash.geometry) {
        Ok(mounted) => mounted,
        Err(why) => return Err(mount_told(why)),
    };
    match Start::<E>::of(&mounted, flash) {
        Ok(start) => cuts_from::<E>(alloc, &start, planned),
        Err(why) => Err(session_told(0, why)),
    }
}

/// Those on the operations of a listing.
fn cuts_in<E: Order>(
    alloc: Global,
    image: &[u8],
    flash: Flash,
    work: Work<'_>,
) -> Result<Vec<u8>, Told>
    ensures ok { IfOk result
        (λ text. AreCutsBy E.order flash image.now (listed_in work.entry) text.items) }
    ensures err { IfErr result
        (IsDueFault (CutsRefusedBy E.order flash image.now (listed_in work.entry))) }
{
    match plan::<E>(alloc, work.listing, work.files) {
        Ok(planned) => cuts_on::<E>(alloc, image, flash, &planned),
        Err(told) => Err(told),
    }
}

fn cuts_asked(alloc: Global, image: &[u8], how: How, work: Work<'_>) -> Result<Vec<u8>, Told>
    ensures ok { IfOk result (λ text. AreCutsAsked how image.now work.entry.target
        (listed_in work.entry) text.items) }
    ensures err { IfErr result (IsDueFault
        (CutsRefused how image.now work.entry.target (listed_in work.entry))) }
{
    let flash = match flash_of(how.block, work.target) {
        Ok(flash) => flash,
        Err(told) => return Err(told),
    };
    if how.is_big() {
        cuts_in::<BigEndian>(alloc, image, flash, work)
    } else {
        cuts_in::<LittleEndian>(alloc, image, flash, work)
    }
}

/// What `cuts` prints of the operations of a listing on an image: from which byte on each of their
/// nodes is whole, and a last line on all. Of an image without bytes those that make a new one.
/// Nothing is written of an image. Whether data are to be read through is not asked here.
///
/// # Errors
/// 25: no such page. 32: a row of the files is not within their bytes. 30, 33: a line means
/// nothing, or names a file that is not there. 1 to 7: the image does not mount. 22, 23: it is not
/// gone on from. 24, 31: an operation is declined. 9: there is no room for all bytes, and `needed`
/// says how many there are. `out` is then as it was.
pub fn cuts(
    alloc: Global,
    image: &[u8],
    how: How,
    work: Work<'_>,
    out: &mut [u8],
    needed: &mut usize,
    fault: &mut Fault,
) -> u32
    ensures done { result ≡ 0
        → GivesMade (AreCutsAsked how image.now work.entry.target (listed_in work.entry))
        out.old out.new needed.new }
    ensures small { result ≡ 9
        → NeedsForMade (AreCutsAsked how image.now work.entry.target (listed_in work.entry))
        out.old needed.new }
    ensures refused { result ≢ 0 → result ≢ 9
        → CutsRefused how image.now work.entry.target (listed_in work.entry)
        (told_by result fault.new) }
    ensures kept { result ≢ 0 → out.new ≡ out.old }
    ensures needed_kept { result ≢ 0 → result ≢ 9 → needed.new ≡ needed.old }
    ensures quiet { (result ≡ 0) ⊎ (result ≡ 9) → fault.new ≡ fault.old }
{
    match cuts_asked(alloc, image, how, work) {
        Ok(text) => give_all(&text, out, needed),
        Err(told) => tell(told, fault),
    }
}
