//! The content of files.

ghost use Rattle.std.specs.Prelude.{◌≡◌, Ok, IfOk, IfErr};
ghost use Rattle.flashbase.specs.Sinks.{change_of};
ghost use Rattle.jmount.specs.Shown.{readable};
ghost use Rattle.jreport.specs.Content.{content_of, is_regular, IsContentFault, PutsContent};

use crate::faults::ProgramFault;
use flashbase::Sink;
use jmount::{Kind, Mounted};

/// Whether a number is that of a regular file.
fn is_regular(mounted: &Mounted<'_>, ino: u32) -> bool
    ensures { result ≡ is_regular mounted.now.state ino }
{
    match mounted.object(ino) {
        Some(object) => object.kind == Kind::Regular,
        None => false,
    }
}

/// The number of the regular file that a path names.
#[tactic(auto, unfolding(crate::specs::Content::content_of))]
fn regular_at(mounted: &Mounted<'_>, path: &[u8]) -> Result<u32, ProgramFault<'static>>
    ensures ok { IfOk result
        (λ i. content_of mounted.now.state path.now ≡ Ok (readable mounted.now.state i)) }
    ensures err { IfErr result (IsContentFault (content_of mounted.now.state path.now)) }
{
    let ino = mounted.find(path)?;
    if !is_regular(mounted, ino) {
        return Err(ProgramFault::NotRegular);
    }
    Ok(ino)
}

/// Puts the content of the regular file that a path names. Takes no memory, however long the file
/// is.
pub fn content<T: Sink>(
    mounted: &Mounted<'_>,
    path: &[u8],
    sink: &mut T,
) -> Result<(), ProgramFault<'static>>
    ensures { PutsContent (content_of mounted.now.state path.now)
        (change_of T.Sink sink.old sink.new) result }
{
    let ino = regular_at(mounted, path)?;
    mounted.put_bytes(ino, sink)?;
    Ok(())
}
