//! The paths of the host.

ghost use Rattle.std.specs.Prelude.{◌≡◌, ◌++◌, ◌∷◌, flat_map, map, IfOk, OnOk};
ghost use Rattle.std.specs.List.{list_all};
ghost use Rattle.jmount.specs.Find.{is_name};
ghost use Rattle.jextract.specs.Making.{IsPathOf};
ghost use Rattle.jextract.specs.Paths.{host_path, relative_path};

use crate::making::MakeFault;
use crate::reason::Reason;
use jmount::is_name;
use std::alloc::{AllocError, Global};

/// No host takes a longer path.
const GREATEST_PATH: usize = 4095;

/// Whether a path may have these names.
fn are_names(names: &[&[u8]]) -> bool
    ensures { result ≡ list_all is_name (map (λ name. name.now) names.now) }
{
    names.iter().all(|name| is_name(name))
}

/// Appends these names, a slash before each.
pub fn push_names(text: &mut Vec<u8>, names: &[&[u8]]) -> Result<(), AllocError>
    ensures { OnOk result
        (text.new.items ≡ text.old.items ++ flat_map (λ name. 47 ∷ name.now) names.now) }
{
    for name in names {
        text.push(b'/')?;
        text.extend_from_slice(name)?;
    }
    Ok(())
}

/// The text of a path.
fn path_text(alloc: Global, names: &[&[u8]]) -> Result<Vec<u8>, AllocError>
    ensures { IfOk result (λ text. text.items ≡ relative_path (map (λ name. name.now) names.now)) }
{
    let mut text = Vec::new(alloc);
    let Some((first, rest)) = names.split_first() else {
        return Ok(text);
    };
    text.extend_from_slice(first)?;
    push_names(&mut text, rest)?;
    Ok(text)
}

/// The text of a path that a host may have.
#[tactic(auto, unfolding(crate::specs::Paths::host_path))]
pub(crate) fn host_path(alloc: Global, names: &[&[u8]]) -> Result<String, MakeFault>
    ensures { IsPathOf (host_path (map (λ name. name.now) names.now)) result }
{
    if !are_names(names) {
        return Err(MakeFault::LeftOut(Reason::BadName));
    }
    let text = path_text(alloc, names)?;
    if text.len() > GREATEST_PATH {
        return Err(MakeFault::LeftOut(Reason::LongPath));
    }
    match String::from_utf8(text) {
        Ok(path) => {
            // It tells the proof that the text is UTF-8.
            let _text = path.as_str();
            Ok(path)
        }
        Err(_) => Err(MakeFault::LeftOut(Reason::NoText)),
    }
}
