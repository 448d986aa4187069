//! What may be stored beside what is stored.

ghost use Rattle.std.specs.Prelude.{◌≡◌, ◌≢◌, ◌==◌, ℕ, Some, OnOk, OnErr, if◌then◌else◌};
ghost use Rattle.std.specs.Ordering.{nat_cmp};
ghost use Rattle.std.specs.BTreeMap.{IsOrdered, get};
ghost use Rattle.jname.specs.Versions.{Agrees, Differs};

use crate::NameFault;
use crate::versions::Content;
use std::collections::BTreeMap;

/// Whether a content may be stored where this one is stored.
pub fn agree(there: Content, content: Content) -> Result<(), NameFault>
    ensures clash { result ≡ Err NameFault.Clash → there ≢ content }
    ensures alone { OnOk result (there ≡ content) }
{
    if there == content {
        Ok(())
    } else {
        Err(NameFault::Clash)
    }
}

/// Holds a content at a version of these.
pub fn add_older(
    older: &mut BTreeMap<u32, Content>,
    version: u32,
    content: Content,
) -> Result<(), NameFault>
    requires { IsOrdered nat_cmp older.old }
    ensures clash { result ≡ Err NameFault.Clash → Differs (get nat_cmp older.old version) content }
    ensures alone { OnOk result (Agrees (get nat_cmp older.old version) content) }
    ensures ok { OnOk result ((v : ℕ) → get nat_cmp older.new v
        ≡ (if version == v then Some content else get nat_cmp older.old v)) }
    ensures err { OnErr result (older.new.entries ≡ older.old.entries) }
    ensures ordered { IsOrdered nat_cmp older.new }
{
    if let Some(there) = older.get(&version) {
        return agree(*there, content);
    }
    older.insert(version, content)?;
    Ok(())
}
