//! Paths of the host below a folder.

ghost use Rattle.std.specs.Prelude.{◌≡◌, IfOk, OnOk, string_bytes};
ghost use Rattle.jhost.specs.JoinedPaths.{joined_path};

use std::alloc::AllocError;

/// Puts the path of the host for one below a folder in the place of a text: that of the folder, a
/// slash, and the path; the empty path is the folder itself.
pub fn put_joined(whole: &mut String, root: &str, path: &str) -> Result<(), AllocError>
    ensures { OnOk result (string_bytes whole.new ≡ joined_path root.now path.now) }
{
    whole.clear();
    whole.push_str(root)?;
    if !path.is_empty() {
        whole.push('/')?;
        whole.push_str(path)?;
    }
    Ok(())
}

/// The same as a text of its own.
pub fn joined<R: AllocGlobal>(rt: &R, root: &str, path: &str) -> Result<String, AllocError>
    ensures { IfOk result (λ whole. string_bytes whole ≡ joined_path root.now path.now) }
{
    let length = root.len().saturating_add(path.len()).saturating_add(1);
    let mut whole = String::with_capacity(rt.alloc(), length)?;
    put_joined(&mut whole, root, path)?;
    Ok(whole)
}
