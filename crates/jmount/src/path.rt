//! The text of paths.

ghost use Rattle.std.specs.Prelude.{◌≡◌, ◌==◌, ◌&&◌, not, option_map};
ghost use Rattle.std.specs.List.{list_all};
ghost use Rattle.jmount.specs.Find.{is_name, parts, path_names};
ghost use Rattle.jmount.specs.Paths.{names_after};

/// What a path has after its first slash, which is nothing or names with a slash between any two;
/// `None` of a text that is no path.
pub fn after_slash(text: &[u8]) -> Option<&[u8]>
    ensures { option_map (λ names. names_after names.now) result ≡ path_names text.now }
{
    let (first, names) = text.split_first()?;
    let is_path = *first == b'/' && (names.is_empty() || are_names(names));
    is_path.then_some(names)
}

/// Whether there are names alone between slashes.
fn are_names(names: &[u8]) -> bool
    ensures { result ≡ list_all is_name (parts names.now) }
{
    names.split(|b| *b == b'/').all(is_name)
}

/// Whether a path may have this name: it is not empty, `.` or `..`, and has neither a slash nor a
/// zero byte.
pub fn is_name(name: &[u8]) -> bool
    ensures { result ≡ is_name name.now }
{
    !name.is_empty() && is_plain(name) && name != b".".as_slice() && name != b"..".as_slice()
}

// Neither a slash nor a zero byte.
fn is_plain(name: &[u8]) -> bool
    ensures { result ≡ list_all (λ b. not (b == 47) && not (b == 0)) name.now }
{
    name.iter().all(|b| *b != b'/' && *b != 0)
}
