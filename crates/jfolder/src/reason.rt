//! Why an object of the host is left out of a listing.

ghost use Rattle.std.specs.Prelude.{◌≡◌};
ghost use Rattle.jfolder.specs.Notes.{reason_text};

/// Why an object is left out.
#[derive(Clone, Copy, Debug, PartialEq, Eq)]
pub enum Reason {
    /// The host refused to tell of it.
    Refused,
    /// The target of a symlink is no UTF-8.
    NoText,
    /// It is the file that the listing is written to.
    Output,
    /// So many names in a directory are no UTF-8.
    Unnamed(u64),
    /// Its name is empty, `.` or `..`, or has a slash or a zero byte.
    BadName,
    /// Its name has more than 254 bytes.
    LongName,
    /// Its name was told before.
    Repeated,
    CharacterDevice,
    BlockDevice,
    UnknownKind,
    /// It has more than 268435456 bytes, as many as `build` takes of a file.
    Large,
    /// Its owner or its group is above 65535.
    Owner,
    /// Its time is before 1970 or after 2106.
    Time,
    /// It is a symlink to a target of no bytes, of more than 4095, or with a zero byte.
    Target,
    /// It is no directory. Only the folder itself has to be one.
    NotDirectory,
    /// The folder itself is a symlink.
    Symlink,
}

impl Reason {
    /// The reason in words. Their number follows where it has one.
    #[tactic(auto, unfolding(crate::specs::Notes::reason_text))]
    pub fn text(self) -> &'static str
        ensures { result.now ≡ reason_text self }
    {
        match self {
            Reason::Refused => "the host refused it",
            Reason::NoText => "no text",
            Reason::Output => "the listing itself",
            Reason::Unnamed(_) => "names that are no text: ",
            Reason::BadName => "a name that no file has",
            Reason::LongName => "a name of more than 254 bytes",
            Reason::Repeated => "a name that was told before",
            Reason::CharacterDevice => "character device",
            Reason::BlockDevice => "block device",
            Reason::UnknownKind => "a kind that is not known",
            Reason::Large => "more than 268435456 bytes",
            Reason::Owner => "an owner above 65535",
            Reason::Time => "a time before 1970 or after 2106",
            Reason::Target => "a target of no bytes, of more than 4095, or with a zero byte",
            Reason::NotDirectory => "no directory",
            Reason::Symlink => "a symlink, which is not followed",
        }
    }
}
