//! A folder of the host, as it is read.

ghost use Rattle.std.specs.Prelude.{◌≡◌, ◌≢◌, true, Err, IfErr, IfOk, IfSome, IsTrue, OnOk};
ghost use Rattle.std.specs.String.{string_bytes};
ghost use Rattle.jfolder.specs.Known.{Known, MayAnswer, named_of};
ghost use Rattle.jfolder.specs.Reasons.{IsUnseen, IsUntold};

use crate::fault::FolderFault;

/// What the host tells of an object, as `lstat` does. The bits 12 to 15 of the mode are its kind,
/// and the time is that of the last change of its bytes, in seconds since 1970. Names of one object
/// have the same device and number.
#[derive(Clone, Copy)]
pub struct Looked {
    pub mode: u32,
    pub uid: u32,
    pub gid: u32,
    pub time: i64,
    pub size: u64,
    pub links: u64,
    pub device: u64,
    pub number: u64,
    /// The number of the device that it is, where it is one.
    pub special: u64,
}

/// The names in a directory, without `.` and `..`: those that are UTF-8, in any order, and how many
/// others there are.
#[derive(Drop)]
pub struct Names {
    pub texts: Vec<String>,
    pub others: u64,
}

/// A folder of the host that is read. A path is that of an object in it, names with a slash between
/// two; the empty path is the folder itself. No call follows a symlink that a path ends in. A call
/// that refuses has nothing that is known to tell.
pub trait HostFolder {
    /// What is known of what it tells at each path. No call changes it.
    ghost known: { Self → Known };

    /// What the host tells of an object.
    fn look(&mut self, path: &str) -> Result<Looked, FolderFault>
        ensures kept { known self.new ≡ known self.old }
        ensures memory { IsTrue (known self.old).has_memory → result ≢ Err FolderFault.OutOfMemory }
        ensures told { IfOk result
            (λ it. IfSome ((known self.old).looked path.now) (λ told. it ≡ told)) }
        ensures untold { IfErr result (IsUntold ((known self.old).looked path.now)) }
        ensures seen { OnOk result (MayAnswer ((known self.old).is_told path.now) true) }
        ensures unseen { IfErr result (IsUnseen ((known self.old).is_told path.now)) };

    /// The names in a directory.
    fn names(&mut self, path: &str) -> Result<Names, FolderFault>
        ensures kept { known self.new ≡ known self.old }
        ensures memory { IsTrue (known self.old).has_memory → result ≢ Err FolderFault.OutOfMemory }
        ensures told { IfOk result
            (λ it. IfSome ((known self.old).names path.now) (λ told. named_of it ≡ told)) }
        ensures untold { IfErr result (IsUntold ((known self.old).names path.now)) };

    /// The target of a symlink.
    fn target(&mut self, path: &str) -> Result<String, FolderFault>
        ensures kept { known self.new ≡ known self.old }
        ensures memory { IsTrue (known self.old).has_memory → result ≢ Err FolderFault.OutOfMemory }
        ensures told { IfOk result
            (λ it. IfSome ((known self.old).target path.now) (λ told. string_bytes it ≡ told)) }
        ensures untold { IfErr result (IsUntold ((known self.old).target path.now)) };

    /// The name by which another program opens the file.
    fn host_path(&mut self, path: &str) -> Result<String, FolderFault>
        ensures kept { known self.new ≡ known self.old }
        ensures memory { IsTrue (known self.old).has_memory → result ≢ Err FolderFault.OutOfMemory }
        ensures told { IfOk result
            (λ it. IfSome ((known self.old).host_path path.now) (λ told. string_bytes it ≡ told)) }
        ensures untold { IfErr result (IsUntold ((known self.old).host_path path.now)) };

    /// Opens a regular file to be read, and closes it.
    fn open(&mut self, path: &str) -> Result<(), FolderFault>
        ensures kept { known self.new ≡ known self.old }
        ensures memory { IsTrue (known self.old).has_memory → result ≢ Err FolderFault.OutOfMemory }
        ensures opened { OnOk result (MayAnswer ((known self.old).is_opened path.now) true) }
        ensures unopened { IfErr result (IsUnseen ((known self.old).is_opened path.now)) };
}
