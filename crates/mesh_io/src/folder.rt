// What a folder of files does, and when a call may fail.
ghost use Rattle.std.specs.Prelude.{◌≡◌, true};
ghost use Rattle.mesh_io.specs.Folder.{FolderState, Opens, Reads, Creates, WritesSome};

use thiserror::Error;

/// A call that the outside could not do. The count of faults of the folder or sink rose in it.
#[derive(Clone, Copy, Debug, PartialEq, Eq)]
pub struct Failed;

/// Why a file was not opened.
#[derive(Clone, Copy, Debug, PartialEq, Eq, Error)]
pub enum OpenIssue {
    /// There is no file of that name.
    #[error("no such file")]
    Missing,
    /// The folder could not open it. The read count rose in this call.
    #[error("open failed")]
    Failed,
}

/// Named files, of which one at a time is read and one at a time is written.
///
/// A folder keeps two counts of faults: the read count, of `open` and `read`, and the write count,
/// of `create` and `write`. A call raises no count but its own, and none where it answers `Ok`. A
/// count never falls, and at 2^64 - 1 it stands still. `Failed` comes only where the call's own
/// count rose, where a count that stands at 2^64 - 1 is taken as risen. A call that answers an error
/// leaves the files, the file that is read, the reading place and the file that is written as they
/// were.
///
/// A folder may keep to itself what its files hold, as one over the files of the system does. All
/// clauses on content are for the folders that tell their files.
pub trait Folder {
    /// The files, what is opened and created, and the two counts.
    ghost state: { Self → FolderState };

    /// Opens the file of that name for reading, at its start. It takes the place of a file that
    /// was opened before.
    ///
    /// Where the files are told, `Missing` comes only for a name that is not there, and `Ok` only
    /// for one that is. Where they are not told, the read count rises at `Missing` too.
    fn open(&mut self, name: &str) -> Result<(), OpenIssue>
        ensures { Opens (state self.old) (state self.new) name.now result };

    /// Fills the front of `into` with the next bytes of the opened file, and answers how many. For
    /// an `into` that is not empty, 0 comes exactly at the end of the file.
    fn read(&mut self, into: &mut [u8]) -> Result<usize, Failed>
        requires { (state self.old).opened ≡ true }
        ensures { Reads (state self.old) (state self.new) into.new result };

    /// Makes the file of that name, or empties it, and makes it the one that is written. Where it
    /// is also the one that is read, the reading place becomes its start.
    fn create(&mut self, name: &str) -> Result<(), Failed>
        ensures { Creates (state self.old) (state self.new) name.now result };

    /// Appends bytes from the front of `bytes` to the file that is written, and answers how many.
    /// For `bytes` that are not empty it is at least 1.
    fn write(&mut self, bytes: &[u8]) -> Result<usize, Failed>
        requires { (state self.old).created ≡ true }
        ensures { WritesSome (state self.old) (state self.new) bytes.now result };
}
