// A whole file, read.
ghost use Rattle.std.specs.Prelude.{◌≡◌, ◌<◌, true, length};
ghost use Rattle.mesh_io.specs.Read.{ReadsAll, ReadsRest};

use crate::folder::{Failed, Folder, OpenIssue};
use std::alloc::Global;
use thiserror::Error;

/// Why a file was not read whole.
#[derive(Clone, Copy, Debug, PartialEq, Eq, Error)]
pub enum ReadIssue {
    /// There is no file of that name.
    #[error("no such file")]
    Missing,
    /// The folder failed to open or to read it. The read count rose in this call.
    #[error("read failed")]
    Failed,
    /// It has more bytes than were asked for.
    #[error("too long")]
    TooLong,
    /// There was no memory for it.
    #[error("out of memory")]
    Memory,
}

// The largest number of bytes that one `read` is asked for.
const PIECE: usize = 65536;

/// Reads the whole file of that name, if it has at most `limit` bytes.
///
/// Where the folder tells its files, and no call on it fails, the answer is the content, or
/// `TooLong` where it has more than `limit` bytes, or `Missing` where there is no such file; only
/// `Memory` may come in place of the first two. At most `limit + 1` bytes are taken from the file.
/// After every answer the files, the file that is written and the write count are as they were.
pub fn read_all<F: Folder>(
    alloc: Global,
    folder: &mut F,
    name: &str,
    limit: usize,
) -> Result<Vec<u8>, ReadIssue>
    ensures { ReadsAll (F.state folder.old) (F.state folder.new) name.now limit result }
{
    match folder.open(name) {
        Ok(()) => {}
        Err(OpenIssue::Missing) => return Err(ReadIssue::Missing),
        Err(OpenIssue::Failed) => return Err(ReadIssue::Failed),
    }
    match vec![in alloc; 0u8; PIECE] {
        Ok(mut piece) => read_rest(alloc, folder, &mut piece, limit),
        Err(_) => Err(ReadIssue::Memory),
    }
}

// Reads what is left of the opened file, piece by piece.
fn read_rest<F: Folder>(
    alloc: Global,
    folder: &mut F,
    piece: &mut [u8],
    limit: usize,
) -> Result<Vec<u8>, ReadIssue>
    requires opened { (F.state folder.old).opened ≡ true }
    requires piece { 0 < length piece.old }
    ensures { ReadsRest (F.state folder.old) (F.state folder.new) limit result }
{
    let mut bytes = Vec::new(alloc);
    loop {
        let room = (limit - bytes.len()).min(piece.len() - 1) + 1;
        let count = match folder.read(&mut piece[..room]) {
            Ok(count) => count,
            Err(Failed) => return Err(ReadIssue::Failed),
        };
        if count == 0 {
            return Ok(bytes);
        }
        if count > limit - bytes.len() {
            return Err(ReadIssue::TooLong);
        }
        if bytes.extend_from_slice(&piece[..count]).is_err() {
            return Err(ReadIssue::Memory);
        }
    }
}
