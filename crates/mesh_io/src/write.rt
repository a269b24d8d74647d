// A whole file, written.
ghost use Rattle.mesh_io.specs.Write.{WritesFile, WritesAll};

use crate::folder::{Failed, Folder};
use crate::sink::Sink;

/// Creates the file of that name and writes all of the bytes to it, the whole rest at each write.
///
/// After `Failed` of the `create` nothing has changed. After `Failed` of a `write` the file is
/// there and holds a front of the bytes. Every other file stays as it was.
pub fn write_file<F: Folder>(folder: &mut F, name: &str, bytes: &[u8]) -> Result<(), Failed>
    ensures { WritesFile (F.state folder.old) (F.state folder.new) name.now bytes.now result }
{
    folder.create(name)?;
    let mut rest = bytes;
    while !rest.is_empty() {
        let count = folder.write(rest)?;
        rest = &rest[count..];
    }
    Ok(())
}

/// Writes all of the bytes to the sink, the whole rest at each write.
///
/// After `Failed` a front of the bytes was written.
pub fn write_all<O: Sink>(sink: &mut O, bytes: &[u8]) -> Result<(), Failed>
    ensures { WritesAll (O.state sink.old) (O.state sink.new) bytes.now result }
{
    let mut rest = bytes;
    while !rest.is_empty() {
        let count = sink.write(rest)?;
        rest = &rest[count..];
    }
    Ok(())
}
