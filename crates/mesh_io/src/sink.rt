// What an output does, and when a call may fail.
ghost use Rattle.mesh_io.specs.Sink.{SinkState, Writes};

use crate::folder::Failed;

/// An output that only grows.
///
/// A sink keeps one count of faults, which never falls, does not rise in a write that answers `Ok`,
/// and stands still at 2^64 - 1. It may keep to itself what was written, as the standard output
/// does. The clauses on bytes are for the sinks that tell them.
pub trait Sink {
    /// What was written so far, and the count of faults.
    ghost state: { Self → SinkState };

    /// Appends bytes from the front of `bytes`, and answers how many. For `bytes` that are not
    /// empty it is at least 1. `Failed` comes only where the count rose, where a count that stands
    /// at 2^64 - 1 is taken as risen, and then nothing was appended.
    fn write(&mut self, bytes: &[u8]) -> Result<usize, Failed>
        ensures { Writes (state self.old) (state self.new) bytes.now result };
}
