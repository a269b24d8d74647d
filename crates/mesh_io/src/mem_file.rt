// A file in memory, and the calls that are to fail.
ghost use Rattle.std.specs.Prelude.{◌≡◌, ◌==◌, ◌&&◌};
ghost use Rattle.mesh_io.specs.Fails.{is_listed, is_same_kind};

use items::{Items, Text};

/// A file in memory.
#[derive(Debug, Drop)]
pub struct MemFile {
    /// Its name.
    pub name: Text,
    /// Its content.
    pub bytes: Items<u8>,
}

/// The calls of a folder.
#[derive(Clone, Copy, Debug, PartialEq, Eq)]
pub enum CallKind {
    /// `open`, which counts its faults on the read count.
    Open,
    /// `read`, which counts its faults on the read count.
    Read,
    /// `create`, which counts its faults on the write count.
    Create,
    /// `write`, which counts its faults on the write count.
    Write,
}

/// A call that is to fail.
#[derive(Clone, Copy, Debug, PartialEq, Eq)]
pub struct MemFail {
    /// The kind of the call.
    pub kind: CallKind,
    /// Its number among the calls of that kind, from 1. No call has the number 0.
    pub nth: u32,
}

impl MemFail {
    fn is(self, kind: CallKind, nth: u64) -> bool
        ensures { result ≡ (is_same_kind self.kind kind && (self.nth == nth)) }
    {
        self.kind == kind && u64::from(self.nth) == nth
    }
}

// Whether the list has the call of that kind and number.
pub(crate) fn is_listed(fails: &[MemFail], kind: CallKind, nth: u64) -> bool
    ensures { result ≡ is_listed fails.now kind nth }
{
    fails.iter().any(|fail| fail.is(kind, nth))
}
