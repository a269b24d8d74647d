// An output in memory.
ghost use Rattle.std.specs.Prelude.{◌≡◌, ◌==◌, true, [], IfOk, IsErr, IsTrue, is_ok, length, if◌then◌else◌};
ghost use Rattle.std.specs.List.{list_any};
ghost use Rattle.mesh_io.specs.Faults.{counted};
ghost use Rattle.mesh_io.specs.Sink.{Writes};
ghost use Rattle.mesh_io.specs.MemSink.{sink_state};

use crate::folder::Failed;
use crate::sink::Sink;
use std::alloc::Global;
use std::marker::Model;

/// An output in memory, for tests. It tells its bytes, takes the whole piece at each write, and
/// fails the writes that it was told to.
#[derive(Drop)]
pub struct MemSink {
    bytes: Vec<u8>,
    fails: Vec<u32>,
    writes: u64,
    faults: u64,
}

impl Model for MemSink {
    ghost use Rattle.mesh_io.specs.MemSink.{MemSinkState};

    ghost Value = { MemSinkState };

    ghost view = { λ s. record { bytes = s.bytes.items; fails = s.fails.items; writes = s.writes; faults = s.faults } };
}

// Whether the list has the number.
fn is_among(numbers: &[u32], nth: u64) -> bool
    ensures { result ≡ list_any (λ n. n == nth) numbers.now }
{
    numbers.iter().any(|n| u64::from(*n) == nth)
}

impl MemSink {
    /// An empty output, which fails the writes with these numbers, counted from 1. No fault is
    /// counted. Takes no memory.
    pub fn new(alloc: Global, fails: Vec<u32>) -> MemSink
        ensures value { result ≡ record { bytes = []; fails = fails.items; writes = 0; faults = 0 } }
        ensures state { ⟦<MemSink as Sink>⟧.state result ≡ record { told = true; may_fail = true; bytes = []; faults = 0 } }
    {
        MemSink {
            bytes: Vec::new(alloc),
            fails,
            writes: 0,
            faults: 0,
        }
    }

    /// What was written.
    pub fn bytes(&self) -> &[u8]
        ensures { result.now ≡ self.now.bytes }
    {
        &self.bytes
    }
}

impl Sink for MemSink {
    ghost state = { sink_state };

    /// Fails where listed, and else only for want of memory.
    fn write(&mut self, bytes: &[u8]) -> Result<usize, Failed>
        ensures sink { Writes (sink_state self.old) (sink_state self.new) bytes.now result }
        ensures listed { IsTrue (list_any (λ nth. nth == counted self.old.writes) self.old.fails) → IsErr result }
        ensures taken { IfOk result (λ n. n ≡ length bytes.now) }
        ensures count { self.new.faults ≡ (if is_ok result then self.old.faults else counted self.old.faults) }
        ensures rest { self.new ≡ record self.old {
          writes = counted self.old.writes;
          bytes = self.new.bytes;
          faults = self.new.faults;
        } }
    {
        self.writes = self.writes.saturating_add(1);
        if is_among(&self.fails, self.writes) || self.bytes.extend_from_slice(bytes).is_err() {
            self.faults = self.faults.saturating_add(1);
            return Err(Failed);
        }
        Ok(bytes.len())
    }
}
