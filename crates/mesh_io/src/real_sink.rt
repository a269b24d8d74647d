// The standard output.
ghost use Rattle.std.specs.Prelude.{◌≡◌};
ghost use Rattle.mesh_io.specs.Untold.{untold_sink};

use crate::folder::Failed;
use crate::sink::Sink;
use std::io::Write;

/// The standard output. It tells no bytes, and no loop and no memory is its own. The count rises
/// at each `Failed`.
#[derive(Drop)]
pub struct RealSink<'a, R: Print> {
    rt: &'a R,
    faults: u64,
}

impl<'a, R: Print> RealSink<'a, R> {
    /// The standard output of the runtime. No fault is counted.
    pub fn new(rt: &'a R) -> RealSink<'a, R>
        ensures { ⟦<RealSink<'a, R> as Sink>⟧.state result ≡ untold_sink 0 }
    {
        RealSink { rt, faults: 0 }
    }
}

impl<'a, R: Print> Sink for RealSink<'a, R> {
    ghost state = { λ s. untold_sink s.faults };

    /// A write that takes nothing of a piece that is not empty is a fault.
    fn write(&mut self, bytes: &[u8]) -> Result<usize, Failed> {
        if bytes.is_empty() {
            return Ok(0);
        }
        match std::io::writer(self.rt).write(bytes) {
            Ok(count) if count > 0 => Ok(count),
            _ => {
                self.faults = self.faults.saturating_add(1);
                Err(Failed)
            }
        }
    }
}
