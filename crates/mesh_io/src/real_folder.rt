// The files of the system.
ghost use Rattle.std.specs.Prelude.{◌≡◌, false, is_some};
ghost use Rattle.mesh_io.specs.Untold.{untold_folder};

use crate::folder::{Failed, Folder, OpenIssue};
use std::fs::File;
use std::io::{ErrorKind, Read, Write};
use std::rt::Files;

/// The files of the system. It tells no bytes, and no loop and no memory is its own.
///
/// The read count rises at each `Missing` and at each `Failed` of `open` and `read`, the write
/// count at each `Failed` of `create` and `write`.
#[derive(Drop)]
pub struct RealFolder<'a, R: Files> {
    rt: &'a R,
    reading: Option<R::File>,
    writing: Option<R::File>,
    read_faults: u64,
    write_faults: u64,
}

impl<'a, R: Files> RealFolder<'a, R> {
    /// The files that the runtime reaches. Nothing is opened or created, and no fault is counted.
    pub fn new(rt: &'a R) -> RealFolder<'a, R>
        ensures { ⟦<RealFolder<'a, R> as Folder>⟧.state result ≡ untold_folder false false 0 0 }
    {
        RealFolder {
            rt,
            reading: None,
            writing: None,
            read_faults: 0,
            write_faults: 0,
        }
    }
}

impl<'a, R: Files> Folder for RealFolder<'a, R> {
    ghost state = { λ s. untold_folder (is_some s.reading) (is_some s.writing) s.read_faults s.write_faults };

    /// `Missing` comes only where the system says that the file is not found.
    fn open(&mut self, name: &str) -> Result<(), OpenIssue> {
        match File::open(self.rt, name) {
            Ok(file) => {
                self.reading = Some(file);
                Ok(())
            }
            Err(error) => {
                self.read_faults = self.read_faults.saturating_add(1);
                if error.kind() == ErrorKind::NotFound {
                    Err(OpenIssue::Missing)
                } else {
                    Err(OpenIssue::Failed)
                }
            }
        }
    }

    fn read(&mut self, into: &mut [u8]) -> Result<usize, Failed> {
        let Some(file) = &mut self.reading else {
            unreachable!();
        };
        match file.read(into) {
            Ok(count) => Ok(count),
            Err(_) => {
                self.read_faults = self.read_faults.saturating_add(1);
                Err(Failed)
            }
        }
    }

    fn create(&mut self, name: &str) -> Result<(), Failed> {
        match File::create(self.rt, name) {
            Ok(file) => {
                self.writing = Some(file);
                Ok(())
            }
            Err(_) => {
                self.write_faults = self.write_faults.saturating_add(1);
                Err(Failed)
            }
        }
    }

    /// A write that takes nothing of a piece that is not empty is a fault.
    fn write(&mut self, bytes: &[u8]) -> Result<usize, Failed> {
        let Some(file) = &mut self.writing else {
            unreachable!();
        };
        if bytes.is_empty() {
            return Ok(0);
        }
        match file.write(bytes) {
            Ok(count) if count > 0 => Ok(count),
            _ => {
                self.write_faults = self.write_faults.saturating_add(1);
                Err(Failed)
            }
        }
    }
}
