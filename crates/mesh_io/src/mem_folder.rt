// A folder in memory.
ghost use Rattle.std.specs.Prelude.{◌≡◌, ◌<◌, ◌↔◌, true, false, [], None, MatchOption, IfOk, IsErr, IsErrOf, IsTrue, is_ok, length, min, if◌then◌else◌};
ghost use Rattle.mesh_io.specs.Faults.{counted};
ghost use Rattle.mesh_io.specs.Fails.{is_listed, lists_reading};
ghost use Rattle.mesh_io.specs.Folder.{Opens, Reads, Creates, WritesSome, left};
ghost use Rattle.mesh_io.specs.MemFiles.{AllNamesDiffer, lookup};
ghost use Rattle.mesh_io.specs.MemState.{folder_state, new_mem_state};

use crate::folder::{Failed, Folder, OpenIssue};
use crate::mem_file::{CallKind, MemFail, MemFile, is_listed};
use crate::mem_place::{Place, add, append, copy_some, empty, find, restart};
use std::alloc::Global;
use std::marker::Model;

/// Files in memory, for tests. It tells its files, takes or gives at most `chunk` bytes a call,
/// and fails the calls that it was told to.
#[derive(Drop)]
pub struct MemFolder {
    alloc: Global,
    files: Vec<MemFile>,
    fails: Vec<MemFail>,
    chunk: usize,
    reading: Option<Place>,
    writing: Option<usize>,
    opens: u64,
    reads: u64,
    creates: u64,
    writes: u64,
    read_faults: u64,
    write_faults: u64,
}

impl Model for MemFolder {
    ghost use Rattle.mesh_io.specs.MemState.{MemState};

    ghost Value = { MemState };

    ghost use Rattle.mesh_io.specs.MemFolder.{mem_state, IsSoundFolder};

    ghost view = { mem_state };

    ghost invariant = { IsSoundFolder };
}

impl MemFolder {
    /// A folder that holds these files, and fails the calls that `fails` lists. Nothing is opened
    /// or created, and no fault is counted. Takes no memory.
    ///
    /// A folder that lists no `open` and no `read` never counts a fault of reading.
    pub fn new(alloc: Global, files: Vec<MemFile>, fails: Vec<MemFail>, chunk: usize) -> MemFolder
        requires chunk { 0 < chunk }
        requires names { AllNamesDiffer files.items }
        ensures value { result ≡ new_mem_state files.items fails.items chunk }
        ensures state { ⟦<MemFolder as Folder>⟧.state result ≡ record {
          told = true;
          may_fail_reading = lists_reading fails.items;
          may_fail_writing = true;
          files = lookup files.items;
          opened = false;
          reading = [];
          place = 0;
          created = false;
          writing = [];
          read_faults = 0;
          write_faults = 0;
        } }
    {
        MemFolder {
            alloc,
            files,
            fails,
            chunk,
            reading: None,
            writing: None,
            opens: 0,
            reads: 0,
            creates: 0,
            writes: 0,
            read_faults: 0,
            write_faults: 0,
        }
    }

    /// The content of the file of that name. `None` where there is no such file.
    pub fn bytes(&self, name: &str) -> Option<&[u8]>
        ensures { MatchOption result (lookup self.now.files name.now ≡ None) (λ bytes. lookup self.now.files name.now ≡ Some bytes.now) }
    {
        match find(&self.files, name) {
            None => None,
            Some(i) => Some(self.files[i].bytes.as_slice()),
        }
    }
}

impl Folder for MemFolder {
    ghost state = { folder_state };

    /// Fails exactly where listed. Takes no memory.
    fn open(&mut self, name: &str) -> Result<(), OpenIssue>
        ensures folder { Opens (folder_state self.old) (folder_state self.new) name.now result }
        ensures failed { IsErrOf result OpenIssue.Failed ↔ IsTrue (is_listed self.old.fails CallKind.Open (counted self.old.opens)) }
        ensures count { self.new.read_faults ≡ (if is_listed self.old.fails CallKind.Open (counted self.old.opens)
            then counted self.old.read_faults else self.old.read_faults) }
        ensures rest { self.new ≡ record self.old {
          opens = counted self.old.opens;
          reading = self.new.reading;
          read_faults = self.new.read_faults;
        } }
    {
        self.opens = self.opens.saturating_add(1);
        if is_listed(&self.fails, CallKind::Open, self.opens) {
            self.read_faults = self.read_faults.saturating_add(1);
            return Err(OpenIssue::Failed);
        }
        match find(&self.files, name) {
            None => Err(OpenIssue::Missing),
            Some(file) => {
                self.reading = Some(Place { file, at: 0 });
                Ok(())
            }
        }
    }

    /// Fails exactly where listed. Takes no memory.
    fn read(&mut self, into: &mut [u8]) -> Result<usize, Failed>
        requires { (folder_state self.old).opened ≡ true }
        ensures folder { Reads (folder_state self.old) (folder_state self.new) into.new result }
        ensures failed { IsErr result ↔ IsTrue (is_listed self.old.fails CallKind.Read (counted self.old.reads)) }
        ensures given { IfOk result (λ n. n ≡ min (min (length (left (folder_state self.old))) (length into.new)) self.old.chunk) }
        ensures count { self.new.read_faults ≡ (if is_ok result then self.old.read_faults else counted self.old.read_faults) }
        ensures rest { self.new ≡ record self.old {
          reads = counted self.old.reads;
          reading = self.new.reading;
          read_faults = self.new.read_faults;
        } }
    {
        self.reads = self.reads.saturating_add(1);
        if is_listed(&self.fails, CallKind::Read, self.reads) {
            self.read_faults = self.read_faults.saturating_add(1);
            return Err(Failed);
        }
        let Some(place) = self.reading else {
            unreachable!();
        };
        let content = self.files[place.file].bytes.as_slice();
        let count = copy_some(content, place.at, self.chunk, into);
        self.reading = Some(Place {
            file: place.file,
            at: place.at + count,
        });
        Ok(count)
    }

    /// Fails where listed, and else only for want of memory.
    fn create(&mut self, name: &str) -> Result<(), Failed>
        ensures folder { Creates (folder_state self.old) (folder_state self.new) name.now result }
        ensures listed { IsTrue (is_listed self.old.fails CallKind.Create (counted self.old.creates)) → IsErr result }
        ensures count { self.new.write_faults ≡ (if is_ok result then self.old.write_faults else counted self.old.write_faults) }
        ensures rest { self.new ≡ record self.old {
          creates = counted self.old.creates;
          files = self.new.files;
          reading = self.new.reading;
          writing = self.new.writing;
          write_faults = self.new.write_faults;
        } }
    {
        self.creates = self.creates.saturating_add(1);
        if is_listed(&self.fails, CallKind::Create, self.creates) {
            self.write_faults = self.write_faults.saturating_add(1);
            return Err(Failed);
        }
        match find(&self.files, name) {
            Some(file) => {
                empty(&mut self.files, file);
                self.writing = Some(file);
                self.reading = restart(self.reading, file);
                Ok(())
            }
            None => {
                let file = self.files.len();
                match add(self.alloc, &mut self.files, name) {
                    Ok(()) => {
                        self.writing = Some(file);
                        Ok(())
                    }
                    Err(_) => {
                        self.write_faults = self.write_faults.saturating_add(1);
                        Err(Failed)
                    }
                }
            }
        }
    }

    /// Fails where listed, and else only for want of memory.
    fn write(&mut self, bytes: &[u8]) -> Result<usize, Failed>
        requires { (folder_state self.old).created ≡ true }
        ensures folder { WritesSome (folder_state self.old) (folder_state self.new) bytes.now result }
        ensures listed { IsTrue (is_listed self.old.fails CallKind.Write (counted self.old.writes)) → IsErr result }
        ensures taken { IfOk result (λ n. n ≡ min (length bytes.now) self.old.chunk) }
        ensures count { self.new.write_faults ≡ (if is_ok result then self.old.write_faults else counted self.old.write_faults) }
        ensures rest { self.new ≡ record self.old {
          writes = counted self.old.writes;
          files = self.new.files;
          write_faults = self.new.write_faults;
        } }
    {
        self.writes = self.writes.saturating_add(1);
        if is_listed(&self.fails, CallKind::Write, self.writes) {
            self.write_faults = self.write_faults.saturating_add(1);
            return Err(Failed);
        }
        let Some(file) = self.writing else {
            unreachable!();
        };
        let count = bytes.len().min(self.chunk);
        match append(&mut self.files, file, &bytes[..count]) {
            Ok(()) => Ok(count),
            Err(_) => {
                self.write_faults = self.write_faults.saturating_add(1);
                Err(Failed)
            }
        }
    }
}
