// Folders and outputs, in memory and real ones, and their faults.
ghost use Rattle.std.specs.Prelude.{◌≡◌, false, IfOk, IsErrOf};
ghost use Rattle.mesh_io.specs.Fails.{lists_reading};
ghost use Rattle.mesh_io.specs.MemFiles.{AllNamesDiffer};

use crate::*;
use items::{Items, Text};
use std::alloc::{AllocError, Global};
use std::fmt::Display;
use std::io::{Error, ErrorKind};
use std::test::Fail;

fn one_file(alloc: Global, name: &str, bytes: &[u8]) -> Result<Vec<MemFile>, AllocError>
    ensures { IfOk result (λ files. AllNamesDiffer files.items) }
{
    let name = Text::from_string(String::from_str(alloc, name)?);
    let bytes = Items::from_slice(alloc, bytes)?;
    let mut files = Vec::new(alloc);
    files.push(MemFile { name, bytes })?;
    Ok(files)
}

fn one_fail(alloc: Global, kind: CallKind, nth: u32) -> Result<Vec<MemFail>, AllocError> {
    let mut fails = Vec::new(alloc);
    fails.push(MemFail { kind, nth })?;
    Ok(fails)
}

// Where no call that reads is listed, no answer is a failed read.
fn read_without_fault(
    alloc: Global,
    files: Vec<MemFile>,
    fails: Vec<MemFail>,
    name: &str,
) -> Result<Vec<u8>, ReadIssue>
    requires names { AllNamesDiffer files.items }
    requires fails { lists_reading fails.items ≡ false }
    ensures { IsErrOf result ReadIssue.Failed → ⊥ }
{
    let mut folder = MemFolder::new(alloc, files, fails, 4096);
    read_all(alloc, &mut folder, name, 100)
}

#[test]
fn reads_up_to_the_limit(rt: HostRuntime) -> Result<(), Fail> {
    let alloc = rt.alloc();
    let files = one_file(alloc, "a.off", b"12345")?;
    let mut folder = MemFolder::new(alloc, files, Vec::new(alloc), 2);
    assert_eq!(rt;
        read_all(alloc, &mut folder, "a.off", 5)?.as_slice(),
        b"12345".as_slice()
    );
    assert!(rt;
        matches!(
            read_all(alloc, &mut folder, "a.off", 4),
            Err(ReadIssue::TooLong)
        )
    );
    assert!(rt;
        matches!(
            read_all(alloc, &mut folder, "b.off", 5),
            Err(ReadIssue::Missing)
        )
    );
    assert_eq!(rt; folder.open("b.off"), Err(OpenIssue::Missing));
    Ok(())
}

#[test]
fn lists_no_read(rt: HostRuntime) -> Result<(), Fail> {
    let alloc = rt.alloc();
    let files = one_file(alloc, "a.off", b"OFF\n")?;
    let bytes = read_without_fault(alloc, files, Vec::new(alloc), "a.off")?;
    assert_eq!(rt; bytes.as_slice(), b"OFF\n".as_slice());
    Ok(())
}

#[test]
fn second_read_fails(rt: HostRuntime) -> Result<(), Fail> {
    let alloc = rt.alloc();
    let files = one_file(alloc, "a.off", b"0123456789abcdefghij!")?;
    let fails = one_fail(alloc, CallKind::Read, 2)?;
    let mut folder = MemFolder::new(alloc, files, fails, 10);
    assert!(rt;
        matches!(
            read_all(alloc, &mut folder, "a.off", 99),
            Err(ReadIssue::Failed)
        )
    );
    assert_eq!(rt; read_all(alloc, &mut folder, "a.off", 99)?.len(), 21);
    Ok(())
}

#[test]
fn first_open_fails(rt: HostRuntime) -> Result<(), Fail> {
    let alloc = rt.alloc();
    let files = one_file(alloc, "a.off", b"OFF\n")?;
    let fails = one_fail(alloc, CallKind::Open, 1)?;
    let mut folder = MemFolder::new(alloc, files, fails, 10);
    assert_eq!(rt; folder.open("a.off"), Err(OpenIssue::Failed));
    assert_eq!(rt; folder.open("a.off"), Ok(()));
    Ok(())
}

#[test]
fn third_write_fails(rt: HostRuntime) -> Result<(), Fail> {
    let alloc = rt.alloc();
    let files = one_file(alloc, "a.off", b"OFF\n")?;
    let fails = one_fail(alloc, CallKind::Write, 3)?;
    let mut folder = MemFolder::new(alloc, files, fails, 10);
    let text = b"0123456789abcdefghijABCDEFGHIJ";
    assert_eq!(rt; write_file(&mut folder, "b.msh", text), Err(Failed));
    let held = folder.bytes("b.msh").ok_or("it was created")?;
    assert_eq!(rt; held, b"0123456789abcdefghij".as_slice());
    write_file(&mut folder, "a.off", text)?;
    let held = folder.bytes("a.off").ok_or("it was there")?;
    assert_eq!(rt; held, text.as_slice());
    assert!(rt; folder.bytes("c.msh").is_none());
    Ok(())
}

#[test]
fn create_fails(rt: HostRuntime) -> Result<(), Fail> {
    let alloc = rt.alloc();
    let files = one_file(alloc, "a.off", b"OFF\n")?;
    let fails = one_fail(alloc, CallKind::Create, 1)?;
    let mut folder = MemFolder::new(alloc, files, fails, 10);
    assert_eq!(rt; write_file(&mut folder, "a.off", b"new"), Err(Failed));
    let held = folder.bytes("a.off").ok_or("it was there")?;
    assert_eq!(rt; held, b"OFF\n".as_slice());
    Ok(())
}

#[test]
fn emptied_file_is_read_from_its_start(rt: HostRuntime) -> Result<(), Fail> {
    let alloc = rt.alloc();
    let files = one_file(alloc, "a.off", b"0123456789")?;
    let mut folder = MemFolder::new(alloc, files, Vec::new(alloc), 4);
    let mut into = [0; 8];
    folder.open("a.off")?;
    assert_eq!(rt; folder.read(&mut into), Ok(4));
    write_file(&mut folder, "a.off", b"xyz")?;
    assert_eq!(rt; folder.read(&mut into), Ok(3));
    assert_eq!(rt; &into[..3], b"xyz".as_slice());
    assert_eq!(rt; folder.read(&mut into), Ok(0));
    Ok(())
}

#[test]
fn second_write_of_a_sink_fails(rt: HostRuntime) -> Result<(), Fail> {
    let alloc = rt.alloc();
    let mut fails = Vec::new(alloc);
    fails.push(2)?;
    let mut sink = MemSink::new(alloc, fails);
    assert_eq!(rt; write_all(&mut sink, b"one "), Ok(()));
    assert_eq!(rt; write_all(&mut sink, b"two "), Err(Failed));
    assert_eq!(rt; write_all(&mut sink, b"three"), Ok(()));
    assert_eq!(rt; sink.bytes(), b"one three".as_slice());
    Ok(())
}

#[test]
fn real_files(rt: HostRuntime) -> Result<(), Fail> {
    let alloc = rt.alloc();
    let name = "real_folder_test.txt";
    let mut folder = RealFolder::new(&rt);
    write_file(&mut folder, name, b"$MeshFormat\n2.2 0 8\n")?;
    let bytes = read_all(alloc, &mut folder, name, 20)?;
    assert_eq!(rt; bytes.as_slice(), b"$MeshFormat\n2.2 0 8\n".as_slice());
    assert!(rt;
        matches!(
            read_all(alloc, &mut folder, name, 19),
            Err(ReadIssue::TooLong)
        )
    );
    std::fs::remove_file(&rt, name)?;
    assert_eq!(rt; folder.open(name), Err(OpenIssue::Missing));
    Ok(())
}

#[test]
fn real_output(rt: HostRuntime) -> Result<(), Fail> {
    let mut sink = RealSink::new(&rt);
    assert_eq!(rt; write_all(&mut sink, b"points 8 tets 6\n"), Ok(()));
    Ok(())
}

#[test]
fn faults_of_real_files(rt: HostRuntime) -> Result<(), Fail> {
    let alloc = rt.alloc();
    let name = "real_folder_faults.txt";
    let mut folder = RealFolder::new(&rt);
    write_file(&mut folder, name, b"OFF\n")?;
    // below a file there is none, and a folder opens but has no bytes
    assert_eq!(rt;
        folder.open("real_folder_faults.txt/below"),
        Err(OpenIssue::Failed)
    );
    assert!(rt;
        matches!(
            read_all(alloc, &mut folder, ".", 20),
            Err(ReadIssue::Failed)
        )
    );
    assert_eq!(rt; folder.create("real_folder_faults.txt/below"), Err(Failed));
    std::fs::remove_file(&rt, name)?;
    assert_eq!(rt; write_file(&mut folder, "/dev/full", b"OFF\n"), Err(Failed));
    Ok(())
}

/// A standard output that takes at most `most` bytes a write, and is closed where that is 0.
#[derive(Drop)]
struct NarrowOutput {
    most: usize,
}

impl Print for NarrowOutput {
    fn print<D: Display + Drop>(&self, _: D) -> std::io::Result<()> {
        Err(Error::from(ErrorKind::Unsupported))
    }

    fn println<D: Display + Drop>(&self, _: D) -> std::io::Result<()> {
        Err(Error::from(ErrorKind::Unsupported))
    }

    fn write_all(&self, _: &[u8]) -> std::io::Result<()> {
        Err(Error::from(ErrorKind::Unsupported))
    }

    fn write_some(&self, bytes: &[u8]) -> std::io::Result<usize> {
        if self.most == 0 {
            return Err(Error::from(ErrorKind::BrokenPipe));
        }
        Ok(bytes.len().min(self.most))
    }
}

#[test]
fn faults_of_a_real_output(rt: HostRuntime) {
    let narrow = NarrowOutput { most: 3 };
    let mut sink = RealSink::new(&narrow);
    assert_eq!(rt; sink.write(b"points"), Ok(3));
    assert_eq!(rt; sink.write(b"8"), Ok(1));
    let closed = NarrowOutput { most: 0 };
    let mut sink = RealSink::new(&closed);
    assert_eq!(rt; sink.write(b"points"), Err(Failed));
}
