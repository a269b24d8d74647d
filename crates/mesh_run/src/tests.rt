// Whole runs over folders in memory.
ghost use Rattle.std.specs.Prelude.{◌<◌, IfOk};
ghost use Rattle.mesh_io.specs.MemFiles.{AllNamesDiffer};

use crate::run;
use items::{Items, Text};
use mesh_io::{CallKind, MemFail, MemFile, MemFolder, MemSink};
use std::alloc::{AllocError, Global};
use std::process::Abort;
use std::test::Fail;

const EMPTY: &[u8] = b"OFF\n0 0 0\n";

const MESH: &[u8] =
    b"$MeshFormat\n2.2 0 8\n$EndMeshFormat\n$PhysicalNames\n3\n2 3 \"tracked\"\n3 1 \"kept\"\n3 2 \"outside\"\n$EndPhysicalNames\n$Nodes\n8\n1 0 0 0\n2 16 0 0\n3 0 16 0\n4 16 16 0\n5 0 0 16\n6 16 0 16\n7 0 16 16\n8 16 16 16\n$EndNodes\n$Elements\n6\n1 4 2 2 2 1 2 4 8\n2 4 2 2 2 1 6 2 8\n3 4 2 2 2 1 4 3 8\n4 4 2 2 2 1 3 7 8\n5 4 2 2 2 1 5 6 8\n6 4 2 2 2 1 7 5 8\n$EndElements\n";

const REPORT: &[u8] =
    b"tetsoup report 1\nepsilon 2\ncells 1\nbudget 0\nbox 16\nshift 0 0 0\ntriangles 0\ntries 0\nend stopped\ntracked 0\n";

const MOVED_MESH: &[u8] =
    b"$MeshFormat\n2.2 0 8\n$EndMeshFormat\n$PhysicalNames\n3\n2 3 \"tracked\"\n3 1 \"kept\"\n3 2 \"outside\"\n$EndPhysicalNames\n$Nodes\n8\n1 92 -15 -8\n2 108 -15 -8\n3 92 1 -8\n4 108 1 -8\n5 92 -15 8\n6 108 -15 8\n7 92 1 8\n8 108 1 8\n$EndNodes\n$Elements\n6\n1 4 2 2 2 1 2 4 8\n2 4 2 2 2 1 6 2 8\n3 4 2 2 2 1 4 3 8\n4 4 2 2 2 1 3 7 8\n5 4 2 2 2 1 5 6 8\n6 4 2 2 2 1 7 5 8\n$EndElements\n";

const MOVED_REPORT: &[u8] =
    b"tetsoup report 1\nepsilon 2\ncells 1\nbudget 0\nbox 16\nshift 92 -15 -8\ntriangles 0\ntries 0\nend stopped\ntracked 0\n";

const WIDER_MESH: &[u8] =
    b"$MeshFormat\n2.2 0 8\n$EndMeshFormat\n$PhysicalNames\n3\n2 3 \"tracked\"\n3 1 \"kept\"\n3 2 \"outside\"\n$EndPhysicalNames\n$Nodes\n8\n1 0 0 0\n2 32 0 0\n3 0 32 0\n4 32 32 0\n5 0 0 32\n6 32 0 32\n7 0 32 32\n8 32 32 32\n$EndNodes\n$Elements\n6\n1 4 2 2 2 1 2 4 8\n2 4 2 2 2 1 6 2 8\n3 4 2 2 2 1 4 3 8\n4 4 2 2 2 1 3 7 8\n5 4 2 2 2 1 5 6 8\n6 4 2 2 2 1 7 5 8\n$EndElements\n";

const WIDER_REPORT: &[u8] =
    b"tetsoup report 1\nepsilon 7\ncells 1\nbudget 0\nbox 32\nshift 0 0 0\ntriangles 0\ntries 0\nend stopped\ntracked 0\n";

const WIDE_REPORT: &[u8] =
    b"tetsoup report 1\nepsilon 2\ncells 4\nbudget 0\nbox 262144\nshift -4 -131072 -131072\ntriangles 0\ntries 0\nend stopped\ntracked 0\n";

const LINE: &[u8] =
    b"points 8 tets 6 tracked 0 kept 0 inserted 0 rolled-back 0 tries 0 end stopped\n";

const WORDS: [&str; 8] = [
    "mesh", "IN.off", "OUT.msh", "REPORT", "--cells", "1", "--budget", "0",
];

fn one_file(alloc: Global, name: &str, bytes: &[u8]) -> Result<Vec<MemFile>, AllocError>
    ensures { IfOk result (λ files. AllNamesDiffer files.items) }
{
    let name = Text::from_string(String::from_str(alloc, name)?);
    let bytes = Items::from_slice(alloc, bytes)?;
    let mut files = Vec::new(alloc);
    files.push(MemFile { name, bytes })?;
    Ok(files)
}

fn one_fail(alloc: Global, kind: CallKind, nth: u32) -> Result<Vec<MemFail>, AllocError> {
    let mut fails = Vec::new(alloc);
    fails.push(MemFail { kind, nth })?;
    Ok(fails)
}

/// What a run over a folder with one input answers and leaves.
#[derive(Drop)]
struct Left {
    status: u8,
    folder: MemFolder,
    out: MemSink,
}

fn ran(
    alloc: Global,
    words: &[&str],
    input: &[u8],
    fails: Vec<MemFail>,
    chunk: usize,
) -> Result<Left, AllocError>
    requires { 0 < chunk }
{
    let files = one_file(alloc, "IN.off", input)?;
    let mut folder = MemFolder::new(alloc, files, fails, chunk);
    let mut out = MemSink::new(alloc, Vec::new(alloc));
    let status = run(alloc, words, &mut folder, &mut out);
    Ok(Left {
        status,
        folder,
        out,
    })
}

/// Nothing was created, and that was the answer.
fn assert_refused(rt: &impl Abort, ran: &Left, status: u8, line: &[u8]) {
    assert_eq!(rt; ran.status, status);
    assert_eq!(rt; ran.out.bytes(), line);
    assert!(rt; ran.folder.bytes("OUT.msh").is_none());
    assert!(rt; ran.folder.bytes("REPORT").is_none());
}

#[test]
fn meshes_a_file_without_faces(rt: HostRuntime) -> Result<(), Fail> {
    let alloc = rt.alloc();
    let ran = ran(alloc, &WORDS, EMPTY, Vec::new(alloc), 4096)?;
    assert_eq!(rt; ran.status, 0);
    assert_eq!(rt; ran.out.bytes(), LINE);
    assert_eq!(rt; ran.folder.bytes("OUT.msh").ok_or("a mesh")?, MESH);
    assert_eq!(rt; ran.folder.bytes("REPORT").ok_or("a report")?, REPORT);
    assert_eq!(rt; ran.folder.bytes("IN.off").ok_or("the input")?, EMPTY);
    Ok(())
}

#[test]
fn third_write_fails(rt: HostRuntime) -> Result<(), Fail> {
    let alloc = rt.alloc();
    let fails = one_fail(alloc, CallKind::Write, 3)?;
    let ran = ran(alloc, &WORDS, EMPTY, fails, 10)?;
    assert_eq!(rt; ran.status, 5);
    assert_eq!(rt;
        ran.folder.bytes("OUT.msh").ok_or("a mesh")?,
        b"$MeshFormat\n2.2 0 8\n".as_slice()
    );
    assert!(rt; ran.folder.bytes("REPORT").is_none());
    assert_eq!(rt;
        ran.out.bytes(),
        b"tetsoup: OUT.msh: write failed\n".as_slice()
    );
    Ok(())
}

#[test]
fn first_read_fails(rt: HostRuntime) -> Result<(), Fail> {
    let alloc = rt.alloc();
    let fails = one_fail(alloc, CallKind::Read, 1)?;
    let ran = ran(alloc, &WORDS, EMPTY, fails, 10)?;
    assert_refused(&rt, &ran, 4, b"tetsoup: IN.off: read failed\n");
    Ok(())
}

#[test]
fn input_is_not_there(rt: HostRuntime) -> Result<(), Fail> {
    let alloc = rt.alloc();
    let mut folder = MemFolder::new(alloc, Vec::new(alloc), Vec::new(alloc), 10);
    let mut out = MemSink::new(alloc, Vec::new(alloc));
    assert_eq!(rt; run(alloc, &WORDS, &mut folder, &mut out), 4);
    assert_eq!(rt; out.bytes(), b"tetsoup: IN.off: no such file\n".as_slice());
    assert!(rt; folder.bytes("OUT.msh").is_none());
    Ok(())
}

#[test]
fn create_fails(rt: HostRuntime) -> Result<(), Fail> {
    let alloc = rt.alloc();
    let fails = one_fail(alloc, CallKind::Create, 2)?;
    let ran = ran(alloc, &WORDS, EMPTY, fails, 4096)?;
    assert_eq!(rt; ran.status, 5);
    assert_eq!(rt; ran.folder.bytes("OUT.msh").ok_or("a mesh")?, MESH);
    assert!(rt; ran.folder.bytes("REPORT").is_none());
    assert_eq!(rt;
        ran.out.bytes(),
        b"tetsoup: REPORT: write failed\n".as_slice()
    );
    Ok(())
}

#[test]
fn output_fails(rt: HostRuntime) -> Result<(), Fail> {
    let alloc = rt.alloc();
    let files = one_file(alloc, "IN.off", EMPTY)?;
    let mut folder = MemFolder::new(alloc, files, Vec::new(alloc), 4096);
    let mut fails = Vec::new(alloc);
    fails.push(1)?;
    let mut out = MemSink::new(alloc, fails);
    assert_eq!(rt; run(alloc, &WORDS, &mut folder, &mut out), 5);
    assert_eq!(rt; out.bytes().len(), 0);
    assert_eq!(rt; folder.bytes("OUT.msh").ok_or("a mesh")?, MESH);
    assert_eq!(rt; folder.bytes("REPORT").ok_or("a report")?, REPORT);
    Ok(())
}

const REFUSED_WORDS: [(&[&str], &[u8]); 8] = [
    (&[], b"tetsoup: words: no command\n"),
    (
        &["replay", "IN.off", "OUT.msh", "REPORT"],
        b"tetsoup: words: unknown command\n",
    ),
    (
        &["demo", "0", "1", "a.off", "b.msh", "r"],
        b"tetsoup: words: K must be 1 to 64\n",
    ),
    (
        &["mesh", "IN.off", "OUT.msh"],
        b"tetsoup: words: bad words\n",
    ),
    (
        &["mesh", "IN.off", "OUT.msh", "REPORT", "--digits", "6"],
        b"tetsoup: words: digits must be 0 to 5\n",
    ),
    (
        &["mesh", "IN.off", "OUT.msh", "REPORT", "--epsilon=0"],
        b"tetsoup: words: epsilon must be 1 to 4095\n",
    ),
    (
        &["mesh", "IN.off", "OUT.msh", "REPORT", "--cells", "3"],
        b"tetsoup: words: cells must be 1, 2, 4, 8, 16 or 32\n",
    ),
    (
        &["mesh", "IN.off", "IN.off", "REPORT"],
        b"tetsoup: words: two names are equal\n",
    ),
];

#[test]
fn words_are_refused(rt: HostRuntime) -> Result<(), Fail> {
    let alloc = rt.alloc();
    for (words, line) in REFUSED_WORDS {
        let ran = ran(alloc, words, EMPTY, Vec::new(alloc), 4096)?;
        assert_refused(&rt, &ran, 2, line);
    }
    Ok(())
}

const REFUSED_INPUTS: [(&[u8], &[u8]); 6] = [
    (
        b"OFF\n3 1 0\n0 0 0\n1 0 0\n0 1 0\n3 0 1",
        b"tetsoup: input: byte 33: ended early\n",
    ),
    (
        b"OFF\n3 1 0\n0 0 0\n1 0 0\n0 1 0\n3 0 1 3\n",
        b"tetsoup: input: byte 34: no such vertex\n",
    ),
    (
        b"COFF\n0 0 0\n",
        b"tetsoup: input: byte 0: another OFF variant\n",
    ),
    (
        b"OFF\n1 0 0\n0.5 0 0\n",
        b"tetsoup: input: byte 10: not a whole number\n",
    ),
    (
        b"OFF\n2 0 0\n0 0 0\n262137 0 0\n",
        b"tetsoup: input: extent 262137 is too wide\n",
    ),
    (
        b"OFF\n3 1 0\n0 0 0\n900000 0 0\n0 1 0\n3 0 1 2\n",
        b"tetsoup: input: extent 900000 is too wide\n",
    ),
];

#[test]
fn inputs_are_refused(rt: HostRuntime) -> Result<(), Fail> {
    let alloc = rt.alloc();
    for (input, line) in REFUSED_INPUTS {
        let ran = ran(alloc, &WORDS, input, Vec::new(alloc), 4096)?;
        assert_refused(&rt, &ran, 3, line);
    }
    Ok(())
}

#[test]
fn box_stands_round_the_vertices(rt: HostRuntime) -> Result<(), Fail> {
    let alloc = rt.alloc();
    let ran = ran(
        alloc,
        &WORDS,
        b"OFF\n1 0 0\n100 -7 0\n",
        Vec::new(alloc),
        4096,
    )?;
    assert_eq!(rt; ran.status, 0);
    assert_eq!(rt; ran.folder.bytes("OUT.msh").ok_or("a mesh")?, MOVED_MESH);
    assert_eq!(rt; ran.folder.bytes("REPORT").ok_or("a report")?, MOVED_REPORT);
    Ok(())
}

#[test]
fn widest_box(rt: HostRuntime) -> Result<(), Fail> {
    let alloc = rt.alloc();
    let input = b"OFF\n2 0 0\n0 0 0\n262136 0 0\n";
    let mut words = WORDS;
    words[5] = "4";
    let ran = ran(alloc, &words, input, Vec::new(alloc), 4096)?;
    assert_eq!(rt; ran.status, 0);
    assert_eq!(rt; ran.folder.bytes("REPORT").ok_or("a report")?, WIDE_REPORT);
    Ok(())
}

#[test]
fn epsilon_widens_the_box(rt: HostRuntime) -> Result<(), Fail> {
    let alloc = rt.alloc();
    let mut words = [""; 10];
    words[..8].copy_from_slice(&WORDS);
    words[8] = "--epsilon";
    words[9] = "6";
    let six = ran(alloc, &words, EMPTY, Vec::new(alloc), 4096)?;
    assert_eq!(rt; six.folder.bytes("OUT.msh").ok_or("a mesh")?, MESH);
    words[9] = "007";
    let seven = ran(alloc, &words, EMPTY, Vec::new(alloc), 4096)?;
    let mesh = seven.folder.bytes("OUT.msh").ok_or("a mesh")?;
    assert_eq!(rt; mesh, WIDER_MESH);
    assert_eq!(rt;
        seven.folder.bytes("REPORT").ok_or("a report")?,
        WIDER_REPORT
    );
    Ok(())
}

const TRIES: &[u8] =
    b"tetsoup report 1\nepsilon 2\ncells 1\nbudget 2\nbox 16\nshift 0 0 0\ntriangles 0\ntries 2\nsplit 1 2 refused worse\nsplit 1 3 refused worse\nend stopped\ntracked 0\n";

#[test]
fn tries_of_a_cube(rt: HostRuntime) -> Result<(), Fail> {
    let alloc = rt.alloc();
    let mut words = WORDS;
    words[7] = "2";
    let ran = ran(alloc, &words, EMPTY, Vec::new(alloc), 4096)?;
    assert_eq!(rt; ran.status, 0);
    assert_eq!(rt; ran.folder.bytes("REPORT").ok_or("a report")?, TRIES);
    assert_eq!(rt;
        ran.out.bytes(),
        b"points 8 tets 6 tracked 0 kept 0 inserted 0 rolled-back 0 tries 2 end stopped\n".as_slice()
    );
    Ok(())
}

#[test]
fn eight_cubes(rt: HostRuntime) -> Result<(), Fail> {
    let alloc = rt.alloc();
    let mut words = WORDS;
    words[5] = "2";
    let ran = ran(alloc, &words, EMPTY, Vec::new(alloc), 4096)?;
    assert_eq!(rt; ran.status, 0);
    assert_eq!(rt;
        ran.out.bytes(),
        b"points 27 tets 48 tracked 0 kept 0 inserted 0 rolled-back 0 tries 0 end stopped\n".as_slice()
    );
    Ok(())
}

mod checks;
mod demos;
mod surfaces;
