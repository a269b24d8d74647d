//! Files that are checked: what `mesh` wrote, and the same with something changed.
use super::surfaces::{CUBE, contains};
use super::{EMPTY, Left, MESH, REPORT, one_file, ran};
use crate::run;
use mesh_io::{MemFolder, MemSink, write_file};
use std::alloc::{AllocError, Global};
use std::test::Fail;

const CHECK: [&str; 4] = ["check", "IN.off", "OUT.msh", "REPORT"];

/// A check of an input, a mesh text and a report.
fn checked(
    alloc: Global,
    words: &[&str],
    input: &[u8],
    mesh: &[u8],
    report: &[u8],
) -> Result<Left, AllocError> {
    let files = one_file(alloc, "IN.off", input)?;
    let mut folder = MemFolder::new(alloc, files, Vec::new(alloc), 4096);
    let mut out = MemSink::new(alloc, Vec::new(alloc));
    let _ = write_file(&mut folder, "OUT.msh", mesh);
    let _ = write_file(&mut folder, "REPORT", report);
    let status = run(alloc, words, &mut folder, &mut out);
    Ok(Left {
        status,
        folder,
        out,
    })
}

/// The text with the first occurrence of a part replaced.
fn replace_part(alloc: Global, text: &[u8], part: &[u8], by: &[u8]) -> Result<Vec<u8>, AllocError> {
    let mut out = Vec::new(alloc);
    for i in 0..text.len() {
        if let Some(rest) = text[i..].strip_prefix(part) {
            out.extend_from_slice(by)?;
            out.extend_from_slice(rest)?;
            return Ok(out);
        }
        out.push(text[i])?;
    }
    Ok(out)
}

/// What is changed in the mesh text and in the report of the box without triangles, and what is answered.
struct Change {
    mesh: (&'static [u8], &'static [u8]),
    report: (&'static [u8], &'static [u8]),
    status: u8,
    line: &'static [u8],
}

const CHANGES: [Change; 7] = [
    Change {
        mesh: (b"", b""),
        report: (b"", b""),
        status: 0,
        line: b"good\n",
    },
    Change {
        mesh: (b"2 1 2 4 8\n", b"2 1 2 8 4\n"),
        report: (b"", b""),
        status: 1,
        line: b"bad not-positive 1\n",
    },
    Change {
        mesh: (b"2 1 6 2 8\n", b"2 1 2 4 8\n"),
        report: (b"", b""),
        status: 1,
        line: b"bad twice 1 4 2\n",
    },
    Change {
        mesh: (b"1 4 2 2 2 1 2", b"1 4 2 1 1 1 2"),
        report: (b"", b""),
        status: 1,
        line: b"bad region 1\n",
    },
    Change {
        mesh: (b"", b""),
        report: (b"box 16", b"box 32"),
        status: 1,
        line: b"bad header\n",
    },
    Change {
        mesh: (b"$EndElements\n", b""),
        report: (b"", b""),
        status: 3,
        line: b"tetsoup: mesh: line 29\n",
    },
    Change {
        mesh: (b"", b""),
        report: (b"epsilon 2", b"epsilon 02"),
        status: 3,
        line: b"tetsoup: report: line 2\n",
    },
];

#[test]
fn changes_are_found(rt: HostRuntime) -> Result<(), Fail> {
    let alloc = rt.alloc();
    for change in &CHANGES {
        let mesh = replace_part(alloc, MESH, change.mesh.0, change.mesh.1)?;
        let report = replace_part(alloc, REPORT, change.report.0, change.report.1)?;
        let ran = checked(alloc, &CHECK, EMPTY, &mesh, &report)?;
        assert_eq!(rt; ran.status, change.status);
        assert_eq!(rt; ran.out.bytes(), change.line);
        assert_eq!(rt;
            ran.folder.bytes("OUT.msh").ok_or("a mesh")?,
            mesh.as_slice()
        );
    }
    Ok(())
}

#[test]
fn missing_mesh(rt: HostRuntime) -> Result<(), Fail> {
    let alloc = rt.alloc();
    let ran = ran(alloc, &CHECK, EMPTY, Vec::new(alloc), 4096)?;
    assert_eq!(rt; ran.status, 4);
    assert_eq!(rt;
        ran.out.bytes(),
        b"tetsoup: OUT.msh: no such file\n".as_slice()
    );
    Ok(())
}

/// A cube whose sides are 0.75, 0.8 and their like, so 8 units of a tenth.
const DECIMAL_CUBE: &[u8] =
    b"OFF\n8 6 0\n0 0 0\n0.75 0 0\n0 8e-1 0\n.8 0.8 0\n0 0 0.8\n8e-1 0 .8\n0 0.75 0.8\n0.8 .8 8e-1\n4 0 1 3 2\n4 4 5 7 6\n4 0 2 6 4\n4 1 3 7 5\n4 0 1 5 4\n4 2 3 7 6\n";

const DECIMAL_CHECK: [&str; 6] = ["check", "IN.off", "OUT.msh", "REPORT", "--digits", "1"];

#[test]
fn decimals_are_units(rt: HostRuntime) -> Result<(), Fail> {
    let alloc = rt.alloc();
    let words = [
        "mesh", "IN.off", "OUT.msh", "REPORT", "--digits", "1", "--budget", "0",
    ];
    let made = ran(alloc, &words, DECIMAL_CUBE, Vec::new(alloc), 4096)?;
    assert_eq!(rt; made.status, 0);
    assert_eq!(rt;
        made.out.bytes(),
        b"points 125 tets 384 tracked 48 kept 48 inserted 12 rolled-back 0 tries 0 end stopped\n".as_slice()
    );
    let mesh = made.folder.bytes("OUT.msh").ok_or("a mesh")?;
    let report = made.folder.bytes("REPORT").ok_or("a report")?;
    assert!(rt; contains(mesh, b"\n1 -0.4 -0.4 -0.4\n2 0.0 -0.4 -0.4\n"));
    assert!(rt; contains(report, b"\nbudget 0\ndigits 1\nbox 16\n"));
    let good = checked(alloc, &DECIMAL_CHECK, DECIMAL_CUBE, mesh, report)?;
    assert_eq!(rt; good.out.bytes(), b"good\n".as_slice());
    let other = replace_part(alloc, report, b"digits 1", b"digits 2")?;
    let bad = checked(alloc, &DECIMAL_CHECK, DECIMAL_CUBE, mesh, &other)?;
    assert_eq!(rt; bad.status, 1);
    assert_eq!(rt; bad.out.bytes(), b"bad header\n".as_slice());
    Ok(())
}

/// An input, the cells and the budget, and the line that is printed.
const GOOD: [(&[u8], &str, &str, &[u8]); 2] = [
    (
        CUBE,
        "4",
        "0",
        b"points 125 tets 384 tracked 48 kept 48 inserted 12 rolled-back 0 tries 0 end stopped\n",
    ),
    // Another program with the same rules settles after so many tries.
    (
        EMPTY,
        "1",
        "100000",
        b"points 15 tets 24 tracked 0 kept 0 inserted 0 rolled-back 0 tries 391 end settled\n",
    ),
];

#[test]
fn written_files_are_good(rt: HostRuntime) -> Result<(), Fail> {
    let alloc = rt.alloc();
    for (input, cells, budget, line) in GOOD {
        let words = [
            "mesh", "IN.off", "OUT.msh", "REPORT", "--cells", cells, "--budget", budget,
        ];
        let made = ran(alloc, &words, input, Vec::new(alloc), 4096)?;
        assert_eq!(rt; made.out.bytes(), line);
        let mesh = made.folder.bytes("OUT.msh").ok_or("a mesh")?;
        let report = made.folder.bytes("REPORT").ok_or("a report")?;
        let good = checked(alloc, &CHECK, input, mesh, report)?;
        assert_eq!(rt; good.status, 0);
        assert_eq!(rt; good.out.bytes(), b"good\n".as_slice());
    }
    Ok(())
}
