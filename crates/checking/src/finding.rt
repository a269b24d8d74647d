// The line that tells what was found.
ghost use Rattle.std.specs.Prelude.{◌≡◌, ◌++◌, IfOk, OnOk};
ghost use Rattle.checking.specs.Lines.{face_text, fault_text, finding_line, finding_status, number_text};

use cert_check::{Fault, Finding};
use grid::{Face, Memory};
use itoa::Buffer;
use printing::status;
use std::alloc::Global;
use texts::{put, put_number};

// A number behind the name of a fault.
fn put_place(out: &mut Vec<u8>, name: &[u8], n: u32) -> Result<(), Memory>
    ensures { OnOk result (out.new.items ≡ out.old.items ++ number_text name.now n) }
{
    put(out, name)?;
    put_number(out, u64::from(n))
}

// The corners of a face behind the name of a fault.
fn put_face(out: &mut Vec<u8>, name: &[u8], face: Face) -> Result<(), Memory>
    ensures { OnOk result (out.new.items ≡ out.old.items ++ face_text name.now face.0) }
{
    let Face([a, b, c]) = face;
    put_place(out, name, a)?;
    put_place(out, b" ", b)?;
    put_place(out, b" ", c)
}

fn put_volume(out: &mut Vec<u8>, sum: i128) -> Result<(), Memory>
    ensures { OnOk result (out.new.items ≡ out.old.items ++ fault_text (Fault.Volume sum)) }
{
    let mut buffer = Buffer::new();
    put(out, b"volume ")?;
    put(out, buffer.format(sum).as_bytes())
}

fn put_fault(out: &mut Vec<u8>, fault: Fault) -> Result<(), Memory>
    ensures { OnOk result (out.new.items ≡ out.old.items ++ fault_text fault) }
{
    match fault {
        Fault::Header => put(out, b"header"),
        Fault::NotInBox(n) => put_place(out, b"not-in-box ", n),
        Fault::NotPositive(n) => put_place(out, b"not-positive ", n),
        Fault::Twice(face) => put_face(out, b"twice ", face),
        Fault::Loose(face) => put_face(out, b"loose ", face),
        Fault::Volume(sum) => put_volume(out, sum),
        Fault::NotAFace(n) => put_place(out, b"not-a-face ", n),
        Fault::NotCovered(n) => put_place(out, b"not-covered ", n),
        Fault::Region(n) => put_place(out, b"region ", n),
        Fault::TriangleLines(n) => put_place(out, b"triangle-lines ", n),
    }
}

fn put_bad(out: &mut Vec<u8>, fault: Fault) -> Result<(), Memory>
    ensures { OnOk result (out.new.items ≡ out.old.items ++ finding_line (Finding.Bad fault)) }
{
    put(out, b"bad ")?;
    put_fault(out, fault)?;
    put(out, b"\n")
}

/// The line of a finding.
pub fn line_of(alloc: Global, finding: Finding) -> Result<Vec<u8>, Memory>
    ensures { IfOk result (λ line. line.items ≡ finding_line finding) }
{
    let mut out = Vec::new(alloc);
    match finding {
        Finding::Good => put(&mut out, b"good\n")?,
        Finding::Bad(fault) => put_bad(&mut out, fault)?,
    }
    Ok(out)
}

/// The status of a finding.
pub fn status_of(finding: Finding) -> u8
    ensures { result ≡ finding_status finding }
{
    match finding {
        Finding::Good => status::DONE,
        Finding::Bad(_) => status::FAULT,
    }
}
