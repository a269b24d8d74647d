// The box and its report, and faults in them.
ghost use Rattle.std.specs.Prelude.{IfOk};
ghost use Rattle.cert_check.specs.Conditions.{IsPlaced};

use crate::{Fault, Finding, verify};
use grid::{Face, Memory, Point, Tri};
use items::Items;
use msh_text::read_msh;
use report_text::read_report;
use soup::Soup;
use std::alloc::Global;
use std::test::Fail;

const HEAD: &[u8] =
    b"$MeshFormat\n2.2 0 8\n$EndMeshFormat\n$PhysicalNames\n3\n2 3 \"tracked\"\n3 1 \"kept\"\n3 2 \"outside\"\n$EndPhysicalNames\n$Nodes\n8\n1 0 0 0\n2 16 0 0\n3 0 16 0\n4 16 16 0\n5 0 0 16\n6 16 0 16\n7 0 16 16\n8 16 16 16\n$EndNodes\n$Elements\n6\n";

const TAIL: &[u8] =
    b"3 4 2 2 2 1 4 3 8\n4 4 2 2 2 1 3 7 8\n5 4 2 2 2 1 5 6 8\n6 4 2 2 2 1 7 5 8\n$EndElements\n";

const FIRST: &[u8] = b"1 4 2 2 2 1 2 4 8\n2 4 2 2 2 1 6 2 8\n";

const REPORT: &[u8] =
    b"tetsoup report 1\nepsilon 2\ncells 1\nbudget 0\nbox 16\nshift 0 0 0\ntriangles 0\ntries 0\nend stopped\ntracked 0\n";

// A box of side 16 at the origin, with two triangles whose corners are all at the origin, or none.
fn soup(alloc: Global, is_empty: bool) -> Result<Soup, Memory>
    ensures { IfOk result IsPlaced }
{
    let origin = Point { x: 0, y: 0, z: 0 };
    let triangle = Tri([origin, origin, origin]);
    let mut triangles = Items::new(alloc);
    if !is_empty {
        triangles.push(triangle)?;
        triangles.push(triangle)?;
    }
    Ok(Soup {
        triangles,
        side: 16,
        shift: [0, 0, 0],
    })
}

// What is found in the box of six tetrahedra, the first two of which are given. None where a text
// is not one.
fn found(
    alloc: Global,
    soup: &Soup,
    elements: &[u8],
    report: &[u8],
    digits: Option<u32>,
) -> Result<Option<Finding>, Memory>
    requires { IsPlaced soup.now }
{
    let mut text = Vec::new(alloc);
    text.extend_from_slice(HEAD)?;
    text.extend_from_slice(elements)?;
    text.extend_from_slice(TAIL)?;
    let Ok(mesh) = read_msh(alloc, &text, 0) else {
        return Ok(None);
    };
    let Ok(report) = read_report(alloc, report) else {
        return Ok(None);
    };
    let finding = verify(alloc, soup, &mesh, &report, digits)?;
    Ok(Some(finding))
}

#[test]
fn the_box_and_faults_in_it(rt: HostRuntime) -> Result<(), Fail> {
    let alloc = rt.alloc();
    let soup = soup(alloc, true)?;
    let good = found(alloc, &soup, FIRST, REPORT, None)?;
    assert_eq!(rt; good, Some(Finding::Good));
    let turned: &[u8] = b"1 4 2 2 2 1 2 8 4\n2 4 2 2 2 1 6 2 8\n";
    let bad = found(alloc, &soup, turned, REPORT, None)?;
    assert_eq!(rt; bad, Some(Finding::Bad(Fault::NotPositive(1))));
    let doubled: &[u8] = b"1 4 2 2 2 1 2 4 8\n2 4 2 2 2 1 2 4 8\n";
    let bad = found(alloc, &soup, doubled, REPORT, None)?;
    assert_eq!(rt; bad, Some(Finding::Bad(Fault::Twice(Face([1, 4, 2])))));
    let kept: &[u8] = b"1 4 2 1 1 1 2 4 8\n2 4 2 2 2 1 6 2 8\n";
    let bad = found(alloc, &soup, kept, REPORT, None)?;
    assert_eq!(rt; bad, Some(Finding::Bad(Fault::Region(1))));
    Ok(())
}

#[test]
fn digits_are_given_or_not(rt: HostRuntime) -> Result<(), Fail> {
    let alloc = rt.alloc();
    let soup = soup(alloc, true)?;
    let bad = found(alloc, &soup, FIRST, REPORT, Some(0))?;
    assert_eq!(rt; bad, Some(Finding::Bad(Fault::Header)));
    Ok(())
}

#[test]
fn the_second_part_has_those_rolled_back(rt: HostRuntime) -> Result<(), Fail> {
    let alloc = rt.alloc();
    let soup = soup(alloc, false)?;
    let right: &[u8] =
        b"tetsoup report 1\nepsilon 2\ncells 1\nbudget 0\nbox 16\nshift 0 0 0\ntriangles 2\nt 0 inserted 0\nt 1 rolled-back degenerate\ntries 0\nend stopped\nsecond 1\nt 1 rolled-back degenerate\ntries 0\nend stopped\ntracked 0\n";
    let good = found(alloc, &soup, FIRST, right, None)?;
    assert_eq!(rt; good, Some(Finding::Good));
    let wrong: &[u8] =
        b"tetsoup report 1\nepsilon 2\ncells 1\nbudget 0\nbox 16\nshift 0 0 0\ntriangles 2\nt 0 inserted 0\nt 1 rolled-back degenerate\ntries 0\nend stopped\nsecond 1\nt 0 rolled-back degenerate\ntries 0\nend stopped\ntracked 0\n";
    let bad = found(alloc, &soup, FIRST, wrong, None)?;
    assert_eq!(rt; bad, Some(Finding::Bad(Fault::TriangleLines(2))));
    let none = found(alloc, &soup, FIRST, REPORT, None)?;
    assert_eq!(rt; none, Some(Finding::Bad(Fault::TriangleLines(0))));
    Ok(())
}
