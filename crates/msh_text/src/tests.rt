// Mesh texts, written and read.
use crate::{MshIssue, msh_of, read_msh, write_kept, write_msh};
use grid::{Face, Point, Tet};
use items::Items;
use mesh_types::Lists;
use std::test::Fail;

// The corners of a box of side 16.
const CORNERS: [Point; 8] = [
    Point { x: 0, y: 0, z: 0 },
    Point { x: 16, y: 0, z: 0 },
    Point { x: 0, y: 16, z: 0 },
    Point { x: 16, y: 16, z: 0 },
    Point { x: 0, y: 0, z: 16 },
    Point { x: 16, y: 0, z: 16 },
    Point { x: 0, y: 16, z: 16 },
    Point {
        x: 16,
        y: 16,
        z: 16,
    },
];

#[test]
#[tactic(auto, unfolding(crate::specs::FileMesh::msh_of))]
fn one_cube_outside(rt: HostRuntime) -> Result<(), Fail> {
    let alloc = rt.alloc();
    let tets = [
        Tet([0, 1, 3, 7]),
        Tet([0, 5, 1, 7]),
        Tet([0, 3, 2, 7]),
        Tet([0, 2, 6, 7]),
        Tet([0, 4, 5, 7]),
        Tet([0, 6, 4, 7]),
    ];
    let mesh = Lists {
        points: Items::from_slice(alloc, &CORNERS)?,
        tets: Items::from_slice(alloc, &tets)?,
        tracked: Items::new(alloc),
        made: 6,
    };
    let file = msh_of(alloc, &mesh, &[true; 6], [0, 0, 0], 0)?;
    let text = write_msh(alloc, &file)?;
    let wanted =
        b"$MeshFormat\n2.2 0 8\n$EndMeshFormat\n$PhysicalNames\n3\n2 3 \"tracked\"\n3 1 \"kept\"\n3 2 \"outside\"\n$EndPhysicalNames\n$Nodes\n8\n1 0 0 0\n2 16 0 0\n3 0 16 0\n4 16 16 0\n5 0 0 16\n6 16 0 16\n7 0 16 16\n8 16 16 16\n$EndNodes\n$Elements\n6\n1 4 2 2 2 1 2 4 8\n2 4 2 2 2 1 6 2 8\n3 4 2 2 2 1 4 3 8\n4 4 2 2 2 1 3 7 8\n5 4 2 2 2 1 5 6 8\n6 4 2 2 2 1 7 5 8\n$EndElements\n";
    assert_eq!(rt; text.as_slice(), wanted.as_slice());
    Ok(())
}

// Point 2 is a corner of no tetrahedron.
#[test]
#[tactic(auto, unfolding(crate::specs::FileMesh::msh_of))]
fn kept_and_tracked(rt: HostRuntime) -> Result<(), Fail> {
    let alloc = rt.alloc();
    let mesh = Lists {
        points: Items::from_slice(alloc, &CORNERS)?,
        tets: Items::from_slice(alloc, &[Tet([0, 1, 3, 7]), Tet([0, 4, 5, 7])])?,
        tracked: Items::from_slice(alloc, &[Face([0, 1, 7]), Face([0, 3, 7])])?,
        made: 2,
    };
    let file = msh_of(alloc, &mesh, &[false, true], [-20, 5, 1000000000], 0)?;
    let text = write_msh(alloc, &file)?;
    let wanted =
        b"$MeshFormat\n2.2 0 8\n$EndMeshFormat\n$PhysicalNames\n3\n2 3 \"tracked\"\n3 1 \"kept\"\n3 2 \"outside\"\n$EndPhysicalNames\n$Nodes\n6\n1 -20 5 1000000000\n2 -4 5 1000000000\n4 -4 21 1000000000\n5 -20 5 1000000016\n6 -4 5 1000000016\n8 -4 21 1000000016\n$EndNodes\n$Elements\n4\n1 4 2 1 1 1 2 4 8\n2 4 2 2 2 1 5 6 8\n3 2 2 3 3 1 2 8\n4 2 2 3 3 1 4 8\n$EndElements\n";
    assert_eq!(rt; text.as_slice(), wanted.as_slice());
    Ok(())
}

// The kept tetrahedron is the second one, and the first has a corner that it has not.
#[test]
#[tactic(auto, unfolding(crate::specs::FileMesh::msh_of))]
fn the_kept_part(rt: HostRuntime) -> Result<(), Fail> {
    let alloc = rt.alloc();
    let mesh = Lists {
        points: Items::from_slice(alloc, &CORNERS)?,
        tets: Items::from_slice(alloc, &[Tet([0, 1, 3, 7]), Tet([0, 4, 5, 7])])?,
        tracked: Items::from_slice(alloc, &[Face([0, 1, 7])])?,
        made: 2,
    };
    let file = msh_of(alloc, &mesh, &[true, false], [-20, 5, 100], 1)?;
    let text = write_kept(alloc, &file)?;
    let wanted =
        b"$MeshFormat\n2.2 0 8\n$EndMeshFormat\n$PhysicalNames\n1\n3 1 \"kept\"\n$EndPhysicalNames\n$Nodes\n4\n1 -2.0 0.5 10.0\n5 -2.0 0.5 11.6\n6 -0.4 0.5 11.6\n8 -0.4 2.1 11.6\n$EndNodes\n$Elements\n1\n1 4 2 1 1 1 5 6 8\n$EndElements\n";
    assert_eq!(rt; text.as_slice(), wanted.as_slice());
    Ok(())
}

// The text of one cube.
const CUBE: &[u8] =
    b"$MeshFormat\n2.2 0 8\n$EndMeshFormat\n$PhysicalNames\n3\n2 3 \"tracked\"\n3 1 \"kept\"\n3 2 \"outside\"\n$EndPhysicalNames\n$Nodes\n8\n1 0 0 0\n2 16 0 0\n3 0 16 0\n4 16 16 0\n5 0 0 16\n6 16 0 16\n7 0 16 16\n8 16 16 16\n$EndNodes\n$Elements\n6\n1 4 2 2 2 1 2 4 8\n2 4 2 2 2 1 6 2 8\n3 4 2 2 2 1 4 3 8\n4 4 2 2 2 1 3 7 8\n5 4 2 2 2 1 5 6 8\n6 4 2 2 2 1 7 5 8\n$EndElements\n";

#[test]
fn one_cube_is_read(rt: HostRuntime) -> Result<(), Fail> {
    let alloc = rt.alloc();
    let Ok(mesh) = read_msh(alloc, CUBE, 0) else {
        panic!(rt; "not read");
    };
    let text = write_msh(alloc, &mesh)?;
    assert_eq!(rt; text.as_slice(), CUBE);
    Ok(())
}

#[test]
fn the_last_line_is_missing(rt: HostRuntime) -> Result<(), Fail> {
    let alloc = rt.alloc();
    let short = &CUBE[..CUBE.len() - 13];
    let read = read_msh(alloc, short, 0);
    assert!(rt; matches!(read, Err(MshIssue::Line(29))));
    let cut = &CUBE[..CUBE.len() - 1];
    let read = read_msh(alloc, cut, 0);
    assert!(rt; matches!(read, Err(MshIssue::Line(29))));
    let read = read_msh(alloc, CUBE, 1);
    assert!(rt; matches!(read, Err(MshIssue::Line(12))));
    Ok(())
}

#[test]
fn decimals_and_triangles(rt: HostRuntime) -> Result<(), Fail> {
    let alloc = rt.alloc();
    let text =
        b"$MeshFormat\n2.2 0 8\n$EndMeshFormat\n$PhysicalNames\n3\n2 3 \"tracked\"\n3 1 \"kept\"\n3 2 \"outside\"\n$EndPhysicalNames\n$Nodes\n4\n1 -0.04 0.00 20000000.00\n2 1.05 0.00 0.00\n5 -1.50 2.00 0.99\n8 0.00 0.00 0.00\n$EndNodes\n$Elements\n3\n1 4 2 1 1 1 2 5 8\n2 2 2 3 3 1 2 8\n3 2 2 3 3 1 5 8\n$EndElements\n";
    let Ok(mesh) = read_msh(alloc, text, 2) else {
        panic!(rt; "not read");
    };
    let Some(first) = mesh.nodes.as_slice().first() else {
        panic!(rt; "no node");
    };
    assert_eq!(rt; first.at, [-4, 0, 2000000000]);
    let again = write_msh(alloc, &mesh)?;
    assert_eq!(rt; again.as_slice(), text.as_slice());
    Ok(())
}
