// The mesh text, written.
ghost use Rattle.std.specs.Prelude.{◌≡◌, ◌+◌, ◌<◌, ◌≤◌, ◌^◌, ◌++◌, ◌∷◌, [], length, decimal, OnOk, IfOk};
ghost use Rattle.std.specs.List.{enumerate_from, flat_map};
ghost use Rattle.msh_text.specs.Text.{body_text, count_line, face_line, kept_text, msh_text, node_line, spaced, spaced_decimals, tet_line};

use crate::file_mesh::{MshMesh, MshNode, MshTet};
use crate::kept::kept_part;
use grid::{Face, Memory};
use itoa::Buffer;
use lines::put_coordinate;
use std::alloc::Global;
use texts::put;

// Bytes that no line is longer than, for coordinates of ten digits and a sign.
const LINE: usize = 48;

// Each number behind a space.
fn put_spaced(out: &mut Vec<u8>, buffer: &mut Buffer, numbers: &[u32]) -> Result<(), Memory>
    ensures { OnOk result (out.new.items ≡ out.old.items ++ spaced numbers.now) }
{
    for n in numbers {
        put(out, b" ")?;
        put(out, buffer.format(*n).as_bytes())?;
    }
    Ok(())
}

fn put_spaced_decimals(
    out: &mut Vec<u8>,
    buffer: &mut Buffer,
    numbers: &[i64],
    digits: u32,
) -> Result<(), Memory>
    requires { digits ≤ 5 }
    ensures { OnOk result (out.new.items ≡ out.old.items ++ spaced_decimals digits numbers.now) }
{
    for n in numbers {
        put(out, b" ")?;
        put_coordinate(out, buffer, *n, digits)?;
    }
    Ok(())
}

fn put_count(out: &mut Vec<u8>, count: usize) -> Result<(), Memory>
    ensures { OnOk result (out.new.items ≡ out.old.items ++ count_line count) }
{
    let mut buffer = Buffer::new();
    put(out, buffer.format(count).as_bytes())?;
    put(out, b"\n")
}

fn put_node(
    out: &mut Vec<u8>,
    buffer: &mut Buffer,
    node: &MshNode,
    digits: u32,
) -> Result<(), Memory>
    requires { digits ≤ 5 }
    ensures { OnOk result (out.new.items ≡ out.old.items ++ node_line digits node.now) }
{
    put(out, buffer.format(node.number).as_bytes())?;
    put_spaced_decimals(out, buffer, &node.at, digits)?;
    put(out, b"\n")
}

fn put_nodes(out: &mut Vec<u8>, nodes: &[MshNode], digits: u32) -> Result<(), Memory>
    requires { digits ≤ 5 }
    ensures { OnOk result (out.new.items ≡ out.old.items ++ flat_map (node_line digits) nodes.now) }
{
    let mut buffer = Buffer::new();
    for node in nodes {
        put_node(out, &mut buffer, node, digits)?;
    }
    Ok(())
}

fn put_tet(
    out: &mut Vec<u8>,
    buffer: &mut Buffer,
    number: usize,
    tet: &MshTet,
) -> Result<(), Memory>
    ensures { OnOk result (out.new.items ≡ out.old.items ++ tet_line (number, tet.now)) }
{
    let tag = u32::from(tet.tag);
    put(out, buffer.format(number).as_bytes())?;
    put(out, b" 4 2")?;
    put_spaced(out, buffer, &[tag, tag])?;
    put_spaced(out, buffer, &tet.corners)?;
    put(out, b"\n")
}

fn put_tets(out: &mut Vec<u8>, tets: &[MshTet]) -> Result<(), Memory>
    ensures { OnOk result (out.new.items ≡ out.old.items ++ flat_map tet_line (enumerate_from 1 tets.now)) }
{
    let mut buffer = Buffer::new();
    let mut number = 1;
    for tet in tets {
        put_tet(out, &mut buffer, number, tet)?;
        number += 1;
    }
    Ok(())
}

fn put_face(
    out: &mut Vec<u8>,
    buffer: &mut Buffer,
    number: usize,
    face: &Face,
) -> Result<(), Memory>
    ensures { OnOk result (out.new.items ≡ out.old.items ++ face_line (number, face.now)) }
{
    put(out, buffer.format(number).as_bytes())?;
    put(out, b" 2 2 3 3")?;
    put_spaced(out, buffer, &face.0)?;
    put(out, b"\n")
}

fn put_faces(out: &mut Vec<u8>, first: usize, faces: &[Face]) -> Result<(), Memory>
    requires { first + length faces.now < 2 ^ 64 }
    ensures { OnOk result (out.new.items ≡ out.old.items ++ flat_map face_line (enumerate_from first faces.now)) }
{
    let mut buffer = Buffer::new();
    let mut number = first;
    for face in faces {
        put_face(out, &mut buffer, number, face)?;
        number += 1;
    }
    Ok(())
}

// The text of the mesh behind a head.
fn write_behind(alloc: Global, head: &[u8], mesh: &MshMesh) -> Result<Vec<u8>, Memory>
    requires { mesh.now.digits ≤ 5 }
    ensures { IfOk result (λ bytes. bytes.items ≡ head.now ++ body_text mesh.now) }
{
    let nodes = mesh.nodes.as_slice();
    let tets = mesh.tets.as_slice();
    let tracked = mesh.tracked.as_slice();
    let elements = tets.len() + tracked.len();
    let lines = elements.saturating_add(nodes.len());
    let mut out = Vec::with_capacity(alloc, lines.saturating_mul(LINE))?;
    put(&mut out, head)?;
    put_count(&mut out, nodes.len())?;
    put_nodes(&mut out, nodes, mesh.digits)?;
    put(&mut out, b"$EndNodes\n$Elements\n")?;
    put_count(&mut out, elements)?;
    put_tets(&mut out, tets)?;
    put_faces(&mut out, tets.len() + 1, tracked)?;
    put(&mut out, b"$EndElements\n")?;
    Ok(out)
}

/// The text of a mesh file, which Gmsh reads: the nodes, then the tetrahedra and the tracked faces,
/// numbered from 1.
#[tactic(auto, unfolding(crate::specs::Text::msh_text, crate::specs::Text::head_text))]
pub fn write_msh(alloc: Global, mesh: &MshMesh) -> Result<Vec<u8>, Memory>
    requires { mesh.now.digits ≤ 5 }
    ensures { IfOk result (λ bytes. bytes.items ≡ msh_text mesh.now) }
{
    write_behind(
        alloc,
        b"$MeshFormat\n2.2 0 8\n$EndMeshFormat\n$PhysicalNames\n3\n2 3 \"tracked\"\n3 1 \"kept\"\n3 2 \"outside\"\n$EndPhysicalNames\n$Nodes\n",
        mesh,
    )
}

/// The text of the kept part of a mesh: the tetrahedra of tag 1, numbered from 1, and the nodes that
/// they have, without tracked faces.
#[tactic(auto, unfolding(crate::specs::Text::kept_text, crate::specs::Text::kept_head_text))]
pub fn write_kept(alloc: Global, mesh: &MshMesh) -> Result<Vec<u8>, Memory>
    requires { mesh.now.digits ≤ 5 }
    ensures { IfOk result (λ bytes. bytes.items ≡ kept_text mesh.now) }
{
    let kept = kept_part(alloc, mesh)?;
    write_behind(
        alloc,
        b"$MeshFormat\n2.2 0 8\n$EndMeshFormat\n$PhysicalNames\n1\n3 1 \"kept\"\n$EndPhysicalNames\n$Nodes\n",
        &kept,
    )
}
