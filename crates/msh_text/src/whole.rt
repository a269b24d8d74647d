//! The whole of a mesh text.

ghost use Rattle.std.specs.Prelude.{◌≡◌, ◌≤◌, ◌⊎◌, ℕ, Ok, IfOk, IsErrOf};
ghost use Rattle.lines.specs.Fields.{fixed_lines};
ghost use Rattle.lines.specs.Gives.{Gives, Leads};
ghost use Rattle.msh_text.specs.Rules.{msh_rules};
ghost use Rattle.msh_text.specs.Text.{head_lines, middle_lines};
ghost use Rattle.msh_text.specs.Answers.{Answers, BadLine, IsTextOf};
ghost use Rattle.msh_text.specs.declared.file_mesh.MshMesh.{MshMesh};

use crate::elements::read_elements;
use crate::file_mesh::MshMesh;
use crate::issue::MshIssue;
use crate::marks::node_marks;
use crate::read::read_nodes;
use grid::MOST_POINTS;
use items::Items;
use lines::{Stop, line_at, read_fixed, read_lines, read_number};
use std::alloc::Global;

const MOST_ELEMENTS: u32 = 1 << 24;

fn read_head(bytes: &[u8]) -> Result<&[u8], Stop>
    ensures { Leads (fixed_lines head_lines) bytes.now tt result }
{
    let lines: [&[u8]; 10] = [
        b"$MeshFormat\n",
        b"2.2 0 8\n",
        b"$EndMeshFormat\n",
        b"$PhysicalNames\n",
        b"3\n",
        b"2 3 \"tracked\"\n",
        b"3 1 \"kept\"\n",
        b"3 2 \"outside\"\n",
        b"$EndPhysicalNames\n",
        b"$Nodes\n",
    ];
    read_lines(bytes, &lines)
}

fn read_middle(bytes: &[u8]) -> Result<&[u8], Stop>
    ensures { Leads (fixed_lines middle_lines) bytes.now tt result }
{
    let lines: [&[u8]; 2] = [b"$EndNodes\n", b"$Elements\n"];
    read_lines(bytes, &lines)
}

fn read_whole(alloc: Global, bytes: &[u8], d: u32) -> Result<(MshMesh, &[u8]), Stop>
    requires { d ≤ 5 }
    ensures gives { Gives (λ m. m) (msh_rules d) bytes.now result }
    ensures digits { IfOk result (λ r. r.0.digits ≡ d) }
{
    let rest = read_head(bytes)?;
    let (count, rest) = read_number(rest, b'\n', 0, MOST_POINTS)?;
    let (nodes, rest) = read_nodes(alloc, rest, count, d)?;
    let rest = read_middle(rest)?;
    let (count, rest) = read_number(rest, b'\n', 0, MOST_ELEMENTS)?;
    let marks = node_marks(alloc, &nodes, MOST_POINTS)?;
    let (elements, rest) = read_elements(alloc, rest, count, &marks)?;
    let rest = read_fixed(rest, b"$EndElements\n")?;
    Ok((
        MshMesh {
            digits: d,
            nodes: Items::from_vec(nodes),
            tets: elements.tets,
            tracked: elements.tracked,
        },
        rest,
    ))
}

fn read(alloc: Global, bytes: &[u8], d: u32) -> Result<MshMesh, MshIssue>
    requires { d ≤ 5 }
    ensures answers { Answers d bytes.now result }
    ensures digits { IfOk result (λ m. m.digits ≡ d) }
{
    match read_whole(alloc, bytes, d) {
        Ok((mesh, rest)) => {
            if rest.is_empty() {
                Ok(mesh)
            } else {
                Err(MshIssue::Line(line_at(bytes, rest.len())))
            }
        }
        Err(Stop::At(left)) => Err(MshIssue::Line(line_at(bytes, left))),
        Err(Stop::Memory) => Err(MshIssue::Memory),
    }
}

/// Reads a mesh text, whose coordinates have `d` digits behind the point. The answer is the mesh of
/// which this is the text, where there is one that keeps the rules of the format, and else the first
/// line that is missing or breaks its rule, or the first line behind the last one.
pub fn read_msh(alloc: Global, bytes: &[u8], d: u32) -> Result<MshMesh, MshIssue>
    requires { d ≤ 5 }
    // What is answered is so.
    ensures answers { Answers d bytes.now result }
    // The mesh of which this is the text is answered, unless memory runs out.
    ensures all_read { (m : MshMesh) → IsTextOf d bytes.now m → (result ≡ Ok m) ⊎ IsErrOf result MshIssue.Memory }
    // The mesh has the digits that were asked for.
    ensures digits { IfOk result (λ m. m.digits ≡ d) }
    // The first bad line is answered, unless memory runs out.
    ensures all_refused { (n : ℕ) → BadLine d bytes.now n → IsErrOf result (MshIssue.Line n) ⊎ IsErrOf result MshIssue.Memory }
{
    read(alloc, bytes, d)
}
