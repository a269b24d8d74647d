// An OFF text, read whole.
ghost use Rattle.std.specs.Prelude.{◌≡◌, ◌⊎◌, ◌≤◌, ℕ, IfOk, IfSome, IsErrOf};
ghost use Rattle.soup.specs.declared.raw.Raw.{Raw};
ghost use Rattle.soup.specs.Limits.{IsRaw};
ghost use Rattle.off_text.specs.declared.issue.OffKind.{OffKind};
ghost use Rattle.off_text.specs.Grammar.{reads, refused};
ghost use Rattle.off_text.specs.Gives.{Gives};

use crate::body::{read_faces, read_vertices};
use crate::field::{read_count, read_edge_count, read_first_count, read_keyword};
use crate::issue::OffIssue;
use items::Items;
use soup::Raw;
use std::alloc::Global;

fn read(alloc: Global, bytes: &[u8], digits: Option<u32>) -> Result<Raw, OffIssue>
    requires { IfSome digits (λ d. d ≤ 5) }
    ensures { Gives (λ raw. raw) result (reads digits bytes.now) }
{
    let start = read_keyword(bytes)?;
    let vertices = read_first_count(bytes, start)?;
    let faces = read_count(bytes, vertices.end)?;
    let edges = read_edge_count(bytes, faces.end)?;
    let points = read_vertices(alloc, bytes, edges, vertices.value, digits)?;
    let triangles = read_faces(alloc, bytes, points.end, vertices.value, faces.value)?;
    Ok(Raw {
        vertices: Items::from_vec(points.points),
        faces: Items::from_vec(triangles),
    })
}

/// Reads an OFF text: the keyword `OFF`, the numbers of vertices, of faces and of edges, the
/// coordinates, and the faces, each of which becomes a fan of triangles. Words are parted by blanks
/// and by comments from `#` to the end of the line, and what stands behind a face on its line is
/// passed over. Coordinates are whole numbers, or where digits are given, decimals of at most 32 bytes,
/// which are rounded to whole units of 10^-digits, a half going up. They are at most 10^9 in absolute
/// value. There are at most 2^20 vertices, faces and triangles.
pub fn read_off(alloc: Global, bytes: &[u8], digits: Option<u32>) -> Result<Raw, OffIssue>
    requires { IfSome digits (λ d. d ≤ 5) }
    // The soup is what the text says.
    ensures read { IfOk result (λ raw. reads digits bytes.now ≡ Ok raw) }
    // A refusal is the first one.
    ensures refused { (kind : OffKind) (place : ℕ) → IsErrOf result (OffIssue.At kind place) → reads digits bytes.now ≡ refused kind place }
    // Where a text says a soup, that is read, unless memory runs out.
    ensures all_read { (raw : Raw) → reads digits bytes.now ≡ Ok raw → (result ≡ Ok raw) ⊎ IsErrOf result OffIssue.Memory }
    // Where a text is refused, that is answered, unless memory runs out.
    ensures all_refused { (kind : OffKind) (place : ℕ) → reads digits bytes.now ≡ refused kind place → IsErrOf result (OffIssue.At kind place) ⊎ IsErrOf result OffIssue.Memory }
    ensures limits { IfOk result IsRaw }
{
    read(alloc, bytes, digits)
}
