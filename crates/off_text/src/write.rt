// An OFF text, written.
ghost use Rattle.std.specs.Prelude.{◌≡◌, ◌++◌, All, OnOk, IfOk};
ghost use Rattle.std.specs.Fmt.{signed_decimal};
ghost use Rattle.std.specs.List.{flat_map};
ghost use Rattle.soup.specs.Limits.{IsRaw, IsVertex};
ghost use Rattle.off_text.specs.Text.{count_line, face_line, off_text, vertex_line};

use grid::Memory;
use itoa::Buffer;
use soup::Raw;
use std::alloc::Global;
use texts::put;

/// Bytes that no line is longer than, for coordinates of ten digits and a sign.
const LINE: usize = 36;

fn put_counts(out: &mut Vec<u8>, vertices: usize, faces: usize) -> Result<(), Memory>
    ensures { OnOk result (out.new.items ≡ out.old.items ++ count_line vertices faces) }
{
    let mut buffer = Buffer::new();
    put(out, buffer.format(vertices).as_bytes())?;
    put(out, b" ")?;
    put(out, buffer.format(faces).as_bytes())?;
    put(out, b" 0\n")
}

fn put_coordinate(out: &mut Vec<u8>, buffer: &mut Buffer, z: i64) -> Result<(), Memory>
    ensures { OnOk result (out.new.items ≡ out.old.items ++ signed_decimal z) }
{
    put(out, buffer.format(z).as_bytes())
}

fn put_vertex(out: &mut Vec<u8>, buffer: &mut Buffer, v: &[i64; 3]) -> Result<(), Memory>
    requires { IsVertex v.now }
    ensures { OnOk result (out.new.items ≡ out.old.items ++ vertex_line v.now) }
{
    let [x, y, z] = *v;
    put_coordinate(out, buffer, x)?;
    put(out, b" ")?;
    put_coordinate(out, buffer, y)?;
    put(out, b" ")?;
    put_coordinate(out, buffer, z)?;
    put(out, b"\n")?;
    Ok(())
}

fn put_face(out: &mut Vec<u8>, buffer: &mut Buffer, f: &[u32; 3]) -> Result<(), Memory>
    ensures { OnOk result (out.new.items ≡ out.old.items ++ face_line f.now) }
{
    let [a, b, c] = *f;
    put(out, b"3 ")?;
    put(out, buffer.format(a).as_bytes())?;
    put(out, b" ")?;
    put(out, buffer.format(b).as_bytes())?;
    put(out, b" ")?;
    put(out, buffer.format(c).as_bytes())?;
    put(out, b"\n")
}

fn put_vertices(out: &mut Vec<u8>, vertices: &[[i64; 3]]) -> Result<(), Memory>
    requires { All IsVertex vertices.now }
    ensures { OnOk result (out.new.items ≡ out.old.items ++ flat_map vertex_line vertices.now) }
{
    let mut buffer = Buffer::new();
    for v in vertices {
        put_vertex(out, &mut buffer, v)?;
    }
    Ok(())
}

fn put_faces(out: &mut Vec<u8>, faces: &[[u32; 3]]) -> Result<(), Memory>
    ensures { OnOk result (out.new.items ≡ out.old.items ++ flat_map face_line faces.now) }
{
    let mut buffer = Buffer::new();
    for f in faces {
        put_face(out, &mut buffer, f)?;
    }
    Ok(())
}

/// Writes a soup as an OFF text: `OFF`, the counts with 0 for the edges, a line `x y z` for each vertex
/// and a line `3 a b c` for each triangle.
///
/// # Errors
/// `Memory` where the memory of the text is not to be had.
#[tactic(auto, unfolding(crate::specs::Text::off_text))]
pub fn write_off(alloc: Global, raw: &Raw) -> Result<Vec<u8>, Memory>
    requires { IsRaw raw.now }
    ensures { IfOk result (λ text. text.items ≡ off_text raw.now) }
{
    let vertices = raw.vertices.as_slice();
    let faces = raw.faces.as_slice();
    let lines = vertices.len().saturating_add(faces.len());
    let mut out = Vec::with_capacity(alloc, lines.saturating_mul(LINE))?;
    put(&mut out, b"OFF\n")?;
    put_counts(&mut out, vertices.len(), faces.len())?;
    put_vertices(&mut out, vertices)?;
    put_faces(&mut out, faces)?;
    Ok(out)
}
