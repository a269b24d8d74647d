// The height field of `demo`, with the text of its soup.
ghost use Rattle.std.specs.Prelude.{◌≡◌, ◌≤◌, ◌∷◌, [], IfOk};
ghost use Rattle.inputs.specs.Placed.{IsBoxed, IsPlacedFor};
ghost use Rattle.off_text.specs.Text.{off_text};
ghost use Rattle.soup.specs.HeightField as field;
ghost use Rattle.soup.specs.Placement.{placed};

use grid::Memory;
use items::Text;
use off_text::write_off;
use outputs::{OutFile, out_file};
use soup::{PlaceIssue, Soup, height_field, place};
use std::alloc::Global;

/// A height field in its box, and the file of its soup.
#[derive(Drop)]
pub struct Field {
    pub soup: Soup,
    pub files: Vec<OutFile>,
}

fn one_file(alloc: Global, name: Text, text: Vec<u8>) -> Result<Vec<OutFile>, Memory>
    ensures { IfOk result (λ files. files.items ≡ record { name = name; text = text.items } ∷ []) }
{
    let mut files = Vec::new(alloc);
    files.push(out_file(name, text))?;
    Ok(files)
}

/// The height field of `k` squares along each axis, for an epsilon of 2 and 4 cells along each axis, and the
/// file of that name with its soup.
pub fn field_of(alloc: Global, k: u32, seed: u32, name: Text) -> Result<Field, Memory>
    requires least { 1 ≤ k }
    requires most { k ≤ 64 }
    ensures soup { IfOk result (λ made. made.soup ≡ placed (field.height_field k seed) 2 4) }
    ensures placed { IfOk result (λ made. IsPlacedFor 4 made.soup) }
    ensures boxed { IfOk result (λ made. IsBoxed 2 4 made.soup) }
    ensures files { IfOk result (λ made. made.files.items ≡ record { name = name; text = off_text (field.height_field k seed) } ∷ []) }
{
    let raw = height_field(alloc, k, seed)?;
    let files = one_file(alloc, name, write_off(alloc, &raw)?)?;
    match place(alloc, &raw, 2, 4) {
        Ok(soup) => Ok(Field { soup, files }),
        Err(PlaceIssue::TooWide(_)) => unreachable!(),
        Err(PlaceIssue::Memory) => Err(Memory),
    }
}
