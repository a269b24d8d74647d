// The pieces of a tetrahedron by its corners.
ghost use Rattle.grid.specs.Simplices.{IsTet};
ghost use Rattle.grid.specs.Views.{corners_of};
ghost use Rattle.mesh_types.specs.CutLists.{AreCuts};
ghost use Rattle.mesh_types.specs.Refines.{sub_all};
ghost use Rattle.std.specs.Prelude.{All, OnOk, length, map, ◌+◌, ◌++◌, ◌<◌, ◌^◌, ◌≡◌};
ghost use Rattle.table_pieces.specs.Labels.{arranged, number_at};

use crate::corners::{ranks, rising};
use crate::labels::labels_of;
use cut_tables::two_sided;
use grid::{Memory, Tet};
use mesh_types::Cut;
use pieces::split;

/// Adds to `all` the pieces of the tetrahedron by the cuts in turn, whose new points are numbered from
/// `first` on. `pieces` and `spare` are room to work in. After Memory nothing is said of the three.
pub fn push_pieces(
    cuts: &[Cut],
    first: u32,
    tet: Tet,
    all: &mut Vec<Tet>,
    pieces: &mut Vec<Tet>,
    spare: &mut Vec<Tet>,
) -> Result<(), Memory>
    requires cuts { AreCuts first cuts.now }
    requires corners { IsTet first tet.0 }
    requires room { first + length cuts.now < 2 ^ 32 }
    ensures { OnOk result (corners_of all.new.items ≡ corners_of all.old.items ++ sub_all first cuts.now tet.0) }
{
    let corners = rising(tet);
    let labels = labels_of(cuts, first, corners);
    if two_sided(labels.mask) {
        let row = cut_tables::pieces(labels.mask);
        push_row(
            all,
            &row.list[..row.count],
            &labels.numbers,
            ranks(corners, tet),
        )?;
    } else {
        split(cuts, first, tet, pieces, spare)?;
        push_tets(all, pieces)?;
    }
    Ok(())
}

/// Adds the tetrahedra of a row: the label at the rank of a place gives the corner there.
fn push_row(
    all: &mut Vec<Tet>,
    row: &[[u8; 4]],
    numbers: &[u32; 10],
    ranks: [usize; 4],
) -> Result<(), Memory>
    requires ranks { All (λ p. p < 4) ranks }
    requires labels { All (All (λ c. c < 10)) row.now }
    ensures { OnOk result (corners_of all.new.items ≡ corners_of all.old.items ++ map (λ y. arranged ranks (map (number_at numbers.now) y)) row.now) }
{
    for labels in row {
        all.push(piece(*labels, numbers, ranks))?;
    }
    Ok(())
}

fn piece(labels: [u8; 4], numbers: &[u32; 10], ranks: [usize; 4]) -> Tet
    requires ranks { All (λ p. p < 4) ranks }
    requires labels { All (λ c. c < 10) labels }
    ensures { result.0 ≡ arranged ranks (map (number_at numbers.now) labels) }
{
    let [p, q, r, s] = ranks;
    Tet([
        numbers[labels[p] as usize],
        numbers[labels[q] as usize],
        numbers[labels[r] as usize],
        numbers[labels[s] as usize],
    ])
}

fn push_tets(all: &mut Vec<Tet>, tets: &[Tet]) -> Result<(), Memory>
    ensures { OnOk result (corners_of all.new.items ≡ corners_of all.old.items ++ corners_of tets.now) }
{
    all.extend_from_slice(tets)?;
    Ok(())
}
