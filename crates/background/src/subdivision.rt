// The lattice of tetrahedra that fills the box.
ghost use Rattle.std.specs.Prelude.{◌≡◌, ℕ, pos, ◌+◌, ◌*◌, ◌<◌, ◌≤◌, ◌≤ℤ◌, ◌∷◌, [], ◌++◌, All, length, nat_abs, IfOk};
ghost use Rattle.grid.specs.Boxes.{IsInBox};
ghost use Rattle.grid.specs.Limits.{IsCells, IsSide, largest_side};
ghost use Rattle.grid.specs.Meshes.{IsWellFormed, IsWithinLimits, Tiles};
ghost use Rattle.mesh_types.specs.Lattice.{point, number_at, cube, lattice_points, lattice_tets};
ghost use Rattle.mesh_types.specs.Lattice.{lattice as lattice_of};
ghost use Rattle.mesh_types.specs.Views.{corners_of, mesh_of};

use grid::{Memory, Point, Tet};
use items::Items;
use mesh_types::Lists;
use std::alloc::Global;

/// The background mesh of the box from 0 to `side`, in grid steps: `cells` cubes along each axis, each
/// cut into the six tetrahedra of Kuhn's subdivision. No face is tracked. It takes exactly the memory
/// of its points and tetrahedra.
///
/// # Errors
/// `Memory` where that memory is not to be had.
pub fn lattice(alloc: Global, side: i32, cells: u32) -> Result<Lists, Memory>
    requires cells_in { IsCells cells }
    requires side_in { IsSide side }
    requires room { pos (4 * cells) ≤ℤ side }
    ensures is { IfOk result (λ m. mesh_of m ≡ lattice_of (nat_abs side) cells) }
    ensures tiles { IfOk result (λ m. Tiles (mesh_of m) (nat_abs side)) }
    ensures well_formed { IfOk result (λ m. IsWellFormed (mesh_of m)) }
    ensures in_box { IfOk result (λ m. All (IsInBox (nat_abs side)) m.points) }
    ensures within_limits { IfOk result (λ m. IsWithinLimits (mesh_of m)) }
    ensures made { IfOk result (λ m. m.made ≡ length m.tets) }
{
    let step = side as u32 / cells;
    let points = points(alloc, step, cells)?;
    let tets = tets(alloc, cells)?;
    Ok(Lists {
        points: Items::from_vec(points),
        tets: Items::from_vec(tets),
        tracked: Items::new(alloc),
        made: 6 * (cells * cells * cells),
    })
}

/// The points of the lattice, the first axis running fastest.
#[tactic(auto, using(crate::proofs::SoFar::so_far_steps))]
fn points(alloc: Global, step: u32, cells: u32) -> Result<Vec<Point>, Memory>
    requires step_in { step ≤ largest_side }
    requires cells_in { cells ≤ 32 }
    ensures { IfOk result (λ v. v.items ≡ lattice_points step cells) }
{
    let places = cells + 1;
    let mut points = Vec::with_capacity(alloc, (places * places * places) as usize)?;
    for k in 0..cells + 1 {
        for j in 0..cells + 1 {
            for i in 0..cells + 1 {
                points.push(point_at(step, i, j, k))?;
            }
        }
    }
    Ok(points)
}

/// The point at a place, counted in steps along each axis.
fn point_at(step: u32, i: u32, j: u32, k: u32) -> Point
    requires step_in { step ≤ largest_side }
    requires i_in { i ≤ 32 }
    requires j_in { j ≤ 32 }
    requires k_in { k ≤ 32 }
    ensures { result ≡ point (i * step) (j * step) (k * step) }
{
    Point {
        x: (i * step) as i32,
        y: (j * step) as i32,
        z: (k * step) as i32,
    }
}

/// The tetrahedra of the lattice, the first axis running fastest.
#[tactic(auto, using(crate::proofs::SoFar::so_far_steps))]
fn tets(alloc: Global, cells: u32) -> Result<Vec<Tet>, Memory>
    requires { cells ≤ 32 }
    ensures { IfOk result (λ v. corners_of v.items ≡ lattice_tets cells) }
{
    let mut tets = Vec::with_capacity(alloc, (6 * (cells * cells * cells)) as usize)?;
    for k in 0..cells {
        for j in 0..cells {
            for i in 0..cells {
                tets.extend_from_slice(&cube_tets(cells, i, j, k))?;
            }
        }
    }
    Ok(tets)
}

/// The six tetrahedra of the cube at a place, each along a path from its least corner to its greatest.
fn cube_tets(cells: u32, i: u32, j: u32, k: u32) -> [Tet; 6]
    requires cells_in { cells ≤ 32 }
    requires i_in { i < cells }
    requires j_in { j < cells }
    requires k_in { k < cells }
    ensures { corners_of result ≡ cube cells i j k }
{
    let c000 = number(cells, i, j, k);
    let c100 = number(cells, i + 1, j, k);
    let c010 = number(cells, i, j + 1, k);
    let c110 = number(cells, i + 1, j + 1, k);
    let c001 = number(cells, i, j, k + 1);
    let c101 = number(cells, i + 1, j, k + 1);
    let c011 = number(cells, i, j + 1, k + 1);
    let c111 = number(cells, i + 1, j + 1, k + 1);
    [
        Tet([c000, c100, c110, c111]),
        Tet([c000, c101, c100, c111]),
        Tet([c000, c110, c010, c111]),
        Tet([c000, c010, c011, c111]),
        Tet([c000, c001, c101, c111]),
        Tet([c000, c011, c001, c111]),
    ]
}

/// The number of the point at a place.
fn number(cells: u32, i: u32, j: u32, k: u32) -> u32
    requires cells_in { cells ≤ 32 }
    requires i_in { i ≤ 32 }
    requires j_in { j ≤ 32 }
    requires k_in { k ≤ 32 }
    ensures { result ≡ number_at cells i j k }
{
    let row = cells + 1;
    i + row * j + row * row * k
}
