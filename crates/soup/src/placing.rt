// A soup, placed in its box.
ghost use Rattle.std.specs.Prelude.{◌≡◌, ◌↔◌, ◌≤◌, ◌<◌, length, All, IfOk, IsErrOf, ℕ};
ghost use Rattle.grid.specs.Limits.{IsCells, largest_side, most_epsilon};
ghost use Rattle.soup.specs.Limits.{IsVertex, IsFaceBelow};
ghost use Rattle.soup.specs.Ranges.{IsMeasureOf};
ghost use Rattle.soup.specs.Placement.{extent, room, side, placed_in, placed, IsLeastSide, IsInItsBox};

use crate::measure::{Measure, measure_of, start_of};
use crate::moves::placed_triangles;
use crate::raw::{Raw, Soup};
use crate::sides::side_for;
use grid::LARGEST_SIDE;
use std::alloc::{AllocError, Global};
use thiserror::Error;

// The most room that a box has.
const MOST_ROOM: u64 = LARGEST_SIDE as u64;

/// Why a soup is not placed.
#[derive(Clone, Copy, Debug, PartialEq, Eq, Error)]
pub enum PlaceIssue {
    /// No box has room for a soup of this extent.
    #[error("extent {0} is too wide")]
    TooWide(u64),
    #[error("out of memory")]
    Memory,
}

impl From<AllocError> for PlaceIssue {
    ghost use Rattle.soup.specs.declared.placing.PlaceIssue.TheVariants.{Memory};

    ghost from_gives = { λ _ e. e ≡ Memory };

    fn from(_: AllocError) -> PlaceIssue {
        PlaceIssue::Memory
    }
}

/// Places the soup in a box of that side.
fn placed_in(alloc: Global, raw: &Raw, measure: &Measure, side: u64) -> Result<Soup, AllocError>
    requires corners { All (IsFaceBelow (length raw.now.vertices)) raw.now.faces }
    requires measure { IsMeasureOf raw.now measure.now }
    requires fits { extent raw.now ≤ side }
    requires side { side ≤ largest_side }
    ensures { IfOk result (λ soup. soup ≡ placed_in side raw.now) }
{
    let shift = start_of(raw, measure, side);
    let triangles = placed_triangles(alloc, raw.vertices.as_slice(), raw.faces.as_slice(), &shift)?;
    Ok(Soup {
        triangles,
        side: side as i32,
        shift,
    })
}

/// Places the soup in its box. The side of the box is the least power of two from 16 on that is at
/// least `4 * cells` and has room for the soup, for the envelope `e` and for two more steps at
/// either end. The soup lies in its middle. `e` is in grid steps, the unit of the vertices.
#[tactic(auto, unfolding(crate::specs::Placement::placed))]
pub fn place(alloc: Global, raw: &Raw, e: u32, cells: u32) -> Result<Soup, PlaceIssue>
    requires coordinates { All IsVertex raw.now.vertices }
    requires corners { All (IsFaceBelow (length raw.now.vertices)) raw.now.faces }
    requires epsilon_least { 1 ≤ e }
    requires epsilon_most { e ≤ most_epsilon }
    requires cells { IsCells cells }
    ensures placed { IfOk result (λ soup. soup ≡ placed raw.now e cells) }
    ensures least { IfOk result (λ soup. IsLeastSide raw.now e cells soup.side) }
    ensures inside { IfOk result (λ soup. IsInItsBox e (side raw.now e cells) soup) }
    ensures too_wide { (x : ℕ) → IsErrOf result (PlaceIssue.TooWide x) ↔ ((largest_side < room raw.now e) × (x ≡ extent raw.now)) }
{
    let measure = measure_of(raw);
    let room = measure.extent + 2 * e as u64 + 4;
    if room > MOST_ROOM {
        return Err(PlaceIssue::TooWide(measure.extent));
    }
    let side = side_for(room.max(4 * cells as u64));
    let soup = placed_in(alloc, raw, &measure, side)?;
    Ok(soup)
}
