//! Whether the tags are those of the regions.

ghost use Rattle.std.specs.Prelude.{◌≡◌, ℕ, ◌+◌, ◌^◌, ◌≤◌, length, IfOk};
ghost use Rattle.grid.specs.Views.{corners_of, triples_of};
ghost use Rattle.cert_check.specs.Faults.{IsTagOf};
ghost use Rattle.cert_check.specs.FileMesh.{file_tets, tet_at};
ghost use Rattle.cert_check.specs.Firsts.{IsFirstOrNone};
ghost use Rattle.cert_check.specs.Searches.{IsFlagged};

use flood::outside;
use grid::{Face, Memory, Tet};
use msh_text::MshTet;
use std::alloc::Global;

/// The number of the first tetrahedron whose tag is not 2 where it is flagged and 1 where it is not.
fn first_mistagged(tets: &[MshTet], flags: &[bool]) -> Option<u32>
    requires one_each { length flags.now ≡ length tets.now }
    requires few { length tets.now ≤ 2 ^ 24 }
    ensures { IsFirstOrNone (length tets.now) (IsFlagged tets.now flags.now) (λ i. i + 1) result }
{
    for i in 0..tets.len() {
        if tets[i].tag != (if flags[i] { 2 } else { 1 }) {
            return Some(i as u32 + 1);
        }
    }
    None
}

/// The number of the first tetrahedron whose tag is not 2 where it is outside and 1 where it is kept.
pub fn first_of_other_region(
    alloc: Global,
    tagged: &[MshTet],
    tets: &[Tet],
    tracked: &[Face],
) -> Result<Option<u32>, Memory>
    requires same { corners_of tets.now ≡ file_tets tagged.now }
    requires few { length tagged.now ≤ 2 ^ 24 }
    ensures { IfOk result (IsFirstOrNone (length tagged.now) (λ i. IsTagOf (file_tets tagged.now) (triples_of tracked.now) (tet_at tagged.now i)) (λ i. i + 1)) }
{
    let flags = outside(alloc, tets, tracked)?;
    Ok(first_mistagged(tagged, &flags))
}
