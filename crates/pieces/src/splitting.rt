// The pieces of a simplex by cuts in turn.
ghost use Rattle.grid.specs.Simplices.{has, sub};
ghost use Rattle.mesh_types.specs.Refines.{is_touched, sub_all};
ghost use Rattle.std.specs.List.{flat_map, list_any};
ghost use Rattle.std.specs.Prelude.{OnOk, length, map, ◌&&◌, ◌+◌, ◌++◌, ◌<◌, ◌^◌, ◌≡◌};

use crate::simplex::Simplex;
use grid::Memory;
use mesh_types::Cut;
use std::mem::swap;

/// Whether the simplex has both ends of some cut.
pub fn is_touched<S: Simplex>(cuts: &[Cut], simplex: S) -> bool
    ensures { result ≡ is_touched cuts.now (S.corners simplex) }
{
    for cut in cuts {
        if has_edge(simplex, cut) {
            return true;
        }
    }
    false
}

/// Makes `pieces` the pieces of the simplex by the cuts in turn, whose new points are numbered from
/// `first` on. `spare` is room to work in. After Memory nothing is said of either.
pub fn split<S: Simplex>(
    cuts: &[Cut],
    first: u32,
    simplex: S,
    pieces: &mut Vec<S>,
    spare: &mut Vec<S>,
) -> Result<(), Memory>
    requires { first + length cuts.now < 2 ^ 32 }
    ensures { OnOk result (map S.corners pieces.new.items ≡ sub_all first cuts.now (S.corners simplex)) }
{
    pieces.clear();
    pieces.push(simplex)?;
    let mut k = first;
    for cut in cuts {
        split_each(cut, k, pieces, spare)?;
        k += 1;
    }
    Ok(())
}

/// Splits each of the pieces that has the edge of the cut at its point k.
fn split_each<S: Simplex>(
    cut: &Cut,
    k: u32,
    pieces: &mut Vec<S>,
    spare: &mut Vec<S>,
) -> Result<(), Memory>
    ensures { OnOk result (map S.corners pieces.new.items ≡ flat_map (sub cut.now.u cut.now.v k) (map S.corners pieces.old.items)) }
{
    if !any_has_edge(pieces, cut) {
        return Ok(());
    }
    spare.clear();
    for piece in pieces.iter() {
        push_split(spare, *piece, cut, k)?;
    }
    swap(pieces, spare);
    Ok(())
}

fn push_split<S: Simplex>(pieces: &mut Vec<S>, simplex: S, cut: &Cut, k: u32) -> Result<(), Memory>
    ensures { OnOk result (map S.corners pieces.new.items ≡ map S.corners pieces.old.items ++ sub cut.now.u cut.now.v k (S.corners simplex)) }
{
    if has_edge(simplex, cut) {
        pieces.push(simplex.with_corner(cut.u, k))?;
        pieces.push(simplex.with_corner(cut.v, k))?;
    } else {
        pieces.push(simplex)?;
    }
    Ok(())
}

fn any_has_edge<S: Simplex>(pieces: &[S], cut: &Cut) -> bool
    ensures { result ≡ list_any (λ x. has x cut.now.u && has x cut.now.v) (map S.corners pieces.now) }
{
    for piece in pieces {
        if has_edge(*piece, cut) {
            return true;
        }
    }
    false
}

/// Whether both ends of the cut are corners.
fn has_edge<S: Simplex>(simplex: S, cut: &Cut) -> bool
    ensures { result ≡ (has (S.corners simplex) cut.now.u && has (S.corners simplex) cut.now.v) }
{
    simplex.has_corner(cut.u) && simplex.has_corner(cut.v)
}

#[cfg(test)]
mod tests {
    use super::*;
    use grid::{Face, Point, Tet};
    use std::test::Fail;

    const AT: Point = Point { x: 0, y: 0, z: 0 };

    #[test]
    fn splits_a_tetrahedron(rt: HostRuntime) -> Result<(), Fail> {
        let cuts = [
            Cut { u: 0, v: 1, at: AT },
            Cut { u: 0, v: 2, at: AT },
            Cut { u: 2, v: 7, at: AT },
        ];
        let mut pieces = Vec::new(rt.alloc());
        let mut spare = Vec::new(rt.alloc());
        split(&cuts, 8, Tet([0, 1, 2, 3]), &mut pieces, &mut spare)?;
        let expected = [Tet([8, 1, 2, 3]), Tet([9, 8, 2, 3]), Tet([0, 8, 9, 3])];
        assert_eq!(rt; pieces.as_slice(), expected.as_slice());
        assert!(rt; is_touched(&cuts, Tet([0, 1, 2, 3])));
        assert!(rt; !is_touched(&cuts, Tet([1, 2, 3, 4])));
        Ok(())
    }

    #[test]
    fn splits_a_face(rt: HostRuntime) -> Result<(), Fail> {
        let cuts = [Cut { u: 0, v: 1, at: AT }];
        let mut pieces = Vec::new(rt.alloc());
        let mut spare = Vec::new(rt.alloc());
        split(&cuts, 8, Face([0, 1, 3]), &mut pieces, &mut spare)?;
        assert_eq!(rt;
            pieces.as_slice(),
            [Face([8, 1, 3]), Face([0, 8, 3])].as_slice()
        );
        assert!(rt; !is_touched(&cuts, Face([1, 3, 4])));
        Ok(())
    }
}
