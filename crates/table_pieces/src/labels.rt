// The new points at the edges of a tetrahedron.
ghost use Rattle.grid.specs.Meshes.{Ordered, is_below};
ghost use Rattle.grid.specs.Simplices.{Rises};
ghost use Rattle.mesh_types.specs.CutLists.{ends_of};
ghost use Rattle.std.specs.List.{filter};
ghost use Rattle.std.specs.Prelude.{[], false, length, map, true, ◌+◌, ◌*◌, ◌<◌, ◌^◌, ◌∷◌, ◌≡◌, ◌≤◌};
ghost use Rattle.table_pieces.specs.Labels.{AreBefore, AreLabels, IsPlace, bit, edge_at, is_before, joins, mask_of, number_or_none, numbered};

use mesh_types::Cut;

// So many cuts are looked at one by one before the others are searched.
const STEPS: usize = 8;

/// The numbers of the labels 0 to 9, and the set of the edges that are cut. A label that the set has not
/// has the number 0.
#[derive(Clone, Copy)]
pub(crate) struct Labels {
    pub(crate) numbers: [u32; 10],
    pub(crate) mask: u8,
}

/// The labels of the tetrahedron with these corners, where the cuts' new points are numbered from
/// `first` on.
pub(crate) fn labels_of(cuts: &[Cut], first: u32, corners: [u32; 4]) -> Labels
    requires room { first + length cuts.now < 2 ^ 32 }
    requires ordered { Ordered (map ends_of cuts.now) }
    requires rise { Rises corners }
    ensures { AreLabels first cuts.now corners result.numbers result.mask }
{
    let [a, b, c, d] = corners;
    let place_ab = place_of(cuts, 0, a, b);
    let place_ac = place_near(cuts, place_ab, a, c);
    let place_ad = place_near(cuts, place_ac, a, d);
    let place_bc = place_of(cuts, place_ad, b, c);
    let place_bd = place_near(cuts, place_bc, b, d);
    let place_cd = place_of(cuts, place_bd, c, d);
    let ab = point_at(cuts, first, place_ab, a, b);
    let ac = point_at(cuts, first, place_ac, a, c);
    let ad = point_at(cuts, first, place_ad, a, d);
    let bc = point_at(cuts, first, place_bc, b, c);
    let bd = point_at(cuts, first, place_bd, b, d);
    let cd = point_at(cuts, first, place_cd, c, d);
    Labels {
        numbers: [
            a,
            b,
            c,
            d,
            number(ab),
            number(ac),
            number(ad),
            number(bc),
            number(bd),
            number(cd),
        ],
        mask: mask(ab, ac, ad, bc, bd, cd),
    }
}

/// The number of the new point of the cut from u to v, if there is one, by the place of the first cut
/// that is not before it.
fn point_at(cuts: &[Cut], first: u32, place: usize, u: u32, v: u32) -> Option<u32>
    requires room { first + length cuts.now < 2 ^ 32 }
    requires ordered { Ordered (map ends_of cuts.now) }
    requires place { IsPlace u v cuts.now place }
    ensures { filter (joins u v) (numbered first cuts.now) ≡ edge_at u v result }
{
    if place < cuts.len() && cuts[place].u == u && cuts[place].v == v {
        Some(first + place as u32)
    } else {
        None
    }
}

/// The place of the first cut that is not before one from u to v, as those before `from` are, where it
/// is likely to be close to `from`.
fn place_near(cuts: &[Cut], from: usize, u: u32, v: u32) -> usize
    requires ordered { Ordered (map ends_of cuts.now) }
    requires within { from ≤ length cuts.now }
    requires passed { AreBefore u v cuts.now from }
    ensures bound { result ≤ length cuts.now }
    ensures place { IsPlace u v cuts.now result }
{
    let end = from + (cuts.len() - from).min(STEPS);
    for place in from..end {
        if !comes_before(&cuts[place], u, v) {
            return place;
        }
    }
    place_of(cuts, end, u, v)
}

/// The place of the first cut that is not before one from u to v, as those before `from` are.
fn place_of(cuts: &[Cut], from: usize, u: u32, v: u32) -> usize
    requires ordered { Ordered (map ends_of cuts.now) }
    requires within { from ≤ length cuts.now }
    requires passed { AreBefore u v cuts.now from }
    ensures bound { result ≤ length cuts.now }
    ensures place { IsPlace u v cuts.now result }
{
    let rest = &cuts[from..];
    from + rest.partition_point(
        |cut: &Cut| -> bool
            ensures { result ≡ is_before u v cut.now }
        { comes_before(cut, u, v) },
    )
}

fn comes_before(cut: &Cut, u: u32, v: u32) -> bool
    ensures { result ≡ is_before u v cut.now }
{
    both_ends(cut.u, cut.v) < both_ends(u, v)
}

// Both ends as one number, so that a search compares once.
fn both_ends(u: u32, v: u32) -> u64
    ensures { result ≡ u * 2 ^ 32 + v }
{
    u64::from(u) * 0x1_0000_0000 + u64::from(v)
}

fn number(point: Option<u32>) -> u32
    ensures { result ≡ number_or_none point }
{
    match point {
        Some(k) => k,
        None => 0,
    }
}

/// The mask of the edges that have new points.
fn mask(
    ab: Option<u32>,
    ac: Option<u32>,
    ad: Option<u32>,
    bc: Option<u32>,
    bd: Option<u32>,
    cd: Option<u32>,
) -> u8
    ensures { result ≡ mask_of ab ac ad bc bd cd }
{
    weight(ab, 1) + weight(ac, 2) + weight(ad, 4) + weight(bc, 8) + weight(bd, 16) + weight(cd, 32)
}

fn weight(point: Option<u32>, weight: u8) -> u8
    ensures value { result ≡ bit weight point }
    ensures at_most { result ≤ weight }
{
    if point.is_some() { weight } else { 0 }
}
