// Tests of the sides of the box.
ghost use Rattle.grid.specs.Determinants.{point_at};
ghost use Rattle.grid.specs.SideBits.{side_bits};
ghost use Rattle.mesh_store.specs.Parts.{mesh_in};
ghost use Rattle.mesh_store.specs.Sound.{IsSoundStore};
ghost use Rattle.mesh_types.specs.Tries.{is_candidate};
ghost use Rattle.mesh_types.specs.Verdicts.{PassesBox, ShareNoSide, StaysOnSides};
ghost use Rattle.std.specs.Prelude.{IsTrue, length, nat_abs, pos, true, ◌<◌, ◌≡◌, ◌↔◌};

use grid::sides;
use mesh_store::Store;
use mesh_types::Try;

/// Whether the try takes nothing off a side of the box.
pub(crate) fn keeps_sides(store: &Store, attempt: Try) -> bool
    requires sound { IsSoundStore store.now.side store.now.parts }
    requires candidate { is_candidate (mesh_in store.now.parts).tets attempt ≡ true }
    ensures { IsTrue result ↔ PassesBox (nat_abs store.now.side) (mesh_in store.now.parts) attempt }
{
    match attempt {
        Try::Collapse(u, v) => stays_on_sides(store, u, v),
        Try::EdgeSwap(u, v) => share_no_side(store, u, v),
        Try::Split(..) | Try::Shift(..) | Try::FaceSwap(..) => true,
    }
}

/// Whether v lies on each side that u lies on.
fn stays_on_sides(store: &Store, u: u32, v: u32) -> bool
    requires u_there { u < length store.now.parts.points }
    requires v_there { v < length store.now.parts.points }
    ensures { IsTrue result ↔ StaysOnSides (nat_abs store.now.side) (mesh_in store.now.parts) u v }
{
    let of_u = sides_of(store, u);
    of_u & sides_of(store, v) == of_u
}

/// Whether no side has both u and v.
fn share_no_side(store: &Store, u: u32, v: u32) -> bool
    requires u_there { u < length store.now.parts.points }
    requires v_there { v < length store.now.parts.points }
    ensures { IsTrue result ↔ ShareNoSide (nat_abs store.now.side) (mesh_in store.now.parts) u v }
{
    sides_of(store, u) & sides_of(store, v) == 0
}

/// The sides that u lies on, as bits.
fn sides_of(store: &Store, u: u32) -> u8
    requires { u < length store.now.parts.points }
    ensures value { result ≡ side_bits (pos (nat_abs store.now.side)) (point_at store.now.parts.points u) }
    ensures six { result < 64 }
{
    sides(store.slots().point(u), store.side())
}
