// Verdicts that are seen without making the try.
ghost use Rattle.grid.specs.Limits.{most_points, most_made};
ghost use Rattle.grid.specs.declared.shapes.Tri.{Tri};
ghost use Rattle.local_ops.specs.Attempts.{may_go};
ghost use Rattle.local_ops.specs.Foreseen.{IsAim, IsSight};
ghost use Rattle.mesh_store.specs.Parts.{mesh_in};
ghost use Rattle.mesh_store.specs.Sound.{IsSoundStore};
ghost use Rattle.mesh_types.specs.Journals.{AllPositive, NoFaceTwice, setting};
ghost use Rattle.mesh_types.specs.Results.{result_of};
ghost use Rattle.mesh_types.specs.Tries.{is_candidate};
ghost use Rattle.mesh_types.specs.Verdicts.{IsSingle};
ghost use Rattle.std.specs.Prelude.{IfOk, IsTrue, List, length, nat_abs, true, ℕ, ◌*◌, ◌+◌, ◌<◌, ◌^◌, ◌≡◌, ◌≤◌};
ghost use Rattle.tet_slots.specs.Searches.{numbers_of};

use crate::apart::are_apart;
use crate::moving::{are_better, are_positive};
use crate::smoothing::{midpoint, target};
use crate::swapping::{are_three_positive, sides_of_face};
use crate::worsening::is_seen_worse;
use grid::{MOST_MADE, MOST_POINTS, Memory, Point};
use mesh_store::Store;
use mesh_types::{Try, Why};
use std::alloc::Global;
use tet_slots::Slots;

/// What is seen of a try before it is made.
#[derive(Clone, Copy)]
pub(crate) enum Sight {
    /// The reason to refuse it.
    Refused(Why),
    /// Only its tracked faces can speak against it.
    Better,
    /// Nothing.
    Unseen,
}

/// What is seen of a try that is not refused before. `near` are the slots that it may kill, and `once`
/// says that no oriented face of the mesh occurs twice.
pub(crate) fn foresee(
    alloc: Global,
    store: &Store,
    attempt: Try,
    near: &[u32],
    once: bool,
) -> Result<Sight, Memory>
    requires sound { IsSoundStore store.now.side store.now.parts }
    requires candidate { is_candidate (mesh_in store.now.parts).tets attempt ≡ true }
    requires positive { AllPositive (mesh_in store.now.parts) }
    requires near { near.now ≡ numbers_of (may_go attempt) 0 store.now.parts.slots }
    requires once { IsTrue once → NoFaceTwice (mesh_in store.now.parts) }
    ensures { (triangles : List Tri) (e : ℕ) → IfOk result (IsSight (setting triangles e store.now.side) (mesh_in store.now.parts) attempt) }
{
    match attempt {
        Try::Split(u, v) => Ok(see_split(store, u, v, near, once)),
        Try::Shift(u, way) => see_shift(alloc, store, u, way, near, once),
        Try::Collapse(u, v) => see_collapse(alloc, store, u, v, near, once),
        Try::FaceSwap(a, b, c) => see_face_swap(alloc, store, a, b, c, near, once),
        Try::EdgeSwap(..) => Ok(Sight::Unseen),
    }
}

fn see_split(store: &Store, u: u32, v: u32, near: &[u32], once: bool) -> Sight
    requires sound { IsSoundStore store.now.side store.now.parts }
    requires candidate { is_candidate (mesh_in store.now.parts).tets (Try.Split u v) ≡ true }
    requires positive { AllPositive (mesh_in store.now.parts) }
    requires near { near.now ≡ numbers_of (may_go (Try.Split u v)) 0 store.now.parts.slots }
    requires once { IsTrue once → NoFaceTwice (mesh_in store.now.parts) }
    ensures { (triangles : List Tri) (e : ℕ) → IsSight (setting triangles e store.now.side) (mesh_in store.now.parts) (Try.Split u v) result }
{
    let at = midpoint(store.slots().point(u), store.slots().point(v));
    sight_at(store, Try::Split(u, v), near, at, once)
}

fn see_shift(
    alloc: Global,
    store: &Store,
    u: u32,
    way: u8,
    near: &[u32],
    once: bool,
) -> Result<Sight, Memory>
    requires sound { IsSoundStore store.now.side store.now.parts }
    requires candidate { is_candidate (mesh_in store.now.parts).tets (Try.Shift u way) ≡ true }
    requires positive { AllPositive (mesh_in store.now.parts) }
    requires near { near.now ≡ numbers_of (may_go (Try.Shift u way)) 0 store.now.parts.slots }
    requires once { IsTrue once → NoFaceTwice (mesh_in store.now.parts) }
    ensures { (triangles : List Tri) (e : ℕ) → IfOk result (IsSight (setting triangles e store.now.side) (mesh_in store.now.parts) (Try.Shift u way)) }
{
    let at = target(alloc, store, u, way)?;
    Ok(sight_at(store, Try::Shift(u, way), near, at, once))
}

fn see_collapse(
    alloc: Global,
    store: &Store,
    u: u32,
    v: u32,
    near: &[u32],
    once: bool,
) -> Result<Sight, Memory>
    requires sound { IsSoundStore store.now.side store.now.parts }
    requires candidate { is_candidate (mesh_in store.now.parts).tets (Try.Collapse u v) ≡ true }
    requires positive { AllPositive (mesh_in store.now.parts) }
    requires near { near.now ≡ numbers_of (may_go (Try.Collapse u v)) 0 store.now.parts.slots }
    requires once { IsTrue once → NoFaceTwice (mesh_in store.now.parts) }
    ensures { (triangles : List Tri) (e : ℕ) → IfOk result (IsSight (setting triangles e store.now.side) (mesh_in store.now.parts) (Try.Collapse u v)) }
{
    let at = store.slots().point(v);
    match sight_at(store, Try::Collapse(u, v), near, at, false) {
        Sight::Refused(why) => Ok(Sight::Refused(why)),
        Sight::Better | Sight::Unseen => {
            if !once {
                return Ok(Sight::Unseen);
            }
            let single = are_apart(alloc, store.slots(), near, u, v)?;
            Ok(sight_at(store, Try::Collapse(u, v), near, at, single))
        }
    }
}

fn see_face_swap(
    alloc: Global,
    store: &Store,
    a: u32,
    b: u32,
    c: u32,
    near: &[u32],
    once: bool,
) -> Result<Sight, Memory>
    requires sound { IsSoundStore store.now.side store.now.parts }
    requires positive { AllPositive (mesh_in store.now.parts) }
    requires near { near.now ≡ numbers_of (may_go (Try.FaceSwap a b c)) 0 store.now.parts.slots }
    requires once { IsTrue once → NoFaceTwice (mesh_in store.now.parts) }
    ensures { (triangles : List Tri) (e : ℕ) → IfOk result (IsSight (setting triangles e store.now.side) (mesh_in store.now.parts) (Try.FaceSwap a b c)) }
{
    let slots = store.slots();
    let Some(sides) = sides_of_face(slots, near, a, b, c) else {
        return Ok(Sight::Unseen);
    };
    if !has_room_for_three(slots) {
        return Ok(Sight::Unseen);
    }
    if !are_three_positive(slots, slots.tet(sides.first), a, b, c, sides.apex) {
        return Ok(Sight::Refused(Why::Inverted));
    }
    if !once {
        return Ok(Sight::Unseen);
    }
    if is_seen_worse(alloc, slots, sides, a, b, c)? {
        Ok(Sight::Refused(Why::Worse))
    } else {
        Ok(Sight::Unseen)
    }
}

/// What is seen of a try whose new corners are at this point. `single` says that no oriented face of its
/// new tetrahedra would occur twice.
fn sight_at(store: &Store, attempt: Try, near: &[u32], at: Point, single: bool) -> Sight
    requires sound { IsSoundStore store.now.side store.now.parts }
    requires positive { AllPositive (mesh_in store.now.parts) }
    requires near { near.now ≡ numbers_of (may_go attempt) 0 store.now.parts.slots }
    requires aim { IsAim (nat_abs store.now.side) store.now.parts attempt at }
    requires single { IsTrue single → IsSingle (result_of (nat_abs store.now.side) (mesh_in store.now.parts) attempt) }
    ensures { (triangles : List Tri) (e : ℕ) → IsSight (setting triangles e store.now.side) (mesh_in store.now.parts) attempt result }
{
    let slots = store.slots();
    if !has_room(slots, near) {
        return Sight::Unseen;
    }
    if !are_positive(slots, attempt, near, at) {
        return Sight::Refused(Why::Inverted);
    }
    if !single {
        return Sight::Unseen;
    }
    if are_better(slots, attempt, near, at) {
        Sight::Better
    } else {
        Sight::Refused(Why::Worse)
    }
}

/// Whether three tetrahedra more pass no limit.
fn has_room_for_three(slots: &Slots) -> bool
    ensures { IsTrue result → length slots.now.slots + 3 ≤ most_made }
{
    slots.made() as u64 + 3 <= u64::from(MOST_MADE)
}

/// Whether one point more, and two tetrahedra for each of these slots, pass no limit.
fn has_room(slots: &Slots, near: &[u32]) -> bool
    requires few { length near.now ≤ 2 ^ 31 }
    ensures points { IsTrue result → length slots.now.points < most_points }
    ensures made { IsTrue result → length slots.now.slots + 2 * length near.now ≤ most_made }
{
    if slots.points() >= MOST_POINTS {
        return false;
    }
    slots.made() as u64 + 2 * near.len() as u64 <= u64::from(MOST_MADE)
}
