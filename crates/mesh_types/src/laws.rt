// The laws of the definitions: tiling, refinement, envelopes, tries and journals.
ghost use Rattle.mesh_types.specs.Hull.{HullLaw};
ghost use Rattle.mesh_types.specs.InteriorFaces.{InteriorFaceLaw};
ghost use Rattle.mesh_types.specs.Journals.{GoneLaw, JournalLaw, PrefixLaw, StaysSoundLaw};
ghost use Rattle.mesh_types.specs.Outside.{AllOutsideLaw};
ghost use Rattle.mesh_types.specs.Refines.{RefinementLaw, TilingLaw};
ghost use Rattle.mesh_types.specs.Results.{InsideLaw};
ghost use Rattle.mesh_types.specs.Stars.{RimStarLaw, StarLaw};
ghost use Rattle.mesh_types.specs.Turns.{TurnsLaw};
ghost use Rattle.mesh_types.specs.Verdicts.{CoverLaw, TriesLaw, VerdictLaw};

/// States that the envelope of one triangle is convex, and does nothing. Where three points are at
/// distance at most epsilon from one triangle, so is each of their means with whole weights that are
/// not negative. So a face whose corners are all near to one triangle lies in the envelope.
pub fn hull_law()
    ensures { HullLaw }
{}

/// States that refinement keeps meshes sound, and does nothing. Where a mesh is well formed and
/// weaves, so does its refinement by any list of edges whose ends are different points of the mesh
/// and whose new points lie on every side of the box that both ends lie on. The new points may lie
/// anywhere else: pieces may turn over or be flat.
pub fn refinement_law()
    ensures { RefinementLaw }
{}

/// States that a well-formed mesh that tiles the box weaves, and does nothing: no two positive
/// tetrahedra have the same corners where no oriented face occurs twice.
pub fn tiling_law()
    ensures { TilingLaw }
{}

/// States that in a well-formed mesh that tiles the box and tracks no face every tetrahedron is
/// outside, and does nothing: positive tetrahedra cannot close on themselves, so each is reached
/// from a face that has no reverse.
pub fn all_outside_law()
    ensures { AllOutsideLaw }
{}

/// States that in a mesh that tiles the box three corners of a tetrahedron that do not lie on one side
/// of the box are corners of exactly two, and does nothing.
pub fn interior_face_law()
    ensures { InteriorFaceLaw }
{}

/// States that tries keep meshes sound, and does nothing. Where a mesh is well formed and tiles the
/// box, and a candidate of the mesh is kept, the mesh after it is well formed and tiles the box.
pub fn tries_law()
    ensures { TriesLaw }
{}

/// States that tries keep certificates, and does nothing. Where each tracked face of a well-formed
/// mesh has a certificate and a try is kept, each tracked face of the mesh after it has one.
pub fn cover_law()
    ensures { CoverLaw }
{}

/// States that tries stay in the box, and does nothing. Where the points of a mesh lie in the box, so
/// do those of the result of any try.
pub fn inside_law()
    ensures { InsideLaw }
{}

/// States that stars keep meshes sound, and does nothing. Where any set of tetrahedra of a mesh that
/// tiles the box is replaced by the joins of one point with the outer faces of the set, the new mesh
/// tiles the box if the new tetrahedra are positive, none of their oriented faces occurs twice and no
/// tracked face is lost.
pub fn star_law()
    ensures { StarLaw }
{}

/// States the same of stars that join no loose face, and does nothing. Each loose outer face of the
/// set has to lie on one side of the box with the point.
pub fn rim_star_law()
    ensures { RimStarLaw }
{}

/// States that a try has at most one verdict, and does nothing.
pub fn verdict_law()
    ensures { VerdictLaw }
{}

/// States that tries keep what is asked of meshes, and does nothing: after a try of a well-formed mesh,
/// whatever its verdict, the tetrahedra are positive, no oriented face occurs twice, the mesh tiles the
/// box and each tracked face has a certificate, each where that was so before.
pub fn stays_sound_law()
    ensures { StaysSoundLaw }
{}

/// States that what a kept try was about is gone, and does nothing: in a well-formed mesh in which no
/// oriented face occurs twice, a candidate that is kept is no candidate of the mesh after it.
pub fn gone_law()
    ensures { GoneLaw }
{}

/// States that for each mesh and budget there is at most one right journal, and does nothing.
pub fn journal_law()
    ensures { JournalLaw }
{}

/// States that tries which follow the rule are the first of those of the right journal, and does
/// nothing.
pub fn prefix_law()
    ensures { PrefixLaw }
{}

/// States that triangles that are inserted in turn have one list of outcomes and leave one mesh, and
/// does nothing.
pub fn turns_law()
    ensures { TurnsLaw }
{}
