// The law that a soup has one mesh.
ghost use Rattle.mesher.specs.Meshed.{OneMesh};

/// States that a soup, an epsilon, a number of cells and a budget have one mesh, one list of outcomes, one
/// journal, one second part or none, and one list of certificates, and does nothing.
pub fn one_mesh_law()
    ensures { OneMesh }
{}
