// What tetrahedra and faces have in common.
ghost use Rattle.grid.specs.Simplices.{has, replaced};
ghost use Rattle.std.specs.Prelude.{List, ℕ, ◌≡◌};

use grid::{Face, Tet};

/// A tetrahedron or a face, by the numbers of its corners.
pub trait Simplex: Copy {
    ghost corners: { Self → List ℕ };

    /// Whether u is a corner.
    fn has_corner(self, u: u32) -> bool
        ensures { result ≡ has (corners self) u };

    /// The simplex with k in place of the corner u.
    fn with_corner(self, u: u32, k: u32) -> Self
        ensures { corners result ≡ replaced u k (corners self) };
}

impl Simplex for Tet {
    ghost corners = { λ t. t.0 };

    fn has_corner(self, u: u32) -> bool {
        self.has(u)
    }

    fn with_corner(self, u: u32, k: u32) -> Tet {
        self.subst(u, k)
    }
}

impl Simplex for Face {
    ghost corners = { λ f. f.0 };

    fn has_corner(self, u: u32) -> bool {
        self.has(u)
    }

    fn with_corner(self, u: u32, k: u32) -> Face {
        self.subst(u, k)
    }
}
