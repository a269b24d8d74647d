// Tracking faces, in an open transaction.
ghost use Rattle.grid.specs.Meshes.{IsTriple};
ghost use Rattle.grid.specs.Views.{triples_of};
ghost use Rattle.mesh_store.specs.Changes.{IsSameTransaction, all_put, with_parts};
ghost use Rattle.std.specs.Prelude.{All, IsSome, OnOk, length, ◌≡◌};

use super::Store;
use grid::{Face, Memory};

impl Store {
    /// Tracks faces, one after another.
    pub(super) fn track_all(&mut self, faces: &[Face]) -> Result<(), Memory>
        requires open { IsSome self.old.at_begin }
        requires triples { All (λ f. IsTriple (length self.old.parts.points) f.0) faces.now }
        ensures ok { OnOk result (self.new ≡ with_parts self.old (all_put (triples_of faces.now) self.old.parts)) }
        ensures goes_on { IsSameTransaction self.old self.new }
    {
        for face in faces {
            self.track_one(*face)?;
        }
        Ok(())
    }
}
