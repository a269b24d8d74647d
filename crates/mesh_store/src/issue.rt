// Why a change is refused.
ghost use Rattle.mesh_store.specs.declared.issue.StoreIssue.TheVariants.{Memory as out_of_memory};
ghost use Rattle.std.specs.Prelude.{◌≡◌};

use grid::Memory;
use thiserror::Error;

/// Why a change was refused.
#[derive(Clone, Copy, Debug, PartialEq, Eq, Error)]
pub enum StoreIssue {
    /// The mesh would pass a limit: 2^20 points, or 2^22 tetrahedra ever made.
    #[error("the mesh is full")]
    Full,
    /// Memory has run out.
    #[error("out of memory")]
    Memory,
}

impl From<Memory> for StoreIssue {
    ghost from_gives = { λ _ issue. issue ≡ out_of_memory };

    fn from(_: Memory) -> StoreIssue {
        StoreIssue::Memory
    }
}
