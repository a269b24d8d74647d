// The table that counts oriented faces.
ghost use Rattle.std.specs.Prelude.{◌≡◌, length, ◌+◌, ◌-◌, ◌^◌, ◌<◌, [], ◌∷◌, ◌++◌, OnOk, OnErr, IfOk, unwrap_or};
ghost use Rattle.std.specs.Map.{lookup};
ghost use Rattle.indexmap.specs.IndexMap.{insert_entry};
ghost use Rattle.face_table.specs.Keys.{least_rotation, same_key};
ghost use Rattle.face_table.specs.Occurrences.{occurrences, HaveSameFaces};

use grid::{Face, Memory};
use indexmap::IndexMap;
use std::alloc::Global;
use std::marker::Model;

/// Counts of oriented faces, where rotations are the same face. Contracts see a list of the faces
/// added, whose order and rotations mean nothing.
#[derive(Drop)]
pub struct FaceTable {
    counts: IndexMap<Face, u32>,
}

impl Model for FaceTable {
    ghost use Rattle.std.specs.Prelude.{ℕ, List};
    ghost use Rattle.std.specs.Coded.{coded_list, coded_ℕ};
    ghost use Rattle.face_table.specs.Keys.{faces_of, AreKeys};

    ghost Value = { List (List ℕ) };

    ghost coded = { coded_list (coded_list coded_ℕ) };

    ghost view = { λ t. faces_of t.counts.entries };

    ghost invariant = { λ t. AreKeys t.counts.entries };
}

impl FaceTable {
    /// No faces.
    pub fn new(alloc: Global) -> FaceTable
        ensures { result ≡ [] }
    {
        FaceTable {
            counts: IndexMap::new(alloc),
        }
    }

    /// Counts the face once more.
    ///
    /// # Errors
    /// `Memory`; the table is then unchanged.
    pub fn add(&mut self, face: Face) -> Result<(), Memory>
        requires { occurrences face.0 self.old < 2 ^ 32 - 1 }
        ensures added { OnOk result (HaveSameFaces self.new (self.old ++ face.0 ∷ [])) }
        ensures err { OnErr result (self.new ≡ self.old) }
    {
        self.note(face)?;
        Ok(())
    }

    /// How often the face was added.
    pub fn count(&self, face: Face) -> u32
        ensures { result ≡ occurrences face.0 self.now }
    {
        match self.counts.get(&least(face)) {
            Some(count) => *count,
            None => 0,
        }
    }

    /// Counts the face once more, and says how often it was counted before.
    pub(crate) fn note(&mut self, face: Face) -> Result<u32, Memory>
        requires { occurrences face.0 self.old < 2 ^ 32 - 1 }
        ensures before { IfOk result (λ n. n ≡ occurrences face.0 self.old) }
        ensures added { OnOk result (HaveSameFaces self.new (self.old ++ face.0 ∷ [])) }
        ensures err { OnErr result (self.new ≡ self.old) }
    {
        let before = raise(&mut self.counts, least(face))?;
        Ok(before)
    }
}

/// Adds one to the count of a key, and says what it was before.
fn raise(counts: &mut IndexMap<Face, u32>, key: Face) -> Result<u32, Memory>
    requires { unwrap_or (lookup (same_key key) counts.old.entries) 0 < 2 ^ 32 - 1 }
    ensures before { IfOk result (λ n. n ≡ unwrap_or (lookup (same_key key) counts.old.entries) 0) }
    ensures raised { IfOk result (λ n. counts.new.entries ≡ insert_entry same_key counts.old.entries key (n + 1)) }
    ensures err { OnErr result (counts.new.entries ≡ counts.old.entries) }
{
    let Ok(before) = counts.insert(key, 1) else {
        return Err(Memory);
    };
    let Some(n) = before else {
        return Ok(0);
    };
    match counts.insert(key, n + 1) {
        Ok(_) => Ok(n),
        Err(_) => unreachable!(),
    }
}

/// The least of the three rotations of a face.
fn least(face: Face) -> Face
    ensures key { result.0 ≡ least_rotation face.0 }
    ensures three { length face.0 ≡ 3 }
{
    let Face([a, b, c]) = face;
    face.min(Face([b, c, a])).min(Face([c, a, b]))
}
