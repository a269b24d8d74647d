// The keys of tracked faces, each in or out.
ghost use Rattle.grid.specs.Meshes.{Ordered};
ghost use Rattle.grid.specs.Rims.{IsRim, triples_at};
ghost use Rattle.grid.specs.Simplices.{Rises, has, same_triple};
ghost use Rattle.grid.specs.Views.{triples_of};
ghost use Rattle.std.specs.List.{IsDistinct};
ghost use Rattle.std.specs.List.Sorted.{IsPermutation};
ghost use Rattle.std.specs.Prelude.{All, IfOk, IsTrue, None, OnErr, OnOk, Some, [], false, length, take, true, ◌-◌, ◌<◌, ◌^◌, ◌≡◌, ◌≢◌, ◌↔◌};
ghost use Rattle.tracked.specs.Keys.{added_for, entry_at, faces_at, faces_in, is_in, put, state_of};
ghost use Rattle.tracked.specs.Places.{places_of};
ghost use Rattle.tracked.specs.RimEdges.{has_rim_edge, is_rim_edge};

use crate::index::{self, Index};
use grid::{Face, Memory};
use indexmap::IndexMap;
use std::alloc::Global;
use std::marker::Model;

/// What `add` found: the key is in, was out and is in again, or is new.
#[derive(Clone, Copy, Debug, PartialEq, Eq)]
pub enum Added {
    Already,
    Restored,
    New,
}

/// Keys in the order made, each in or out. A key is a rising triple of point numbers. There are fewer
/// than 2^32.
#[derive(Drop)]
pub struct Tracked {
    alloc: Global,
    keys: IndexMap<Face, bool>,
    index: Index,
}

impl Model for Tracked {
    ghost use Rattle.tracked.specs.Keys.{Keys};
    ghost use Rattle.tracked.specs.Places.{IsIndexed};

    ghost Value = { Keys };

    ghost view = { λ t. t.keys.entries };

    ghost invariant = { λ t. IsIndexed t.keys.entries t.index };
}

impl Tracked {
    /// No keys. Takes no memory.
    pub fn new(alloc: Global) -> Tracked
        ensures { result ≡ [] }
    {
        Tracked {
            alloc,
            keys: IndexMap::new(alloc),
            index: IndexMap::new(alloc),
        }
    }

    /// Puts a face in. After Memory, which is also the answer where no more keys can be counted, nothing
    /// changed.
    pub fn add(&mut self, f: Face) -> Result<Added, Memory>
        requires { Rises f.0 }
        ensures answer { IfOk result (λ a. a ≡ added_for (state_of f self.old)) }
        ensures ok { OnOk result (self.new ≡ put f true self.old) }
        ensures err { OnErr result (self.new ≡ self.old) }
    {
        match self.keys.get(&f).copied() {
            None => {
                self.make(f)?;
                Ok(Added::New)
            }
            Some(true) => Ok(Added::Already),
            Some(false) => {
                self.put_back(f);
                Ok(Added::Restored)
            }
        }
    }

    /// Makes a key that is in. After Memory nothing changed.
    fn make(&mut self, f: Face) -> Result<(), Memory>
        requires rises { Rises f.0 }
        requires absent { state_of f self.old ≡ None }
        ensures ok { OnOk result (self.new ≡ put f true self.old) }
        ensures err { OnErr result (self.new ≡ self.old) }
    {
        let [a, b, c] = f.0;
        prove!(a < b && b < c);
        let place = self.keys();
        if place == u32::MAX {
            return Err(Memory);
        }
        index::enter(self.alloc, &mut self.index, &f.0, place)?;
        let Ok(_) = self.keys.insert(f, true) else {
            index::leave_last(&mut self.index, &f.0);
            return Err(Memory);
        };
        Ok(())
    }

    /// Takes out a face that is in.
    pub fn take_out(&mut self, f: Face)
        requires { state_of f self.old ≡ Some true }
        ensures { self.new ≡ put f false self.old }
    {
        match self.keys.insert(f, false) {
            Ok(_) => {}
            Err(_) => unreachable!(),
        }
    }

    /// Puts a key back in that is out.
    pub fn put_back(&mut self, f: Face)
        requires { state_of f self.old ≡ Some false }
        ensures { self.new ≡ put f true self.old }
    {
        match self.keys.insert(f, true) {
            Ok(_) => {}
            Err(_) => unreachable!(),
        }
    }

    /// Removes the newest key.
    pub fn drop_last(&mut self)
        requires { 0 < length self.old }
        ensures { self.new ≡ take (length self.old - 1) self.old }
    {
        if let Some((face, _)) = self.keys.pop() {
            index::leave_last(&mut self.index, &face.0);
        }
    }

    /// Whether a face is in.
    pub fn has(&self, f: Face) -> bool
        ensures { result ≡ is_in f self.now }
    {
        match self.keys.get(&f) {
            Some(is_in) => *is_in,
            None => false,
        }
    }

    /// How many keys there are.
    pub fn keys(&self) -> u32
        ensures { result ≡ length self.now }
    {
        self.keys.len() as u32
    }

    /// The key at a place, counted from 0 in the order made.
    pub fn key(&self, place: u32) -> Face
        requires { place < length self.now }
        ensures { result ≡ (entry_at self.now place).0 }
    {
        match self.keys.get_index(place as usize) {
            Some((face, _)) => *face,
            None => unreachable!(),
        }
    }

    /// Whether the key at a place is in.
    pub fn is_in(&self, place: u32) -> bool
        requires { place < length self.now }
        ensures { result ≡ (entry_at self.now place).1 }
    {
        match self.keys.get_index(place as usize) {
            Some((_, is_in)) => *is_in,
            None => unreachable!(),
        }
    }

    /// Makes `into` the tracked faces that have u, in the order in which their keys were made. After
    /// Memory nothing is said of it.
    pub fn at_point(&self, u: u32, into: &mut Vec<Face>) -> Result<(), Memory>
        ensures { OnOk result (into.new.items ≡ faces_at self.now u) }
    {
        into.clear();
        let places = self.places(u);
        for place in places {
            if self.is_in(*place) {
                into.push(self.key(*place))?;
            }
        }
        Ok(())
    }

    /// How many tracked faces have both u and v.
    pub fn count2(&self, u: u32, v: u32) -> u32
        requires { u ≢ v }
        ensures { result ≡ triples_at (triples_of (faces_in self.now)) u v }
    {
        let places = self.places(u);
        let mut count = 0;
        for place in places {
            if self.is_in(*place) && self.key(*place).has(v) {
                count += 1;
            }
        }
        count
    }

    /// Whether u is a rim point: with some other point, u is in exactly one tracked face.
    pub fn is_rim(&self, u: u32) -> bool
        ensures { IsTrue result ↔ IsRim (triples_of (faces_in self.now)) u }
    {
        let places = self.places(u);
        for place in places {
            if self.is_in(*place) && self.has_rim_edge(&self.key(*place), u) {
                return true;
            }
        }
        false
    }

    /// The places of the keys that have u.
    fn places(&self, u: u32) -> &[u32]
        ensures value { result.now ≡ places_of u 0 self.now }
        ensures within { All (λ i. i < length self.now) result.now }
        ensures few { length result.now < 2 ^ 32 }
    {
        index::find(&self.index, u)
    }

    /// Whether u and another corner are in exactly one tracked face.
    fn has_rim_edge(&self, face: &Face, u: u32) -> bool
        ensures { result ≡ has_rim_edge (triples_of (faces_in self.now)) u face.now.0 }
    {
        face.0.iter().any(|v| self.is_rim_edge(u, *v))
    }

    /// Whether u and another point are in exactly one tracked face.
    fn is_rim_edge(&self, u: u32, v: u32) -> bool
        ensures { result ≡ is_rim_edge (triples_of (faces_in self.now)) u v }
    {
        u != v && self.count2(u, v) == 1
    }

    /// The tracked faces in rising order.
    pub fn list(&self, alloc: Global) -> Result<Vec<Face>, Memory>
        ensures faces { IfOk result (λ v. IsPermutation (faces_in self.now) v.items) }
        ensures ordered { IfOk result (λ v. Ordered (triples_of v.items)) }
    {
        let mut faces = self.faces(alloc)?;
        faces.sort_unstable();
        Ok(faces)
    }

    /// The tracked faces in the order in which their keys were made.
    fn faces(&self, alloc: Global) -> Result<Vec<Face>, Memory>
        ensures faces { IfOk result (λ v. v.items ≡ faces_in self.now) }
        ensures distinct { IfOk result (λ v. IsDistinct same_triple (triples_of v.items)) }
    {
        let mut faces = Vec::new(alloc);
        for (face, is_in) in self.keys.iter() {
            if *is_in {
                faces.push(*face)?;
            }
        }
        Ok(faces)
    }
}
