// The place of a file in a folder in memory.
ghost use Rattle.std.specs.Prelude.{◌≡◌, ◌<◌, ◌+◌, ◌^◌, ◌++◌, ◌∷◌, [], None, OnOk, OnErr, MatchOption, length, take, drop, min};
ghost use Rattle.std.specs.Option.{option_map};
ghost use Rattle.mesh_io.specs.MemFiles.{lookup, bytes_at};
ghost use Rattle.mesh_io.specs.MemPlace.{HasName, place_of, put, restart};

use crate::mem_file::MemFile;
use items::{Items, Text};
use std::alloc::{AllocError, Global};

// A file by its number in the list, and a place in it.
#[derive(Clone, Copy)]
pub(crate) struct Place {
    pub file: usize,
    pub at: usize,
}

// The number of the file of that name.
pub(crate) fn find(files: &[MemFile], name: &str) -> Option<usize>
    ensures { MatchOption result (lookup files.now name.now ≡ None) (λ i. HasName files.now i name.now) }
{
    for (i, file) in files.iter().enumerate() {
        if file.name.as_str() == name {
            return Some(i);
        }
    }
    None
}

// The reading place after the file with that number was emptied.
pub(crate) fn restart(reading: Option<Place>, file: usize) -> Option<Place>
    ensures { option_map place_of result ≡ restart (option_map place_of reading) file }
{
    match reading {
        Some(place) => {
            if place.file == file {
                Some(Place { file, at: 0 })
            } else {
                Some(place)
            }
        }
        None => None,
    }
}

// Copies the next bytes of a content, `chunk` at most, to the front of `into`.
pub(crate) fn copy_some(content: &[u8], at: usize, chunk: usize, into: &mut [u8]) -> usize
    ensures count { result ≡ min (min (length (drop at content.now)) (length into.new)) chunk }
    ensures bytes { take result into.new ≡ take result (drop at content.now) }
    ensures room { at + result < 2 ^ 64 }
{
    let left = content.get(at..).unwrap_or(&[]);
    let count = left.len().min(into.len()).min(chunk);
    into[..count].copy_from_slice(&left[..count]);
    count
}

// Adds bytes at the end of a file.
pub(crate) fn append(files: &mut Vec<MemFile>, at: usize, bytes: &[u8]) -> Result<(), AllocError>
    requires { at < length files.old.items }
    ensures ok { OnOk result (files.new.items ≡ put files.old.items at (bytes_at files.old.items at ++ bytes.now)) }
    ensures err { OnErr result (files.new.items ≡ files.old.items) }
{
    files[at].bytes.extend_from_slice(bytes)
}

// Drops the content of a file.
pub(crate) fn empty(files: &mut Vec<MemFile>, at: usize)
    requires { at < length files.old.items }
    ensures { files.new.items ≡ put files.old.items at [] }
{
    files[at].bytes.clear();
}

// Adds an empty file behind the others.
pub(crate) fn add(alloc: Global, files: &mut Vec<MemFile>, name: &str) -> Result<(), AllocError>
    ensures ok { OnOk result (files.new.items ≡ files.old.items ++ record { name = name.now; bytes = [] } ∷ []) }
    ensures err { OnErr result (files.new.items ≡ files.old.items) }
{
    let name = Text::from_string(String::from_str(alloc, name)?);
    let bytes = Items::new(alloc);
    files.push(MemFile { name, bytes })?;
    Ok(())
}
