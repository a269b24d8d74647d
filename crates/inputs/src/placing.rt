// A soup, placed in its box.
ghost use Rattle.std.specs.Prelude.{◌≤◌, IfOk, IfSome};
ghost use Rattle.grid.specs.Limits.{IsCells, most_epsilon};
ghost use Rattle.mesh_io.specs.Folder.{FolderState};
ghost use Rattle.soup.specs.Limits.{IsRaw};
ghost use Rattle.inputs.specs.Answers.{Reads};
ghost use Rattle.inputs.specs.Placed.{IsBoxed, IsPlacedFor};
ghost use Rattle.inputs.specs.Texts.{placed_soup, soup_file};

use crate::issue::InputIssue;
use crate::reading::read_raw;
use mesh_io::Folder;
use soup::{PlaceIssue, Raw, Soup, place};
use std::alloc::Global;

/// Places a soup in its box, for an epsilon in grid steps and so many cells along each axis.
pub fn place_soup<'a>(
    alloc: Global,
    raw: &Raw,
    epsilon: u32,
    cells: u32,
) -> Result<Soup, InputIssue<'a>>
    requires raw { IsRaw raw.now }
    requires epsilon { (1 ≤ epsilon) × (epsilon ≤ most_epsilon) }
    requires cells { IsCells cells }
    ensures places { (s : FolderState) → Reads (placed_soup epsilon cells raw.now) s s result }
    ensures placed { IfOk result (IsPlacedFor cells) }
    ensures boxed { IfOk result (IsBoxed epsilon cells) }
{
    match place(alloc, raw, epsilon, cells) {
        Ok(soup) => Ok(soup),
        Err(PlaceIssue::TooWide(extent)) => Err(InputIssue::TooWide(extent)),
        Err(PlaceIssue::Memory) => Err(InputIssue::Memory),
    }
}

/// Reads the soup of a file and places it in its box.
pub fn read_soup<'a, F: Folder>(
    alloc: Global,
    folder: &mut F,
    name: &'a str,
    digits: Option<u32>,
    epsilon: u32,
    cells: u32,
) -> Result<Soup, InputIssue<'a>>
    requires epsilon { (1 ≤ epsilon) × (epsilon ≤ most_epsilon) }
    requires cells { IsCells cells }
    requires digits { IfSome digits (λ d. d ≤ 5) }
    ensures reads { Reads (soup_file name.now digits epsilon cells) (F.state folder.old) (F.state folder.new) result }
    ensures placed { IfOk result (IsPlacedFor cells) }
    ensures boxed { IfOk result (IsBoxed epsilon cells) }
{
    match read_raw(alloc, folder, name, digits) {
        Ok(raw) => place_soup(alloc, &raw, epsilon, cells),
        Err(issue) => Err(issue),
    }
}
