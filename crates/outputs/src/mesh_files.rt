// The texts of an accepted input.
ghost use Rattle.std.specs.Prelude.{◌≡◌, ◌≤◌, ◌≤ℤ◌, ◌*◌, ◌^◌, pos, length, unsigned_abs, ◌++◌, All, IfOk, OnOk};
ghost use Rattle.grid.specs.Boxes.{IsTriInBox};
ghost use Rattle.grid.specs.Limits.{IsSide, largest_side, most_input};
ghost use Rattle.mesher.specs.Meshed.{IsMeshed};
ghost use Rattle.outputs.specs.MeshFiles.{IsAsked, IsMade, files_of, kept_files};

use crate::output::{OutFile, Texts};
use crate::request::{Asked, Names};
use crate::summary::write_summary;
use flood::outside;
use grid::Memory;
use items::{Items, Text};
use mesher::{Meshed, mesh_soup};
use msh_text::{MshMesh, msh_of, write_kept, write_msh};
use report_text::{Report, write_report};
use soup::Soup;
use std::alloc::Global;

/// A file of that name and that text.
pub fn out_file(name: Text, text: Vec<u8>) -> OutFile
    ensures { result ≡ record { name = name; text = text.items } }
{
    OutFile {
        name,
        text: Items::from_vec(text),
    }
}

// Appends the file of the kept part, where it is asked for.
fn push_kept(
    alloc: Global,
    files: &mut Vec<OutFile>,
    kept: Option<Text>,
    file: &MshMesh,
) -> Result<(), Memory>
    requires { file.now.digits ≤ 5 }
    ensures { OnOk result (files.new.items ≡ files.old.items ++ kept_files kept file.now) }
{
    match kept {
        Some(name) => {
            let kept = out_file(name, write_kept(alloc, file)?);
            files.push(kept)?;
            Ok(())
        }
        None => Ok(()),
    }
}

// Appends the files that are written of a mesh and its report.
fn push_files(
    alloc: Global,
    files: &mut Vec<OutFile>,
    names: Names,
    file: &MshMesh,
    report: &Report,
) -> Result<(), Memory>
    requires digits { file.now.digits ≤ 5 }
    requires shift { All (λ s. unsigned_abs s ≤ 2 * 10 ^ 9) report.now.shift }
    ensures { OnOk result (files.new.items ≡ files.old.items ++ files_of names file.now report.now) }
{
    let mesh = out_file(names.mesh, write_msh(alloc, file)?);
    let report = out_file(names.report, write_report(alloc, report)?);
    files.push(mesh)?;
    files.push(report)?;
    push_kept(alloc, files, names.kept, file)?;
    Ok(())
}

fn report_of(asked: Asked, soup: &Soup, made: Meshed) -> Report
    requires side { IsSide soup.now.side }
    ensures { result ≡ Rattle.outputs.specs.MeshFiles.report_of asked soup.now made }
{
    Report {
        epsilon: asked.epsilon,
        cells: asked.cells,
        budget: asked.budget,
        digits: asked.digits,
        side: soup.side,
        shift: soup.shift,
        outcomes: made.outcomes,
        journal: made.journal,
        end: made.end,
        faces: made.faces,
        second: made.second,
    }
}

// The texts of a mesh that was made.
fn texts_of(
    alloc: Global,
    asked: Asked,
    soup: &Soup,
    names: Names,
    first: Vec<OutFile>,
    made: Meshed,
) -> Result<Texts, Memory>
    requires asked { IsAsked asked }
    requires side { IsSide soup.now.side }
    requires shift { All (λ s. unsigned_abs s ≤ 2 * 10 ^ 9) soup.now.shift }
    requires meshed { IsMeshed soup.now asked.epsilon asked.cells asked.budget made }
    ensures { IfOk result (IsMade asked names first.items soup.now) }
{
    let outside = outside(
        alloc,
        made.mesh.tets.as_slice(),
        made.mesh.tracked.as_slice(),
    )?;
    let digits = asked.digits.unwrap_or(0);
    let file = msh_of(alloc, &made.mesh, &outside, soup.shift, digits)?;
    let line = write_summary(alloc, &file, &made)?;
    let report = report_of(asked, soup, made);
    let mut files = first;
    push_files(alloc, &mut files, names, &file, &report)?;
    Ok(Texts {
        files: Items::from_vec(files),
        line: Items::from_vec(line),
    })
}

/// The texts of the mesh of a soup: the files that are there already, then the mesh, its report and, where
/// it is asked for, its kept part, and the line that sums it up.
pub fn make(
    alloc: Global,
    asked: Asked,
    soup: &Soup,
    names: Names,
    first: Vec<OutFile>,
) -> Result<Texts, Memory>
    requires asked { IsAsked asked }
    requires side { IsSide soup.now.side }
    requires room { pos (4 * asked.cells) ≤ℤ soup.now.side }
    requires shift { All (λ s. unsigned_abs s ≤ 2 * 10 ^ 9) soup.now.shift }
    requires few { length soup.now.triangles ≤ most_input }
    requires inside { All (IsTriInBox largest_side) soup.now.triangles }
    ensures { IfOk result (IsMade asked names first.items soup.now) }
{
    let made = mesh_soup(alloc, soup, asked.epsilon, asked.cells, asked.budget)?;
    texts_of(alloc, asked, soup, names, first, made)
}
