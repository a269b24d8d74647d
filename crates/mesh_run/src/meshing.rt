// The commands that mesh a soup: that of a file, and a height field.
ghost use Rattle.std.specs.Prelude.{◌∷◌, ◌++◌, map};
ghost use Rattle.inputs.specs.Placed.{IsBoxed, IsPlacedFor};
ghost use Rattle.outputs.specs.MeshFiles.{IsAsked};
ghost use Rattle.tet_words.specs.Facts.{AreDifferent, IsDemoJob, IsMeshJob};
ghost use Rattle.tet_words.specs.Words.{kept_names};
ghost use Rattle.mesh_run.specs.Meshing.{Demos, Finishes, Meshes};

use crate::height_field::{Field, field_of};
use grid::Memory;
use inputs::{read_soup, refuse};
use mesh_io::{Folder, Sink};
use outputs::{Asked, Names, OutFile, make, write_texts};
use printing::{say, status};
use soup::Soup;
use std::alloc::Global;
use tet_words::{DemoJob, MeshJob};

// What is asked of the mesh of a height field.
const DEMO: Asked = Asked {
    epsilon: 2,
    cells: 4,
    budget: 1000,
    digits: None,
};

// Makes all texts of a mesh, and then writes them.
fn finish<F: Folder, O: Sink>(
    alloc: Global,
    asked: Asked,
    soup: &Soup,
    names: Names,
    first: Vec<OutFile>,
    folder: &mut F,
    out: &mut O,
) -> u8
    requires asked { IsAsked asked }
    requires soup { IsPlacedFor asked.cells soup.now }
    requires boxed { IsBoxed asked.epsilon asked.cells soup.now }
    requires names { AreDifferent (map (λ f. f.name) first.items ++ names.mesh ∷ names.report ∷ kept_names names.kept) }
    ensures { Finishes asked names first.items soup.now (F.state folder.old) (F.state folder.new) (O.state out.old) (O.state out.new) result }
{
    match make(alloc, asked, soup, names, first) {
        Ok(texts) => write_texts(&texts, folder, out),
        Err(Memory) => {
            say(out, b"tetsoup: out of memory\n");
            status::MEMORY
        }
    }
}

/// Meshes the soup of a file.
pub fn mesh<F: Folder, O: Sink>(alloc: Global, job: MeshJob, folder: &mut F, out: &mut O) -> u8
    requires { IsMeshJob job }
    ensures { Meshes job (F.state folder.old) (F.state folder.new) (O.state out.old) (O.state out.new) result }
{
    let asked = Asked {
        epsilon: job.epsilon,
        cells: job.cells,
        budget: job.budget,
        digits: job.digits,
    };
    let input = job.input.as_str();
    let soup = match read_soup(alloc, folder, input, job.digits, job.epsilon, job.cells) {
        Ok(soup) => soup,
        Err(issue) => return refuse(issue, out),
    };
    let names = Names {
        mesh: job.mesh,
        report: job.report,
        kept: job.kept,
    };
    finish(alloc, asked, &soup, names, Vec::new(alloc), folder, out)
}

/// Makes a height field, writes its soup, and meshes it.
pub fn demo<F: Folder, O: Sink>(alloc: Global, job: DemoJob, folder: &mut F, out: &mut O) -> u8
    requires { IsDemoJob job }
    ensures { Demos job (F.state folder.old) (F.state folder.new) (O.state out.old) (O.state out.new) result }
{
    let names = Names {
        mesh: job.mesh,
        report: job.report,
        kept: None,
    };
    match field_of(alloc, job.k, job.seed, job.off) {
        Ok(Field { soup, files }) => finish(alloc, DEMO, &soup, names, files, folder, out),
        Err(Memory) => {
            say(out, b"tetsoup: out of memory\n");
            status::MEMORY
        }
    }
}
