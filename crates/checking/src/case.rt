// What is to be checked.
ghost use Rattle.std.specs.Prelude.{IfOk};
ghost use Rattle.inputs.specs.Answers.{Reads};
ghost use Rattle.tet_words.specs.Facts.{IsCheckJob};
ghost use Rattle.checking.specs.Cases.{IsCase, check_inputs};

use inputs::{InputIssue, place_soup, read_mesh, read_raw, read_report};
use mesh_io::Folder;
use msh_text::MshMesh;
use report_text::Report;
use soup::Soup;
use std::alloc::Global;
use tet_words::CheckJob;

/// A mesh file and its report, and the soup in the box that the report's numbers ask for.
#[derive(Debug, Drop)]
pub struct Case {
    pub soup: Soup,
    pub mesh: MshMesh,
    pub report: Report,
}

/// Reads what is to be checked: the soup, the mesh and the report, in this order.
pub fn read_case<'a, F: Folder>(
    alloc: Global,
    job: &'a CheckJob,
    folder: &mut F,
) -> Result<Case, InputIssue<'a>>
    requires { IsCheckJob job.now }
    ensures reads { Reads (check_inputs job.now) (F.state folder.old) (F.state folder.new) result }
    ensures case { IfOk result IsCase }
{
    let digits = job.digits.unwrap_or(0);
    let raw = match read_raw(alloc, folder, job.input.as_str(), job.digits) {
        Ok(raw) => raw,
        Err(issue) => return Err(issue),
    };
    let mesh = match read_mesh(alloc, folder, job.mesh.as_str(), digits) {
        Ok(mesh) => mesh,
        Err(issue) => return Err(issue),
    };
    let report = match read_report(alloc, folder, job.report.as_str()) {
        Ok(report) => report,
        Err(issue) => return Err(issue),
    };
    match place_soup(alloc, &raw, report.epsilon, report.cells) {
        Ok(soup) => Ok(Case { soup, mesh, report }),
        Err(issue) => Err(issue),
    }
}
