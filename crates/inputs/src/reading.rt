// Input files, each with its text.
ghost use Rattle.std.specs.Prelude.{◌≤◌, IfOk, IfSome};
ghost use Rattle.soup.specs.Limits.{IsRaw};
ghost use Rattle.msh_text.specs.Rules.{MshRules};
ghost use Rattle.report_text.specs.Answers.{ReportRules};
ghost use Rattle.inputs.specs.Answers.{Reads};
ghost use Rattle.inputs.specs.Readings.{AreBytes, file};
ghost use Rattle.inputs.specs.Texts.{SaysMesh, SaysReport, SaysSoup};

use crate::issue::InputIssue;
use items::Items;
use mesh_io::{Folder, ReadIssue, read_all};
use msh_text::{MshIssue, MshMesh, read_msh};
use off_text::{OffIssue, read_off};
use report_text::{Report, ReportIssue, read_report as report_of};
use soup::Raw;
use std::alloc::Global;

// The most bytes of a file that is read.
const MOST_BYTES: usize = 1 << 30;

// The bytes of a file.
fn bytes_of<'a, F: Folder>(
    alloc: Global,
    folder: &mut F,
    name: &'a str,
) -> Result<Items<u8>, InputIssue<'a>>
    ensures { Reads (file name.now AreBytes) (F.state folder.old) (F.state folder.new) result }
{
    match read_all(alloc, folder, name, MOST_BYTES) {
        Ok(bytes) => Ok(Items::from_vec(bytes)),
        Err(ReadIssue::Missing) => Err(InputIssue::Missing(name)),
        Err(ReadIssue::Failed) => Err(InputIssue::Failed(name)),
        Err(ReadIssue::TooLong) => Err(InputIssue::TooLong(name)),
        Err(ReadIssue::Memory) => Err(InputIssue::Memory),
    }
}

/// Reads the soup of a file. Its coordinates are whole input units, or units of `10^-digits` where digits are
/// given.
pub fn read_raw<'a, F: Folder>(
    alloc: Global,
    folder: &mut F,
    name: &'a str,
    digits: Option<u32>,
) -> Result<Raw, InputIssue<'a>>
    requires { IfSome digits (λ d. d ≤ 5) }
    ensures reads { Reads (file name.now (SaysSoup digits)) (F.state folder.old) (F.state folder.new) result }
    ensures limits { IfOk result IsRaw }
{
    let bytes = match bytes_of(alloc, folder, name) {
        Ok(bytes) => bytes,
        Err(issue) => return Err(issue),
    };
    match read_off(alloc, bytes.as_slice(), digits) {
        Ok(raw) => Ok(raw),
        Err(OffIssue::At { kind, place }) => Err(InputIssue::Off { kind, place }),
        Err(OffIssue::Memory) => Err(InputIssue::Memory),
    }
}

/// Reads the mesh of a file, whose coordinates have `digits` digits behind the point.
pub fn read_mesh<'a, F: Folder>(
    alloc: Global,
    folder: &mut F,
    name: &'a str,
    digits: u32,
) -> Result<MshMesh, InputIssue<'a>>
    requires { digits ≤ 5 }
    ensures reads { Reads (file name.now (SaysMesh digits)) (F.state folder.old) (F.state folder.new) result }
    ensures rules { IfOk result (λ m. MshRules m.digits m) }
{
    let bytes = match bytes_of(alloc, folder, name) {
        Ok(bytes) => bytes,
        Err(issue) => return Err(issue),
    };
    match read_msh(alloc, bytes.as_slice(), digits) {
        Ok(mesh) => Ok(mesh),
        Err(MshIssue::Line(line)) => Err(InputIssue::Mesh(line)),
        Err(MshIssue::Memory) => Err(InputIssue::Memory),
    }
}

/// Reads the report of a file.
pub fn read_report<'a, F: Folder>(
    alloc: Global,
    folder: &mut F,
    name: &'a str,
) -> Result<Report, InputIssue<'a>>
    ensures reads { Reads (file name.now SaysReport) (F.state folder.old) (F.state folder.new) result }
    ensures rules { IfOk result ReportRules }
{
    let bytes = match bytes_of(alloc, folder, name) {
        Ok(bytes) => bytes,
        Err(issue) => return Err(issue),
    };
    match report_of(alloc, bytes.as_slice()) {
        Ok(report) => Ok(report),
        Err(ReportIssue::Line(line)) => Err(InputIssue::Report(line)),
        Err(ReportIssue::Memory) => Err(InputIssue::Memory),
    }
}
