// The command `check`, from its files to its status.
ghost use Rattle.std.specs.Prelude.{◌≡◌, IfOk};
ghost use Rattle.cert_check.specs.Faults.{IsFinding};
ghost use Rattle.cert_check.specs.Sound.{IsSound};
ghost use Rattle.tet_words.specs.Facts.{IsCheckJob};
ghost use Rattle.checking.specs.Cases.{IsCase, judged_of};
ghost use Rattle.checking.specs.Checks.{Checks};
ghost use Rattle.checking.specs.Lines.{finding_line};

use crate::case::{Case, read_case};
use crate::finding::{line_of, status_of};
use cert_check::{Finding, verify};
use grid::Memory;
use inputs::refuse;
use mesh_io::{Failed, Folder, Sink, write_all};
use printing::{say, status};
use std::alloc::Global;
use tet_words::CheckJob;

/// A finding, and the line that tells it.
#[derive(Drop)]
struct Told {
    finding: Finding,
    line: Vec<u8>,
}

// Judges a case.
fn judge(alloc: Global, case: &Case, digits: Option<u32>) -> Result<Told, Memory>
    requires { IsCase case.now }
    ensures finding { IfOk result (λ told. IsFinding (judged_of case.now digits) told.finding) }
    ensures sound { IfOk result (λ told. told.finding ≡ Finding.Good → IsSound (judged_of case.now digits)) }
    ensures line { IfOk result (λ told. told.line.items ≡ finding_line told.finding) }
{
    let finding = verify(alloc, &case.soup, &case.mesh, &case.report, digits)?;
    let line = line_of(alloc, finding)?;
    Ok(Told { finding, line })
}

/// Checks the files that the job names, and answers the status: 0 where nothing is wrong, 1 where a fault
/// was found, 3 where a text is refused, 4 where a file could not be read or is not there, 5 where the
/// line could not be written, 6 where memory ran out. No file is written.
pub fn check<F: Folder, O: Sink>(alloc: Global, job: &CheckJob, folder: &mut F, out: &mut O) -> u8
    requires { IsCheckJob job.now }
    ensures { Checks job.now (F.state folder.old) (F.state folder.new) (O.state out.old) (O.state out.new) result }
{
    let case = match read_case(alloc, job, folder) {
        Ok(case) => case,
        Err(issue) => return refuse(issue, out),
    };
    match judge(alloc, &case, job.digits) {
        Ok(told) => match write_all(out, &told.line) {
            Ok(()) => status_of(told.finding),
            Err(Failed) => status::WRITE,
        },
        Err(Memory) => {
            say(out, b"tetsoup: out of memory\n");
            status::MEMORY
        }
    }
}
