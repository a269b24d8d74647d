// The program: its words, and the command that they name.
ghost use Rattle.std.specs.Prelude.{map};
ghost use Rattle.mesh_run.specs.Run.{Answers};

use crate::meshing::{demo, mesh};
use checking::check;
use mesh_io::{Folder, Sink};
use printing::{say, say_three, status};
use std::alloc::Global;
use tet_words::{Job, WordsIssue, parse};

/// Does what the words ask for, over the files of a folder and an output, and answers the status.
///
/// The words are those of the command line without the program's name. Statuses: 0 done, 1 a check found a
/// fault, 2 the words are refused, 3 an input is refused, 4 an input could not be read or is not there, 5 a
/// write failed, 6 memory ran out. One line is printed, which says what was done or why not. Nothing is
/// created before all texts are ready in memory.
pub fn run<F: Folder, O: Sink>(alloc: Global, words: &[&str], folder: &mut F, out: &mut O) -> u8
    ensures { Answers (map (λ w. w.now) words.now) (F.state folder.old) (F.state folder.new) (O.state out.old) (O.state out.new) result }
{
    match parse(alloc, words) {
        Ok(Job::Mesh(job)) => mesh(alloc, job, folder, out),
        Ok(Job::Check(job)) => check(alloc, &job, folder, out),
        Ok(Job::Demo(job)) => demo(alloc, job, folder, out),
        Err(WordsIssue::Refused(fault)) => {
            say_three(out, b"tetsoup: words: ", fault.text().as_bytes(), b"\n");
            status::WORDS
        }
        Err(WordsIssue::Memory) => {
            say(out, b"tetsoup: out of memory\n");
            status::MEMORY
        }
    }
}
