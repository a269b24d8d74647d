// The writes of a run.
ghost use Rattle.std.specs.Option.{option_map};
ghost use Rattle.outputs.specs.Output.{NamesDiffer, Writes, WritesFiles};

use items::{Items, Text};
use mesh_io::{Failed, Folder, Sink, write_all, write_file};
use printing::{say_name, status};

/// A file that is to be written.
#[derive(Drop)]
pub struct OutFile {
    pub name: Text,
    pub text: Items<u8>,
}

/// The files that a run is to write, in this order, and the line that it is to print.
#[derive(Drop)]
pub struct Texts {
    pub files: Items<OutFile>,
    pub line: Items<u8>,
}

// Writes the files in order, up to the first that is not written whole, which is the answer.
fn write_files<'a, F: Folder>(files: &'a [OutFile], folder: &mut F) -> Option<&'a OutFile>
    requires { NamesDiffer files.now }
    ensures { WritesFiles files.now (F.state folder.old) (F.state folder.new) (option_map (λ f. f.now) result) }
{
    for file in files {
        match write_file(folder, file.name.as_str(), file.text.as_slice()) {
            Ok(()) => {}
            Err(Failed) => return Some(file),
        }
    }
    None
}

/// Writes the files and then the line, up to the first that fails.
pub fn write_texts<F: Folder, O: Sink>(texts: &Texts, folder: &mut F, out: &mut O) -> u8
    requires { NamesDiffer texts.now.files }
    ensures { Writes texts.now (F.state folder.old) (F.state folder.new) (O.state out.old) (O.state out.new) result }
{
    if let Some(file) = write_files(texts.files.as_slice(), folder) {
        say_name(out, file.name.as_str(), b": write failed\n");
        return status::WRITE;
    }
    match write_all(out, texts.line.as_slice()) {
        Ok(()) => status::DONE,
        Err(Failed) => status::WRITE,
    }
}
