// Why inputs do not serve, as it is printed.
ghost use Rattle.std.specs.Prelude.{◌≡◌, ◌++◌, decimal};
ghost use Rattle.printing.specs.Printed.{Says};
ghost use Rattle.inputs.specs.Answers.{issue_line, issue_status};
ghost use Rattle.inputs.specs.Texts.{kind_text};

use crate::issue::InputIssue;
use itoa::Buffer;
use mesh_io::Sink;
use off_text::OffKind;
use printing::{say, say_name, say_three, status};

fn kind_text(kind: OffKind) -> &'static [u8]
    ensures { result.now ≡ kind_text kind }
{
    match kind {
        OffKind::NoKeyword => b": no OFF keyword\n",
        OffKind::OtherKeyword => b": another OFF variant\n",
        OffKind::BadCount => b": bad count\n",
        OffKind::Ended => b": ended early\n",
        OffKind::BadNumber => b": bad number\n",
        OffKind::NotWhole => b": not a whole number\n",
        OffKind::TooLarge => b": number too large\n",
        OffKind::BadIndex => b": no such vertex\n",
        OffKind::ShortFace => b": face of fewer than three corners\n",
        OffKind::TooMany => b": too many\n",
    }
}

// Prints a line with a number in it.
fn say_number<O: Sink>(out: &mut O, before: &[u8], n: u64, behind: &[u8])
    ensures { Says (O.state out.old) (O.state out.new) (before.now ++ (decimal n ++ behind.now)) }
{
    let mut buffer = Buffer::new();
    say_three(out, before, buffer.format(n).as_bytes(), behind);
}

/// Prints why inputs do not serve, and gives the status.
pub fn refuse<O: Sink>(issue: InputIssue, out: &mut O) -> u8
    ensures status { result ≡ issue_status issue.entry }
    ensures line { Says (O.state out.old) (O.state out.new) (issue_line issue.entry) }
{
    match issue {
        InputIssue::Missing(name) => {
            say_name(out, name, b": no such file\n");
            status::READ
        }
        InputIssue::Failed(name) => {
            say_name(out, name, b": read failed\n");
            status::READ
        }
        InputIssue::TooLong(name) => {
            say_name(out, name, b": too long\n");
            status::INPUT
        }
        InputIssue::Off { kind, place } => {
            say_number(out, b"tetsoup: input: byte ", place, kind_text(kind));
            status::INPUT
        }
        InputIssue::TooWide(extent) => {
            say_number(out, b"tetsoup: input: extent ", extent, b" is too wide\n");
            status::INPUT
        }
        InputIssue::Mesh(line) => {
            say_number(out, b"tetsoup: mesh: line ", line, b"\n");
            status::INPUT
        }
        InputIssue::Report(line) => {
            say_number(out, b"tetsoup: report: line ", line, b"\n");
            status::INPUT
        }
        InputIssue::Memory => {
            say(out, b"tetsoup: out of memory\n");
            status::MEMORY
        }
    }
}
