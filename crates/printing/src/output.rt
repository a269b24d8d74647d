// Lines that are printed. That one cannot be written changes nothing of the answer.
ghost use Rattle.std.specs.Prelude.{◌≡◌, ◌++◌, codes};
ghost use Rattle.printing.specs.Printed.{Says, named};

use mesh_io::{Failed, Sink, write_all};

/// Prints a line.
pub fn say<O: Sink>(out: &mut O, line: &[u8])
    ensures { Says (O.state out.old) (O.state out.new) line.now }
{
    let _ = write_all(out, line);
}

/// Prints a line of two parts.
pub fn say_two<O: Sink>(out: &mut O, first: &[u8], second: &[u8])
    ensures { Says (O.state out.old) (O.state out.new) (first.now ++ second.now) }
{
    match write_all(out, first) {
        Ok(()) => say(out, second),
        Err(Failed) => {}
    }
}

/// Prints a line of three parts.
pub fn say_three<O: Sink>(out: &mut O, first: &[u8], second: &[u8], third: &[u8])
    ensures { Says (O.state out.old) (O.state out.new) (first.now ++ (second.now ++ third.now)) }
{
    match write_all(out, first) {
        Ok(()) => say_two(out, second, third),
        Err(Failed) => {}
    }
}

/// Prints a line that names a file.
pub fn say_name<O: Sink>(out: &mut O, name: &str, rest: &[u8])
    ensures { Says (O.state out.old) (O.state out.new) (named name.now rest.now) }
{
    say_three(out, b"tetsoup: ", name.as_bytes(), rest)
}
