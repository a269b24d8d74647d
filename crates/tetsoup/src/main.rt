//! The command line: real files, the standard output and the words that the program was started with.
#![tactic(auto)]

use mesh_io::{RealFolder, RealSink};
use mesh_run::run;
use std::env;
use std::io::ErrorKind;
use std::process::ExitCode;

const WORDS: u8 = 2;

const MEMORY: u8 = 6;

fn main(rt: HostRuntime) -> ExitCode {
    let args = match env::args(&rt) {
        Ok(args) => args,
        Err(error) if error.kind() == ErrorKind::OutOfMemory => return ExitCode::from(MEMORY),
        Err(_) => return ExitCode::from(WORDS),
    };
    let mut texts = Vec::new(rt.alloc());
    for text in args.skip(1) {
        if texts.push(text).is_err() {
            return ExitCode::from(MEMORY);
        }
    }
    let mut words = Vec::new(rt.alloc());
    for text in &texts {
        if words.push(text.as_str()).is_err() {
            return ExitCode::from(MEMORY);
        }
    }
    let mut folder = RealFolder::new(&rt);
    let mut out = RealSink::new(&rt);
    ExitCode::from(run(rt.alloc(), &words, &mut folder, &mut out))
}
