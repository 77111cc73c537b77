//! The program `mibs`: an exact solver for bilevel integer programs.
#![tactic(auto)]

use bl_outer::{DirShelf, NoGate, StdSink};
use bl_run::{Status, out_of_memory, run};
use std::alloc::{AllocError, Global};
use std::env;
use std::io::ErrorKind;
use std::process::ExitCode;
use std::rt::Env;

fn main(rt: HostRuntime) -> ExitCode {
    let alloc = rt.alloc();
    let mut files = DirShelf::new(&rt, alloc, "");
    let mut out = StdSink::new(rt.stdout());
    let mut err = StdSink::new(rt.stderr());
    let Status(status) = match words(&rt, alloc) {
        Ok(words) => run(&rt, alloc, &words, &mut files, &mut out, &mut err, &NoGate),
        Err(AllocError) => out_of_memory(&mut err),
    };
    ExitCode::from(status)
}

/// The words after the program's name. Where one of them isn't UTF-8 there are none, so that the
/// words are refused.
fn words<R: Env + AllocGlobal>(rt: &R, alloc: Global) -> Result<Vec<String>, AllocError> {
    let mut words = Vec::new(alloc);
    match env::args(rt) {
        Ok(args) => {
            for word in args.skip(1) {
                words.push(word)?;
            }
            Ok(words)
        }
        Err(error) if error.kind() == ErrorKind::OutOfMemory => Err(AllocError),
        Err(_) => Ok(words),
    }
}
