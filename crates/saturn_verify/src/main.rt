// The checker of certificates as a program: `saturn_verify FILE` reads a formula with the steps that are to refute
// it, and writes `verified C S`, the numbers of clauses and steps, or `rejected K`, the first step that is not
// allowed. `verify_main` of `verify_runs` has its contract; nothing is decided here.
#![tactic(auto)]

use sc_base::{RealFiles, RealSink};
use std::io::ErrorKind;
use std::process::ExitCode;
use std::{env, io};
use verify_runs::{Verified, verify_main};

// The words of the command line, the program's name first.
fn command_line(rt: &HostRuntime) -> io::Result<Vec<String>> {
    Ok(env::args(rt)?.collect(rt.alloc())?)
}

fn run(rt: &HostRuntime) -> Verified {
    let words = match command_line(rt) {
        Ok(words) => words,
        Err(e) => {
            if e.kind() == ErrorKind::OutOfMemory {
                return Verified::Memory;
            }
            // A word that is not text is a bad word, as none at all.
            Vec::new(rt.alloc())
        }
    };
    let mut files = RealFiles::new(rt);
    let mut out = RealSink::new(rt.stdout());
    let mut err = RealSink::new(rt.stderr());
    verify_main(rt.alloc(), &words, &mut files, &mut out, &mut err)
}

fn main(rt: HostRuntime) -> ExitCode {
    ExitCode::from(run(&rt).number())
}
