// The measured check as a program: `saturn_bench [--jobs J] N SEED` checks a generated program of N functions, writes the
// counts that `bench_main` finds, and ends with the number of its status. Nothing is decided here.
#![tactic(auto)]

use bench_top::bench_main;
use sc_base::{OutOfMemory, RealSink};
use std::io::ErrorKind;
use std::process::ExitCode;
use std::{env, io};
use top_answers::Status;
use work_pool::FreeGate;

// The words of the command line, the program's name first. A word that is not text is a bad word, as none at all.
fn words(rt: &HostRuntime) -> Result<Vec<String>, OutOfMemory> {
    match read_words(rt) {
        Ok(words) => Ok(words),
        Err(e) if e.kind() == ErrorKind::OutOfMemory => Err(OutOfMemory),
        Err(_) => Ok(Vec::new(rt.alloc())),
    }
}

fn read_words(rt: &HostRuntime) -> io::Result<Vec<String>> {
    Ok(env::args(rt)?.collect(rt.alloc())?)
}

fn main(rt: HostRuntime) -> ExitCode {
    let Ok(words) = words(&rt) else {
        return ExitCode::from(Status::Memory.number());
    };
    let mut out = RealSink::new(rt.stdout());
    let mut err = RealSink::new(rt.stderr());
    let status = bench_main(&rt, rt.alloc(), &words, &mut out, &mut err, &FreeGate);
    ExitCode::from(status.number())
}
