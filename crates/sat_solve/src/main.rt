// The learning solver as a program: it decides a formula in DIMACS CNF, read from standard input. It writes
// `s SATISFIABLE` with the values of a model and ends with status 10, or `s UNSATISFIABLE` and status 20; after
// `--proof FILE` the file gets a certificate then. Where nothing is decided, it says why and ends with status 1.
#![tactic(auto)]

mod words;

use anyhow::Error;
use cnf_answers::{Certified, Decided, certify, decide, read_formula};
use std::io::{Read, Write};
use std::process::ExitCode;
use std::{env, fs, io};
use words::{NoWork, proof_named};

/// What was found: the lines of the values of a model, or that there is none.
#[derive(Debug, Drop)]
enum Found {
    Model(Vec<u8>),
    NoModel,
}

// The words of the command line, the program's name first.
fn command_line(rt: &HostRuntime) -> io::Result<Vec<String>> {
    Ok(env::args(rt)?.collect(rt.alloc())?)
}

fn input(rt: &HostRuntime) -> io::Result<Vec<u8>> {
    let mut text = Vec::new(rt.alloc());
    rt.reader().read_to_end(&mut text)?;
    Ok(text)
}

// Decides the formula on standard input; a certificate goes to this file.
fn solve(rt: &HostRuntime, proof: Option<&str>) -> Result<Found, Error> {
    let formula = read_formula(rt.alloc(), input(rt)?)?;
    match proof {
        None => match decide(rt.alloc(), &formula)? {
            Decided::Model(values) => Ok(Found::Model(values)),
            Decided::NoModel => Ok(Found::NoModel),
        },
        Some(file) => match certify(rt.alloc(), &formula)? {
            Certified::Model(values) => Ok(Found::Model(values)),
            Certified::Refuted(text) => {
                fs::write(rt, file, &text)?;
                Ok(Found::NoModel)
            }
        },
    }
}

// Solves, writes the answer, and gives the status.
fn answer(rt: &HostRuntime, proof: Option<&str>) -> io::Result<u8> {
    match solve(rt, proof) {
        Ok(Found::Model(values)) => {
            println!(rt; "s SATISFIABLE")?;
            io::writer(rt).write_all(&values)?;
            Ok(10)
        }
        Ok(Found::NoModel) => {
            println!(rt; "s UNSATISFIABLE")?;
            Ok(20)
        }
        Err(error) => {
            println!(rt; "c not decided")?;
            eprintln!(rt; "sat_solve: {error}")?;
            Ok(1)
        }
    }
}

fn run(rt: &HostRuntime) -> io::Result<u8> {
    let words = command_line(rt)?;
    match proof_named(rt.alloc(), words.as_slice()) {
        Ok(proof) => answer(rt, proof),
        Err(NoWork::Help(text)) => {
            print!(rt; "{text}")?;
            Ok(0)
        }
        Err(NoWork::Bad(text)) => {
            eprint!(rt; "{text}")?;
            Ok(1)
        }
        Err(NoWork::Memory) => {
            println!(rt; "c not decided")?;
            Ok(1)
        }
    }
}

fn main(rt: HostRuntime) -> ExitCode {
    match run(&rt) {
        Ok(status) => ExitCode::from(status),
        Err(_) => ExitCode::from(1),
    }
}
