// The words of the command line, read by `clap`.

use clap::error::ErrorKind;
use clap::{Arg, ArgAction, Command, Error};
use std::alloc::Global;

/// What `--version` tells.
const VERSION: &str = "2026.12";

/// Why nothing is solved.
#[derive(Debug, Drop)]
pub enum NoWork {
    /// The words ask for help, or for the version: the text of it.
    Help(String),
    /// They are not of the form: the text that says so.
    Bad(String),
    /// Memory was refused.
    Memory,
}

// Why a parse gave no matches.
fn no_work(alloc: Global, error: &Error) -> NoWork {
    match error.to_string(alloc) {
        Ok(text) => {
            if error.kind() == ErrorKind::DisplayHelp || error.kind() == ErrorKind::DisplayVersion {
                NoWork::Help(text)
            } else {
                NoWork::Bad(text)
            }
        }
        Err(_) => NoWork::Memory,
    }
}

/// The file that is to get the certificate, if the words name one.
pub fn proof_named<'a>(alloc: Global, words: &'a [String]) -> Result<Option<&'a str>, NoWork> {
    let proof = Arg::new(alloc, "proof")
        .long("proof")
        .action(ArgAction::Set);
    let named = Command::new(alloc, "sat_solve").version(VERSION);
    let command = match named.arg(proof) {
        Ok(command) => command,
        Err(_) => return Err(NoWork::Memory),
    };
    match command.try_get_matches_from(words) {
        Ok(matches) => Ok(matches.get_str("proof")),
        Err(error) => Err(no_work(alloc, &error)),
    }
}
