// The words of the command line, read by `clap`.

ghost use Rattle.std.specs.Prelude.{◌≡◌, ◌≢◌, ◌⊎◌, ℕ, List, IfOk, IfErr, IsTrue, false, map, string_bytes};
ghost use Rattle.clap.specs.Words.{HasKind};
ghost use Rattle.clap.specs.declared.error.kind.ErrorKind.TheVariants.{DisplayHelp, DisplayVersion};
ghost use Rattle.verify_runs.specs.Words.{faults, Name, HaveNoFile};

use clap::error::ErrorKind;
use clap::{Arg, ArgAction, Command, Error};
use std::alloc::Global;

/// What `--version` tells.
const VERSION: &str = "2026.12";

/// Why the words name no file.
#[derive(Debug, Drop)]
pub enum NoFile {
    /// They ask for help, or for the version: the text of it.
    Help(String),
    /// They are not of the form: the text that says so.
    Bad(String),
    /// Memory was refused.
    Memory,
}

// Whether it is no fault but a call for help, or for the version.
fn is_call(kind: ErrorKind) -> bool
    ensures call { IsTrue result → (kind ≡ DisplayHelp) ⊎ (kind ≡ DisplayVersion) }
    ensures fault { result ≡ false → (kind ≢ DisplayHelp) × (kind ≢ DisplayVersion) }
{
    kind == ErrorKind::DisplayHelp || kind == ErrorKind::DisplayVersion
}

// Why a parse gave no matches.
fn no_file(alloc: Global, error: &Error) -> NoFile
    ensures { (words : List (List ℕ)) → HasKind (faults words) error.now → HaveNoFile words result }
{
    if error.kind() == ErrorKind::OutOfMemory {
        return NoFile::Memory;
    }
    match error.to_string(alloc) {
        Ok(text) => {
            if is_call(error.kind()) {
                NoFile::Help(text)
            } else {
                NoFile::Bad(text)
            }
        }
        Err(_) => NoFile::Memory,
    }
}

/// The file that the words name.
pub fn file_named<'a>(alloc: Global, words: &'a [String]) -> Result<&'a str, NoFile>
    ensures named { IfOk result (λ name. Name (map string_bytes words.entry.now) name.now) }
    ensures none { IfErr result (HaveNoFile (map string_bytes words.entry.now)) }
{
    let file = Arg::new(alloc, "FILE")
        .required(true)
        .action(ArgAction::Set);
    let bare = Command::new(alloc, "saturn_verify").version(VERSION);
    let command = match bare.arg(file) {
        Ok(command) => command,
        Err(_) => return Err(NoFile::Memory),
    };
    match command.try_get_matches_from(words) {
        Ok(matches) => Ok(matches.get_str("FILE").unwrap()),
        Err(error) => Err(no_file(alloc, &error)),
    }
}
