// What the words of a command line ask for, read by `clap`.

ghost use Rattle.std.specs.Prelude.{◌≡◌, ◌≢◌, ◌⊎◌, ℕ, List, IfOk, IfErr, IsTrue, false, map, string_bytes};
ghost use Rattle.clap.specs.Words.{App, Row, HasKind};
ghost use Rattle.clap.specs.declared.error.kind.ErrorKind.TheVariants.{DisplayHelp, DisplayVersion};
ghost use Rattle.saturn_words.specs.Commands.{IsCheck, IsRun, IsBench};
ghost use Rattle.saturn_words.specs.Words.{faults, AskForNothing, Give, HaveBench, HaveCheck, HaveRun};

use crate::asked::{BenchWords, CheckWords, RunWords, bench_of, check_of, run_of};
use crate::commands::{bench_command, check_command, run_command};
use clap::Error;
use clap::error::ErrorKind;
use std::alloc::Global;

/// Why the words ask for nothing.
#[derive(Debug, Drop)]
pub enum NoWords {
    /// They call for help, or for the version: the text of it.
    Help(String),
    /// They are not of the form: the text that says so.
    Bad(String),
    /// Memory was refused.
    Memory,
}

// The words of `--model`.
static MODELS: [&str; 2] = ["ilp32", "lp64"];

// The words of `--format`.
static FORMATS: [&str; 2] = ["text", "json"];

// Whether it is no fault but a call for help, or for the version.
fn is_call(kind: ErrorKind) -> bool
    ensures call { IsTrue result → (kind ≡ DisplayHelp) ⊎ (kind ≡ DisplayVersion) }
    ensures fault { result ≡ false → (kind ≢ DisplayHelp) × (kind ≢ DisplayVersion) }
{
    kind == ErrorKind::DisplayHelp || kind == ErrorKind::DisplayVersion
}

// Why a parse found nothing.
fn no_words(alloc: Global, error: &Error) -> NoWords
    ensures { (command : App) (words : List (List ℕ)) → HasKind (faults command words) error.now
        → AskForNothing command words result }
{
    if error.kind() == ErrorKind::OutOfMemory {
        return NoWords::Memory;
    }
    match error.to_string(alloc) {
        Ok(text) => {
            if is_call(error.kind()) {
                NoWords::Help(text)
            } else {
                NoWords::Bad(text)
            }
        }
        Err(_) => NoWords::Memory,
    }
}

/// What the words of `saturn_check` ask for; the first word is the program's name.
pub fn check_words<'a>(alloc: Global, words: &'a [String]) -> Result<CheckWords<'a>, NoWords>
    ensures asked { IfOk result (λ asked. (command : App) × IsCheck command
        × (rows : List Row) × Give command (map string_bytes words.entry.now) rows × HaveCheck rows asked) }
    ensures nothing { IfErr result (λ why. (command : App) × IsCheck command
        × AskForNothing command (map string_bytes words.entry.now) why) }
{
    let command = match check_command(alloc, MODELS.as_slice(), FORMATS.as_slice()) {
        Ok(command) => command,
        Err(_) => return Err(NoWords::Memory),
    };
    match command.try_get_matches_from(words) {
        Ok(matches) => match check_of(alloc, &matches) {
            Some(asked) => Ok(asked),
            None => Err(NoWords::Memory),
        },
        Err(error) => Err(no_words(alloc, &error)),
    }
}

/// What the words of `saturn_run` ask for; the first word is the program's name.
pub fn run_words<'a>(alloc: Global, words: &'a [String]) -> Result<RunWords<'a>, NoWords>
    ensures asked { IfOk result (λ asked. (command : App) × IsRun command
        × (rows : List Row) × Give command (map string_bytes words.entry.now) rows × HaveRun rows asked) }
    ensures nothing { IfErr result (λ why. (command : App) × IsRun command
        × AskForNothing command (map string_bytes words.entry.now) why) }
{
    let command = match run_command(alloc, MODELS.as_slice(), FORMATS.as_slice()) {
        Ok(command) => command,
        Err(_) => return Err(NoWords::Memory),
    };
    match command.try_get_matches_from(words) {
        Ok(matches) => match run_of(alloc, &matches) {
            Some(asked) => Ok(asked),
            None => Err(NoWords::Memory),
        },
        Err(error) => Err(no_words(alloc, &error)),
    }
}

/// What the words of `saturn_bench` ask for; the first word is the program's name.
pub fn bench_words(alloc: Global, words: &[String]) -> Result<BenchWords, NoWords>
    ensures asked { IfOk result (λ asked. (command : App) × IsBench command
        × (rows : List Row) × Give command (map string_bytes words.now) rows × HaveBench rows asked) }
    ensures nothing { IfErr result (λ why. (command : App) × IsBench command
        × AskForNothing command (map string_bytes words.now) why) }
{
    let command = match bench_command(alloc) {
        Ok(command) => command,
        Err(_) => return Err(NoWords::Memory),
    };
    match command.try_get_matches_from(words) {
        Ok(matches) => match bench_of(&matches) {
            Some(asked) => Ok(asked),
            None => Err(NoWords::Memory),
        },
        Err(error) => Err(no_words(alloc, &error)),
    }
}
