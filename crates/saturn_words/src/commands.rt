// The commands of the programs, as `clap` is told of them. `specs/Commands.antt` has the same, without the texts of
// help.

ghost use Rattle.std.specs.Prelude.{◌≡◌, [], IfOk, false};
ghost use Rattle.clap.specs.Words.{app_of, rule_of};
ghost use Rattle.saturn_words.specs.Commands.{text_option, needed_option, number_option, word_option};
ghost use Rattle.saturn_words.specs.Commands.{number_argument, files_argument};
ghost use Rattle.saturn_words.specs.Commands.{command, options, check_command, run_command, bench_command};

use clap::builder::ValueParser;
use clap::{Arg, ArgAction, Command};
use std::alloc::{AllocError, Global};

// ---- arguments

fn text_option<'a>(alloc: Global, name: &'a str, help: &'a str) -> Arg<'a>
    ensures rule { rule_of result ≡ text_option name.entry.now }
    ensures local { result.global ≡ false }
{
    Arg::new(alloc, name)
        .long(name)
        .action(ArgAction::Set)
        .help(help)
}

fn needed_option<'a>(alloc: Global, name: &'a str, help: &'a str) -> Arg<'a>
    ensures rule { rule_of result ≡ needed_option name.entry.now }
    ensures local { result.global ≡ false }
{
    Arg::new(alloc, name)
        .long(name)
        .action(ArgAction::Set)
        .required(true)
        .help(help)
}

fn number_option<'a>(alloc: Global, name: &'a str, low: i64, high: i64, help: &'a str) -> Arg<'a>
    ensures rule { rule_of result ≡ number_option name.entry.now low high }
    ensures local { result.global ≡ false }
{
    Arg::new(alloc, name)
        .long(name)
        .action(ArgAction::Set)
        .value_parser(ValueParser::signed(low, high))
        .help(help)
}

fn word_option<'a>(alloc: Global, name: &'a str, choices: &'a [&'a str], help: &'a str) -> Arg<'a>
    ensures rule { rule_of result ≡ word_option name.entry.now choices.entry }
    ensures local { result.global ≡ false }
{
    Arg::new(alloc, name)
        .long(name)
        .action(ArgAction::Set)
        .value_parser(choices)
        .help(help)
}

fn number_argument<'a>(alloc: Global, name: &'a str, low: i64, high: i64, help: &'a str) -> Arg<'a>
    ensures rule { rule_of result ≡ number_argument name.entry.now low high }
    ensures local { result.global ≡ false }
{
    Arg::new(alloc, name)
        .required(true)
        .action(ArgAction::Set)
        .value_parser(ValueParser::signed(low, high))
        .help(help)
}

fn files_argument<'a>(alloc: Global) -> Arg<'a>
    ensures rule { rule_of result ≡ files_argument }
    ensures local { result.global ≡ false }
{
    Arg::new(alloc, "FILE")
        .required(true)
        .action(ArgAction::Append)
        .num_args(1..)
        .help("the files, in order")
}

// ---- commands

// What `--version` tells.
const VERSION: &str = "2026.12";

// A command that tells its version, and ends its help with this text.
fn named<'a>(alloc: Global, name: &'a str, end: &'a str) -> Command<'a>
    ensures { app_of result ≡ command name.entry.now [] }
{
    Command::new(alloc, name).version(VERSION).after_help(end)
}

fn with_options<'a>(
    alloc: Global,
    name: &'a str,
    models: &'a [&'a str],
    end: &'a str,
) -> Result<Command<'a>, AllocError>
    ensures { IfOk result (λ made. app_of made ≡ command name.entry.now (options models.entry [])) }
{
    named(alloc, name, end)
        .arg(number_option(
            alloc,
            "depth",
            1,
            8,
            "how many turns of a loop are run, from 1 to 8 (2)",
        ))?
        .arg(number_option(
            alloc,
            "reach",
            1,
            4,
            "over how many pointers objects are reached at entry, from 1 to 4 (2)",
        ))?
        .arg(word_option(
            alloc,
            "model",
            models,
            "the widths of long and of pointers (ilp32)",
        ))?
        .arg(text_option(
            alloc,
            "machine",
            "a file with a machine of states, in place of locks",
        ))
}

const CHECK_END: &str = "Status:
  0  there is no report, or help was asked for
  1  there is a report
  2  the files are refused, for the reason in the line on standard error
  3  the words are not of the form
  4  a file could not be read
  5  not all bytes could be written
  6  memory was refused, and nothing was written

Example:
  saturn_check --model lp64 driver.c";

/// The command of `saturn_check`.
pub fn check_command<'a>(
    alloc: Global,
    models: &'a [&'a str],
    formats: &'a [&'a str],
) -> Result<Command<'a>, AllocError>
    ensures { IfOk result (λ made. app_of made ≡ check_command models.entry formats.entry) }
{
    with_options(alloc, "saturn_check", models, CHECK_END)?
        .arg(word_option(alloc, "format", formats, "the form of the output (text)"))?
        .arg(number_option(
            alloc,
            "jobs",
            1,
            64,
            "how many workers there are, from 1 to 64 (1)",
        ))?
        .arg(files_argument(alloc))
}

const RUN_END: &str = "Status:
  0  the run was written, or help was asked for
  2  the files, the function or the choice are refused, for the reason in the line on standard error
  3  the words are not of the form
  4  a file could not be read
  5  not all bytes could be written
  6  memory was refused, and nothing was written

Example:
  saturn_run --function open_device --choice 86 driver.c";

/// The command of `saturn_run`.
pub fn run_command<'a>(
    alloc: Global,
    models: &'a [&'a str],
    formats: &'a [&'a str],
) -> Result<Command<'a>, AllocError>
    ensures { IfOk result (λ made. app_of made ≡ run_command models.entry formats.entry) }
{
    with_options(alloc, "saturn_run", models, RUN_END)?
        .arg(word_option(alloc, "format", formats, "the form of the output (text)"))?
        .arg(needed_option(alloc, "function", "the name of the function that is run"))?
        .arg(needed_option(
            alloc,
            "choice",
            "the choice that it is run on, in hexadecimal digits",
        ))?
        .arg(files_argument(alloc))
}

const BENCH_END: &str = "Status:
  0  the counts were written, or help was asked for
  3  the words are not of the form
  5  not all bytes could be written
  6  memory was refused, and nothing was written

Example:
  saturn_bench --jobs 4 2000 7";

/// The command of `saturn_bench`.
pub fn bench_command<'a>(alloc: Global) -> Result<Command<'a>, AllocError>
    ensures { IfOk result (λ made. app_of made ≡ bench_command) }
{
    named(alloc, "saturn_bench", BENCH_END)
        .arg(number_option(
            alloc,
            "jobs",
            1,
            64,
            "how many workers there are, from 1 to 64 (1)",
        ))?
        .arg(number_argument(
            alloc,
            "N",
            1,
            4096,
            "how many functions are made, from 1 to 4096",
        ))?
        .arg(number_argument(
            alloc,
            "SEED",
            0,
            4_294_967_295,
            "a number that says of which kinds they are",
        ))
}
