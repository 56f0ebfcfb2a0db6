// What the words of a command line ask for, and how it is read from what `clap` found for each argument.

ghost use Rattle.std.specs.Prelude.{◌≡◌, ◌≤◌, IfSome, Some, codes, map, option_map};
ghost use Rattle.clap.specs.Words.{first_of, found_of, rows_of, all_of};
ghost use Rattle.saturn_words.specs.Words.{number_or, widths_of, format_of, HaveOptions, HaveCheck, HaveRun, HaveBench};

use clap::ArgMatches;
use sc_tree::ctype::Widths;
use std::alloc::Global;

/// What `saturn_check` and `saturn_run` have in common.
#[derive(Debug, Drop)]
pub struct Options<'a> {
    /// So many turns of a loop are run at most.
    pub depth: u32,
    /// Over so many pointers in a row objects at entry are reached.
    pub reach: u32,
    /// The widths of `long` and of pointers.
    pub widths: Widths,
    /// The file of the machine of states, if one is named.
    pub machine: Option<&'a str>,
    /// The files, in order. There is at least one.
    pub files: Vec<&'a str>,
}

/// The form of what is said of the files, or of a run.
#[derive(Clone, Copy, Debug, PartialEq, Eq)]
pub enum Format {
    /// The text of the whole check, or of the run.
    Text,
    /// The same as one value of JSON.
    Json,
}

/// What the words of `saturn_check` ask for.
#[derive(Debug, Drop)]
pub struct CheckWords<'a> {
    pub options: Options<'a>,
    /// The form of the output.
    pub format: Format,
    /// How many workers there are.
    pub jobs: u32,
}

/// What the words of `saturn_run` ask for.
#[derive(Debug, Drop)]
pub struct RunWords<'a> {
    pub options: Options<'a>,
    /// The form of the output.
    pub format: Format,
    /// The name of the function that is run.
    pub function: &'a str,
    /// The choice, in hexadecimal digits.
    pub choice: &'a str,
}

/// What the words of `saturn_bench` ask for.
#[derive(Clone, Copy, Debug, PartialEq, Eq)]
pub struct BenchWords {
    /// How many functions are made.
    pub functions: u32,
    /// The number that says of which kinds they are.
    pub seed: u32,
    /// How many workers there are.
    pub jobs: u32,
}

// The number of this argument, or `default` if the words do not have it. None does not come: `clap` has read the text
// as a number of this size before.
fn number_or(matches: &ArgMatches<'_>, name: &str, default: u32) -> Option<u32>
    ensures { IfSome result (λ n. n ≡ number_or default name.now (rows_of (found_of matches.now))) }
{
    match matches.try_get_one::<u32>(name) {
        Ok(Some(n)) => Some(n),
        Ok(None) => Some(default),
        Err(_) => None,
    }
}

// The same, of a number within bounds, which `clap` has tested.
fn number_between(
    matches: &ArgMatches<'_>,
    name: &str,
    default: u32,
    low: u32,
    high: u32,
) -> Option<u32>
    ensures value { IfSome result (λ n. n ≡ number_or default name.now (rows_of (found_of matches.now))) }
    ensures fits { IfSome result (λ n. (low ≤ n) × (n ≤ high)) }
{
    let n = number_or(matches, name, default)?;
    if low <= n && n <= high { Some(n) } else { None }
}

fn widths_of(word: Option<&str>) -> Widths
    ensures { result ≡ widths_of (option_map (λ text. text.now) word.entry) }
{
    match word {
        Some(word) => {
            if word == "lp64" {
                Widths::Lp64
            } else {
                Widths::Ilp32
            }
        }
        None => Widths::Ilp32,
    }
}

fn format_of(word: Option<&str>) -> Format
    ensures { result ≡ format_of (option_map (λ text. text.now) word.entry) }
{
    match word {
        Some(word) => {
            if word == "json" {
                Format::Json
            } else {
                Format::Text
            }
        }
        None => Format::Text,
    }
}

// The files that the words name. None where memory is refused.
fn files_of<'a>(alloc: Global, matches: &ArgMatches<'a>) -> Option<Vec<&'a str>>
    ensures { IfSome result (λ files. Some (map (λ name. name.now) files.items)
        ≡ all_of (codes "FILE") (rows_of (found_of matches.now))) }
{
    match matches.get_strs("FILE")?.to_vec(alloc) {
        Ok(files) => Some(files),
        Err(_) => None,
    }
}

fn options_of<'a>(alloc: Global, matches: &ArgMatches<'a>) -> Option<Options<'a>>
    ensures { IfSome result (HaveOptions (rows_of (found_of matches.now))) }
{
    let depth = number_between(matches, "depth", 2, 1, 8)?;
    let reach = number_between(matches, "reach", 2, 1, 4)?;
    let files = files_of(alloc, matches)?;
    Some(Options {
        depth,
        reach,
        widths: widths_of(matches.get_str("model")),
        machine: matches.get_str("machine"),
        files,
    })
}

/// What was found for the arguments of `saturn_check`. None where memory is refused.
pub fn check_of<'a>(alloc: Global, matches: &ArgMatches<'a>) -> Option<CheckWords<'a>>
    ensures { IfSome result (HaveCheck (rows_of (found_of matches.now))) }
{
    let options = options_of(alloc, matches)?;
    let jobs = number_between(matches, "jobs", 1, 1, 64)?;
    Some(CheckWords {
        options,
        format: format_of(matches.get_str("format")),
        jobs,
    })
}

/// What was found for the arguments of `saturn_run`. None where memory is refused.
pub fn run_of<'a>(alloc: Global, matches: &ArgMatches<'a>) -> Option<RunWords<'a>>
    ensures { IfSome result (HaveRun (rows_of (found_of matches.now))) }
{
    let options = options_of(alloc, matches)?;
    let function = matches.get_str("function")?;
    let choice = matches.get_str("choice")?;
    let format = format_of(matches.get_str("format"));
    Some(RunWords {
        options,
        format,
        function,
        choice,
    })
}

/// What was found for the arguments of `saturn_bench`.
pub fn bench_of(matches: &ArgMatches<'_>) -> Option<BenchWords>
    ensures { IfSome result (HaveBench (rows_of (found_of matches.now))) }
{
    let functions = number_between(matches, "N", 1, 1, 4096)?;
    let seed = number_or(matches, "SEED", 0)?;
    let jobs = number_between(matches, "jobs", 1, 1, 64)?;
    Some(BenchWords {
        functions,
        seed,
        jobs,
    })
}
