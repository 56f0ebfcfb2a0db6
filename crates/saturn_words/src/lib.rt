// The words of the command line of `saturn_check`, `saturn_run` and `saturn_bench`: what they ask for, or the text that
// says why they ask for nothing. They are read by `clap`, as simple commands.
#![tactic(auto)]

mod asked;
mod commands;
mod words;

pub use asked::{BenchWords, CheckWords, Format, Options, RunWords};
pub use words::{NoWords, bench_words, check_words, run_words};
