//! The top calls of the measured check: words in, lines of counts and a status out.
//!
//! `alone` has the call that works on the calling thread, `workers` the call of `saturn_bench`, and `found` what both
//! have in common. They read the words (`saturn_words`), count what a check of the generated program finds
//! (`bench_checks`) or make the line of a refusal, and write (`top_answers`). `specs/Bench.antt` says which answer is due
//! when.
#![tactic(auto)]

mod alone;
mod found;
mod workers;

pub use alone::bench_alone;
pub use bench_checks::generated;
pub use workers::bench_main;
