// The call of `saturn_bench`, which has workers.

ghost use Rattle.std.specs.Prelude.{◌≡◌, [], map, string_bytes, true, None, IfOk};
ghost use Rattle.top_answers.specs.Promises.{around, change, Promises};
ghost use Rattle.top_answers.specs.Seen.{seen};
ghost use Rattle.bench_top.specs.Bench.{may_answer, wording, IsDue};

use crate::found::{answer_of, unasked};
use bench_checks::{lines_alone, lines_by};
use saturn_words::bench_words;
use sc_base::{OutOfMemory, Sink};
use std::alloc::Global;
use std::sync::Wait;
use std::thread::Threads;
use top_answers::{Answer, Status, give};
use work_pool::Gate;

// What is due for these words.
fn answer<R: Threads + Wait + Sync, G: Gate + Sync>(
    rt: &R,
    alloc: Global,
    words: &Vec<String>,
    gate: &G,
) -> Result<Answer, OutOfMemory>
    ensures { IfOk result (λ answer. IsDue (map string_bytes words.now.items) (seen answer)) }
{
    match bench_words(alloc, words.as_slice()) {
        Ok(asked) => {
            if asked.jobs > 1 {
                let lines = lines_by(rt, alloc, asked.functions, asked.seed, asked.jobs, gate);
                answer_of(alloc, lines)
            } else {
                answer_of(alloc, lines_alone(alloc, asked.functions, asked.seed))
            }
        }
        Err(why) => unasked(why),
    }
}

/// Checks a generated program, with as many workers as the words name, and counts what is found; the calling thread is
/// one of the workers, and alone where the words name one. `words` are the program's name and the words of
/// `saturn_bench`; `gate` is told of each function before a worker analyses it. The answer, the bytes and their places are
/// those of `bench_alone`, whatever the number of workers. With more than one worker it may wait for ever: what is
/// promised holds if it returns.
///
/// The seven lines, or the text of help, go to `out`; the line that says why there are none goes to `err`. Either is made
/// whole before its first byte is written. Clean is answered with reports too.
pub fn bench_main<R: Threads + Wait + Sync, O: Sink, E: Sink, G: Gate + Sync>(
    rt: &R,
    alloc: Global,
    words: &Vec<String>,
    out: &mut O,
    err: &mut E,
    gate: &G,
) -> Status
    ensures promises { Promises
        (IsDue (map string_bytes words.now.items))
        (wording (map string_bytes words.now.items))
        (around None [] 0 0)
        (change (O.faults out.old) (O.faults out.new) (O.taken out.old) (O.taken out.new))
        (change (E.faults err.old) (E.faults err.new) (E.taken err.old) (E.taken err.new))
        result }
    // With reports too the answer is Clean, and no file is read.
    ensures kinds { may_answer result ≡ true }
{
    match answer(rt, alloc, words, gate) {
        Ok(answer) => give(&answer, out, err),
        Err(_) => Status::Memory,
    }
}
