// The call that works on the calling thread.

ghost use Rattle.std.specs.Prelude.{◌≡◌, [], map, string_bytes, true, None, IfOk};
ghost use Rattle.top_answers.specs.Promises.{around, change, Promises};
ghost use Rattle.top_answers.specs.Seen.{seen};
ghost use Rattle.bench_top.specs.Bench.{may_answer, wording, IsDue};

use crate::found::{answer_of, unasked};
use bench_checks::lines_alone;
use saturn_words::bench_words;
use sc_base::{OutOfMemory, Sink};
use std::alloc::Global;
use top_answers::{Answer, Status, give};

// What is due for these words.
fn answer(alloc: Global, words: &Vec<String>) -> Result<Answer, OutOfMemory>
    ensures { IfOk result (λ answer. IsDue (map string_bytes words.now.items) (seen answer)) }
{
    match bench_words(alloc, words.as_slice()) {
        Ok(asked) => answer_of(alloc, lines_alone(alloc, asked.functions, asked.seed)),
        Err(why) => unasked(why),
    }
}

/// Checks a generated program on the calling thread, and counts what is found. `words` are the program's name and the
/// words of `saturn_bench`. It always returns.
///
/// The seven lines, or the text of help, go to `out`; the line that says why there are none goes to `err`. Either is made
/// whole before its first byte is written. Clean is answered with reports too.
pub fn bench_alone<O: Sink, E: Sink>(
    alloc: Global,
    words: &Vec<String>,
    out: &mut O,
    err: &mut E,
) -> Status
    ensures promises { Promises
        (IsDue (map string_bytes words.now.items))
        (wording (map string_bytes words.now.items))
        (around None [] 0 0)
        (change (O.faults out.old) (O.faults out.new) (O.taken out.old) (O.taken out.new))
        (change (E.faults err.old) (E.faults err.new) (E.taken err.old) (E.taken err.new))
        result }
    // With reports too the answer is Clean, and no file is read.
    ensures kinds { may_answer result ≡ true }
{
    match answer(alloc, words) {
        Ok(answer) => give(&answer, out, err),
        Err(_) => Status::Memory,
    }
}
