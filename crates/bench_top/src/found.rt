// What is due, for a generated program and for words that ask for nothing.

ghost use Rattle.std.specs.Prelude.{◌≡◌, ℕ, List, IfErr, IfOk, Some};
ghost use Rattle.top_answers.specs.Seen.{seen};
ghost use Rattle.bench_checks.specs.Bench.{AreLines, HasNoProgram};
ghost use Rattle.bench_top.specs.Bench.{due_of, AskNothing, IsDue, IsFound};

use bench_checks::NoProgram;
use saturn_words::NoWords;
use sc_base::OutOfMemory;
use std::alloc::Global;
use top_answers::{Answer, Status, limit_line, name_line, refused};

// What is due where there is no program.
fn without_program(alloc: Global, why: NoProgram) -> Result<Answer, OutOfMemory>
    ensures { IfOk result (λ answer. due_of why ≡ Some (seen answer)) }
{
    match why {
        NoProgram::Refused(why) => refused(alloc, b"saturn_bench", why),
        NoProgram::Twice(name) => {
            let line = name_line(alloc, b"saturn_bench", b"duplicate ", &name)?;
            Ok(Answer::Errors(Status::Refused, line))
        }
        NoProgram::Beyond(kind, count) => {
            let line = limit_line(alloc, b"saturn_bench", kind, count)?;
            Ok(Answer::Errors(Status::Refused, line))
        }
        NoProgram::OutOfMemory => Err(OutOfMemory),
    }
}

/// What is due for a generated program: these are its lines, or why there is none.
pub fn answer_of(alloc: Global, lines: Result<Vec<u8>, NoProgram>) -> Result<Answer, OutOfMemory>
    ensures { (count seed : ℕ) → IfOk lines (λ t. AreLines count seed t.items) → IfErr lines (HasNoProgram count seed)
        → IfOk result (λ answer. IsFound count seed (seen answer)) }
{
    match lines {
        Ok(lines) => Ok(Answer::Output(Status::Clean, lines)),
        Err(why) => without_program(alloc, why),
    }
}

/// What is due where the words ask for nothing.
pub fn unasked(why: NoWords) -> Result<Answer, OutOfMemory>
    ensures { IfOk result (λ answer. (words : List (List ℕ)) → AskNothing words why → IsDue words (seen answer)) }
{
    match why {
        NoWords::Help(text) => Ok(Answer::Output(Status::Helped, text.into_bytes())),
        NoWords::Bad(text) => Ok(Answer::Errors(Status::BadWords, text.into_bytes())),
        NoWords::Memory => Err(OutOfMemory),
    }
}
