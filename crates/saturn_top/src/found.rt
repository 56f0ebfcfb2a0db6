// What the calls with and without workers answer alike.

ghost use Rattle.std.specs.Prelude.{◌≡◌, ℕ, List, IfOk};
ghost use Rattle.sc_input.specs.Input.{Outside};
ghost use Rattle.top_answers.specs.Seen.{seen};
ghost use Rattle.json_checks.specs.Seen as whole;
ghost use Rattle.saturn_top.specs.Checks.{due_of_said, IsDue, AskNothing};

use json_checks::Said;
use saturn_words::NoWords;
use sc_base::OutOfMemory;
use std::alloc::Global;
use top_answers::{Answer, Status, limit_line, name_line};

/// What the program of this name owes for what is said of the files.
pub fn answer_of(alloc: Global, program: &[u8], said: Said) -> Result<Answer, OutOfMemory>
    ensures { IfOk result (λ answer. seen answer ≡ due_of_said program.now (whole.said said)) }
{
    match said {
        Said::Whole(text, true) => Ok(Answer::Output(Status::Reports, text)),
        Said::Whole(text, false) => Ok(Answer::Output(Status::Clean, text)),
        Said::Twice(name) => {
            let line = name_line(alloc, program, b"duplicate ", &name)?;
            Ok(Answer::Errors(Status::Refused, line))
        }
        Said::Beyond(kind, count) => {
            let line = limit_line(alloc, program, kind, count)?;
            Ok(Answer::Errors(Status::Refused, line))
        }
    }
}

/// What is due where the words ask for nothing.
pub fn unasked(why: NoWords) -> Result<Answer, OutOfMemory>
    ensures { IfOk result (λ answer. (words : List (List ℕ)) (outside : Outside) → AskNothing words why → IsDue words outside (seen answer)) }
{
    match why {
        NoWords::Help(text) => Ok(Answer::Output(Status::Helped, text.into_bytes())),
        NoWords::Bad(text) => Ok(Answer::Errors(Status::BadWords, text.into_bytes())),
        NoWords::Memory => Err(OutOfMemory),
    }
}
