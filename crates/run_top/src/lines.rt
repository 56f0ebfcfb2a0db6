// What is due for what is told of a run.

ghost use Rattle.std.specs.Prelude.{◌≡◌, IfOk};
ghost use Rattle.top_answers.specs.Seen.{seen};
ghost use Rattle.whole_replays.specs.Seen as replay;
ghost use Rattle.run_top.specs.Runs.{due_of_told};

use sc_base::OutOfMemory;
use std::alloc::Global;
use top_answers::{Answer, Status, limit_line, name_line, word_line};
use whole_replays::Told;

/// What the program of this name owes for what is told of the function of that name.
pub(crate) fn answer_of(
    alloc: Global,
    program: &[u8],
    name: &[u8],
    told: Told,
) -> Result<Answer, OutOfMemory>
    ensures { IfOk result (λ answer. seen answer ≡ due_of_told program.now name.now (replay.seen told)) }
{
    match told {
        Told::Run(bytes) => Ok(Answer::Output(Status::Clean, bytes)),
        Told::Twice(twice) => {
            let line = name_line(alloc, program, b"duplicate ", &twice)?;
            Ok(Answer::Errors(Status::Refused, line))
        }
        Told::Beyond(kind, count) => {
            let line = limit_line(alloc, program, kind, count)?;
            Ok(Answer::Errors(Status::Refused, line))
        }
        Told::NoFunction => {
            let line = name_line(alloc, program, b"no function ", name)?;
            Ok(Answer::Errors(Status::Refused, line))
        }
        Told::Skipped => {
            let line = name_line(alloc, program, b"skipped ", name)?;
            Ok(Answer::Errors(Status::Refused, line))
        }
        Told::BadChoice => {
            let line = word_line(alloc, program, b"bad choice")?;
            Ok(Answer::Errors(Status::Refused, line))
        }
    }
}
