// What is due where the files are refused.

ghost use Rattle.std.specs.Prelude.{◌≡◌, IfOk, Some};
ghost use Rattle.top_answers.specs.Refusals.{due_of_refusal, refused_with};
ghost use Rattle.top_answers.specs.Lines.{at_place};
ghost use Rattle.top_answers.specs.Seen.{seen};

use crate::answer::Answer;
use crate::lines::{limit_line, machine_line, name_line, place_line};
use crate::status::Status;
use sc_base::{LimitKind, OutOfMemory, Pos};
use sc_input::Refusal;
use std::alloc::Global;

// What the program of this name owes where a place of a file is refused for what this word says.
fn placed(
    alloc: Global,
    program: &[u8],
    name: &str,
    pos: Pos,
    word: &[u8],
) -> Result<Answer, OutOfMemory>
    ensures { IfOk result (λ answer. seen answer ≡ refused_with program.now (at_place name.now pos word.now)) }
{
    let line = place_line(alloc, program, name.as_bytes(), pos, word)?;
    Ok(Answer::Errors(Status::Refused, line))
}

/// What the program of this name owes where there is no input.
///
/// # Errors
///
/// `OutOfMemory` where memory is refused, or was refused before.
pub fn refused(alloc: Global, program: &[u8], why: Refusal<'_>) -> Result<Answer, OutOfMemory>
    ensures { IfOk result (λ answer. due_of_refusal program.now why.entry ≡ Some (seen answer)) }
{
    match why {
        Refusal::Files(count) => {
            let line = limit_line(alloc, program, LimitKind::Files, count)?;
            Ok(Answer::Errors(Status::Refused, line))
        }
        Refusal::Unread(name) => {
            let line = name_line(alloc, program, b"cannot read ", name.as_bytes())?;
            Ok(Answer::Errors(Status::ReadFault, line))
        }
        Refusal::Bytes => {
            let line = limit_line(alloc, program, LimitKind::Input, 8_388_609)?;
            Ok(Answer::Errors(Status::Refused, line))
        }
        Refusal::Machine(number) => {
            let line = machine_line(alloc, program, number)?;
            Ok(Answer::Errors(Status::Refused, line))
        }
        Refusal::Lexical(name, pos) => placed(alloc, program, name, pos, b"lexical"),
        Refusal::Unbalanced(name, pos) => placed(alloc, program, name, pos, b"unbalanced"),
        Refusal::OutOfMemory => Err(OutOfMemory),
    }
}
