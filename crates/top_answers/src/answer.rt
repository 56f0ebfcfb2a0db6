// What is due, and how it is given.

ghost use Rattle.std.specs.Prelude.{◌≡◌};
ghost use Rattle.sc_base.specs.Taken.{Went};
ghost use Rattle.top_answers.specs.Answer.{IsAnswered};
ghost use Rattle.top_answers.specs.Seen.{seen};

use crate::status::Status;
use sc_base::Sink;
use transfer::write_all;

/// The status that is due, and the bytes.
#[derive(Debug, Drop)]
pub enum Answer {
    /// The bytes go to the output.
    Output(Status, Vec<u8>),
    /// The bytes go to the error output.
    Errors(Status, Vec<u8>),
}

// Writes the bytes, and answers the status that is due with them.
fn write<S: Sink>(sink: &mut S, due: Status, bytes: &[u8]) -> Status
    ensures { Went due Status.WriteFault result (record { faults_before = S.faults sink.old; faults_after = S.faults sink.new; before = S.taken sink.old; after = S.taken sink.new }) bytes.now }
{
    match write_all(sink, bytes) {
        Ok(()) => due,
        Err(_) => Status::WriteFault,
    }
}

/// Gives the answer that is due.
pub fn give<O: Sink, E: Sink>(answer: &Answer, out: &mut O, err: &mut E) -> Status
    ensures { IsAnswered (seen answer.now) result
        (record { faults_before = O.faults out.old; faults_after = O.faults out.new; before = O.taken out.old; after = O.taken out.new })
        (record { faults_before = E.faults err.old; faults_after = E.faults err.new; before = E.taken err.old; after = E.taken err.new }) }
{
    match answer {
        Answer::Output(due, bytes) => write(out, *due, bytes),
        Answer::Errors(due, bytes) => write(err, *due, bytes),
    }
}
