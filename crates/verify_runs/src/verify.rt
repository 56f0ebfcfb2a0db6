// The top call of `saturn_verify`: it reads the file that the words name, and writes whether it is a certificate, or
// why there is none.

ghost use Rattle.std.specs.Prelude.{◌≡◌, ◌⊎◌, ℕ, List, [], true, false, map, string_bytes};
ghost use Rattle.sc_base.specs.Causes.{Rose};
ghost use Rattle.sc_base.specs.Held.{is_named};
ghost use Rattle.sc_base.specs.Taken.{Went, Keeps};
ghost use Rattle.verify_runs.specs.Words.{faults, AskForHelp, HaveFault, Name};
ghost use Rattle.verify_runs.specs.Lines.{line_of};
ghost use Rattle.verify_runs.specs.Answer.{Answers, due_for, has_output, is_finding, IsAnswered};

use crate::finding::{Finding, find};
use crate::lines::{line_of, unread_line};
use crate::verified::Verified;
use crate::words::{NoFile, file_named};
use sc_base::{Files, Sink};
use std::alloc::Global;
use transfer::{ReadError, read_file, write_all};

/// Reading ends at this byte: a file has at most one fewer.
const READ_LIMIT: usize = 268_435_457;

// Writes the bytes, and answers what is due with them.
fn say<S: Sink>(sink: &mut S, due: Verified, bytes: &[u8]) -> Verified
    ensures { Went due Verified.WriteFault result (record { faults_before = S.faults sink.old; faults_after = S.faults sink.new; before = S.taken sink.old; after = S.taken sink.new }) bytes.now }
{
    match write_all(sink, bytes) {
        Ok(()) => due,
        Err(_) => Verified::WriteFault,
    }
}

// Writes what the file of this name is.
fn say_finding<O: Sink, E: Sink>(
    name: &str,
    finding: Finding,
    line: &[u8],
    out: &mut O,
    err: &mut E,
) -> Verified
    requires { line.now ≡ line_of name.now finding }
    ensures { IsAnswered (due_for name.now finding) result
        (record { faults_before = O.faults out.old; faults_after = O.faults out.new; before = O.taken out.old; after = O.taken out.new })
        (record { faults_before = E.faults err.old; faults_after = E.faults err.new; before = E.taken err.old; after = E.taken err.new }) }
{
    match finding {
        Finding::TooLong => say(err, Verified::Refused, line),
        Finding::Malformed { line: _ } => say(err, Verified::Refused, line),
        Finding::Accepted {
            clauses: _,
            steps: _,
        } => say(out, Verified::Accepted, line),
        Finding::Rejected { step: _ } => say(out, Verified::Rejected, line),
    }
}

// Verifies the file of this name.
fn verify_file<F: Files, O: Sink, E: Sink>(
    alloc: Global,
    name: &str,
    files: &mut F,
    out: &mut O,
    err: &mut E,
) -> Verified
    ensures { (words : List (List ℕ)) → Name words name.now → Answers words
        (record { held = F.held files.old; firm = F.firm files.old; faults_before = F.faults files.old; faults_after = F.faults files.new })
        result
        (record { faults_before = O.faults out.old; faults_after = O.faults out.new; before = O.taken out.old; after = O.taken out.new })
        (record { faults_before = E.faults err.old; faults_after = E.faults err.new; before = E.taken err.old; after = E.taken err.new }) }
{
    let bytes = match read_file(alloc, files, name, READ_LIMIT) {
        Ok(bytes) => bytes,
        Err(ReadError::Failed) => {
            return match unread_line(alloc, name) {
                Ok(line) => say(err, Verified::ReadFault, &line),
                Err(_) => Verified::Memory,
            };
        }
        Err(ReadError::OutOfMemory) => return Verified::Memory,
    };
    let finding = match find(alloc, bytes) {
        Ok(finding) => finding,
        Err(_) => return Verified::Memory,
    };
    match line_of(alloc, name, finding) {
        Ok(line) => say_finding(name, finding, &line, out, err),
        Err(_) => Verified::Memory,
    }
}

/// Verifies a file: `words` are the program's name and the file's.
///
/// What the file is goes to `out`, as one line; the line of a refusal goes to `err`. Either is made whole before its
/// first byte is written.
pub fn verify_main<F: Files, O: Sink, E: Sink>(
    alloc: Global,
    words: &Vec<String>,
    files: &mut F,
    out: &mut O,
    err: &mut E,
) -> Verified
    // Memory was refused and nothing was written, or the due answer was given: it is the defined one for these words
    // and these bytes, and its bytes went to their sink whole or, where that failed, up to the fault.
    ensures answers { Answers (map string_bytes words.now.items)
        (record { held = F.held files.old; firm = F.firm files.old; faults_before = F.faults files.old; faults_after = F.faults files.new })
        result
        (record { faults_before = O.faults out.old; faults_after = O.faults out.new; before = O.taken out.old; after = O.taken out.new })
        (record { faults_before = E.faults err.old; faults_after = E.faults err.new; before = E.taken err.old; after = E.taken err.new }) }

    // Each answer has its cause.
    ensures bad_words { result ≡ Verified.BadWords → HaveFault (map string_bytes words.now.items) }
    ensures helped { result ≡ Verified.Helped → AskForHelp (map string_bytes words.now.items) }
    ensures read_fault { result ≡ Verified.ReadFault → Rose (F.faults files.old) (F.faults files.new) }
    ensures not_firm { result ≡ Verified.ReadFault → (name : List ℕ) × Name (map string_bytes words.now.items) name × (is_named name (F.firm files.old) ≡ false) }
    ensures write_fault { result ≡ Verified.WriteFault → Rose (O.faults out.old) (O.faults out.new) ⊎ Rose (E.faults err.old) (E.faults err.new) }

    // With good words and no fault the answer says what the file is, or that memory was refused.
    ensures complete { faults (map string_bytes words.now.items) ≡ [] → ¬ Rose (F.faults files.old) (F.faults files.new)
        → ¬ Rose (O.faults out.old) (O.faults out.new) → ¬ Rose (E.faults err.old) (E.faults err.new) → is_finding result ≡ true }

    // Nothing was written to the output with an answer that has no bytes for it.
    ensures quiet { has_output result ≡ false → Keeps (O.taken out.old) (O.taken out.new) }
{
    match file_named(alloc, words.as_slice()) {
        Ok(name) => verify_file(alloc, name, files, out, err),
        Err(NoFile::Help(text)) => say(out, Verified::Helped, text.as_bytes()),
        Err(NoFile::Bad(text)) => say(err, Verified::BadWords, text.as_bytes()),
        Err(NoFile::Memory) => Verified::Memory,
    }
}
